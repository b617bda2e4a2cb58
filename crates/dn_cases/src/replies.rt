//! Replies in bytes (RFC 1035 4.1).

use crate::queries::push_fault;
use crate::reading::{bad_line, bytes_of, number8, place_of, push_bytes, push_truth};
use crate::writers;
use dn_io::{List, OutOfMemory};
use dn_message::{Question, Rcode, ReadError, Reply, Rr, read_reply, short_reply};
use dn_word::{is_word, push_count, push_name, words_of};
use std::alloc::Global;

fn push_flags(alloc: Global, reply: &Reply, out: &mut List<u8>) -> Result<(), OutOfMemory> {
    push_count(alloc, out, b"id ", u64::from(reply.id))?;
    push_count(alloc, out, b" opcode ", u64::from(reply.opcode))?;
    push_truth(out, b" aa ", reply.aa)?;
    push_truth(out, b" tc ", reply.tc)?;
    push_truth(out, b" rd ", reply.rd)?;
    push_truth(out, b" ra ", reply.ra)?;
    push_count(alloc, out, b" z ", u64::from(reply.z))?;
    push_count(alloc, out, b" code ", u64::from(reply.rcode))
}

fn push_questions(
    alloc: Global,
    questions: &[Question],
    out: &mut List<u8>,
) -> Result<(), OutOfMemory> {
    for question in questions {
        out.extend(b" | question ")?;
        push_name(out, &question.name)?;
        push_count(alloc, out, b" ", u64::from(question.qtype))?;
        push_count(alloc, out, b" ", u64::from(question.qclass))?;
    }
    Ok(())
}

/// Adds the rows of a section, each as its label and `OWNER TYPE CLASS TTL DATA`.
pub fn push_rows(
    alloc: Global,
    label: &[u8],
    rows: &[Rr],
    out: &mut List<u8>,
) -> Result<(), OutOfMemory> {
    for row in rows {
        out.extend(label)?;
        push_row(alloc, row, out)?;
    }
    Ok(())
}

fn push_row(alloc: Global, row: &Rr, out: &mut List<u8>) -> Result<(), OutOfMemory> {
    push_name(out, &row.name)?;
    push_count(alloc, out, b" ", u64::from(row.rtype))?;
    push_count(alloc, out, b" ", u64::from(row.rclass))?;
    push_count(alloc, out, b" ", u64::from(row.ttl))?;
    out.extend(b" ")?;
    push_bytes(alloc, out, row.rdata.as_slice())
}

fn push_reply(alloc: Global, reply: &Reply, out: &mut List<u8>) -> Result<(), OutOfMemory> {
    push_flags(alloc, reply, out)?;
    push_questions(alloc, reply.questions.as_slice(), out)?;
    push_rows(alloc, b" | answer ", reply.answer.as_slice(), out)?;
    push_rows(alloc, b" | authority ", reply.authority.as_slice(), out)?;
    push_rows(alloc, b" | additional ", reply.additional.as_slice(), out)
}

// The reply that bytes are.
fn read(alloc: Global, bytes: &[u8], out: &mut List<u8>) -> Result<(), OutOfMemory> {
    match read_reply(alloc, bytes) {
        Ok(reply) => push_reply(alloc, &reply, out),
        Err(ReadError::Form(error)) => push_fault(alloc, error, out),
        Err(ReadError::OutOfMemory) => Err(OutOfMemory),
    }
}

// The short reply to a request with a code, in front of 14 bytes of 9.
fn short(
    alloc: Global,
    request: &[u8],
    rcode: Rcode,
    out: &mut List<u8>,
) -> Result<(), OutOfMemory> {
    if request.len() < 12 {
        return bad_line(out);
    }
    let mut room = [9; 14];
    let len = short_reply(request, rcode, &mut room);
    push_count(alloc, out, b"to ", len as u64)?;
    out.extend(b" ")?;
    push_bytes(alloc, out, &room)
}

fn of_two(alloc: Global, bytes: &[u8], code: &[u8], out: &mut List<u8>) -> Result<(), OutOfMemory> {
    match number8(code).and_then(Rcode::of_number) {
        Some(rcode) => short(alloc, bytes, rcode, out),
        None => bad_line(out),
    }
}

fn of_word(alloc: Global, call: &[u8], word: &[u8], out: &mut List<u8>) -> Result<(), OutOfMemory> {
    if is_word(call, b"room") {
        return match place_of(word) {
            Some(room) => writers::in_room(alloc, room, out),
            None => bad_line(out),
        };
    }
    match bytes_of(alloc, word) {
        Some(bytes) => read(alloc, bytes.as_slice(), out),
        None => bad_line(out),
    }
}

/// The answer to a call.
pub fn answer(
    alloc: Global,
    call: &[u8],
    text: &[u8],
    out: &mut List<u8>,
) -> Result<(), OutOfMemory> {
    let words = words_of(alloc, text)?;
    match words.as_slice() {
        [] => writers::whole(alloc, out),
        [word] => of_word(alloc, call, word, out),
        [word, code] => match bytes_of(alloc, word) {
            Some(bytes) => of_two(alloc, bytes.as_slice(), code, out),
            None => bad_line(out),
        },
        _ => bad_line(out),
    }
}
