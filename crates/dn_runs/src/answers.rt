//! What the replica `h` of the zone `x` answers from the table.

use crate::reading::{bad_line, number16, push_bytes, push_truth};
use dn_answer::{AnswerValue, answer as answer_of, refused};
use dn_io::{List, OutOfMemory};
use dn_message::{Rcode, Rr};
use dn_store::Table;
use dn_word::{is_word, name_of, push_count, push_name, words_of};
use std::alloc::Global;

fn push_code(alloc: Global, rcode: Rcode, out: &mut List<u8>) -> Result<(), OutOfMemory> {
    match rcode {
        Rcode::NoError => out.extend(b"NoError"),
        Rcode::NxDomain => out.extend(b"NxDomain"),
        Rcode::Refused => out.extend(b"Refused"),
        other => push_count(alloc, out, b"code ", u64::from(other.number())),
    }
}

// Adds the code, the flags and how many rows each section has.
fn push_head(alloc: Global, reply: &AnswerValue, out: &mut List<u8>) -> Result<(), OutOfMemory> {
    push_code(alloc, reply.rcode, out)?;
    push_truth(out, b" aa ", reply.aa)?;
    push_truth(out, b" tc ", reply.tc)?;
    push_count(alloc, out, b" rows ", reply.answer.len() as u64)?;
    push_count(alloc, out, b" ", reply.authority.len() as u64)?;
    push_count(alloc, out, b" ", reply.additional.len() as u64)
}

// Adds rows, each as `OWNER/TYPE/CLASS/TTL/DATA`.
fn push_rows(
    alloc: Global,
    label: &[u8],
    rows: &[Rr],
    out: &mut List<u8>,
) -> Result<(), OutOfMemory> {
    for row in rows {
        out.extend(label)?;
        push_name(out, &row.name)?;
        push_count(alloc, out, b"/", u64::from(row.rtype))?;
        push_count(alloc, out, b"/", u64::from(row.rclass))?;
        push_count(alloc, out, b"/", u64::from(row.ttl))?;
        out.extend(b"/")?;
        push_bytes(alloc, out, row.rdata.as_slice())?;
    }
    Ok(())
}

fn push_sections(
    alloc: Global,
    reply: &AnswerValue,
    out: &mut List<u8>,
) -> Result<(), OutOfMemory> {
    push_rows(alloc, b" answer ", reply.answer.as_slice(), out)?;
    push_rows(alloc, b" authority ", reply.authority.as_slice(), out)?;
    push_rows(alloc, b" additional ", reply.additional.as_slice(), out)
}

// The type of the last row of the answer.
fn push_last(alloc: Global, rows: &[Rr], out: &mut List<u8>) -> Result<(), OutOfMemory> {
    match rows.last() {
        Some(row) => push_count(alloc, out, b" last of type ", u64::from(row.rtype)),
        None => out.extend(b" no last"),
    }
}

fn push_reply(
    alloc: Global,
    call: &[u8],
    reply: &AnswerValue,
    out: &mut List<u8>,
) -> Result<(), OutOfMemory> {
    push_head(alloc, reply, out)?;
    if is_word(call, b"rows") {
        push_sections(alloc, reply, out)
    } else if is_word(call, b"last") {
        push_last(alloc, reply.answer.as_slice(), out)
    } else {
        Ok(())
    }
}

// What is answered to a question.
fn asked(
    alloc: Global,
    table: &Table,
    call: &[u8],
    name: &[u8],
    qtype: &[u8],
    out: &mut List<u8>,
) -> Result<(), OutOfMemory> {
    let (Some(apex), Some(host)) = (name_of(b"x"), name_of(b"h")) else {
        return bad_line(out);
    };
    let (Some(name), Some(qtype)) = (name_of(name), number16(qtype)) else {
        return bad_line(out);
    };
    let reply = answer_of(alloc, table, &apex, &host, &name, qtype)?;
    push_reply(alloc, call, &reply, out)
}

/// The answer to a call.
pub fn answer(
    alloc: Global,
    table: &Table,
    call: &[u8],
    text: &[u8],
    out: &mut List<u8>,
) -> Result<(), OutOfMemory> {
    let words = words_of(alloc, text)?;
    match words.as_slice() {
        [] => push_reply(alloc, call, &refused(alloc), out),
        [name, qtype] => asked(alloc, table, call, name, qtype, out),
        _ => bad_line(out),
    }
}
