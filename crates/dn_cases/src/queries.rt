//! Queries in bytes (RFC 1035 4.1), and which kind of message bytes are.

use crate::names::fault_word;
use crate::reading::{bad_line, bytes_of, place_of, push_bytes, push_truth};
use dn_io::{List, OutOfMemory};
use dn_message::{FormError, FormFault, Kind, Opt, Query, kind_of, read_query, write_query};
use dn_word::{is_word, push_count, push_name, words_of};
use std::alloc::Global;

/// Adds what is wrong with a message first, and where.
pub fn push_fault(alloc: Global, error: FormError, out: &mut List<u8>) -> Result<(), OutOfMemory> {
    let word: &[u8] = match error.kind {
        FormFault::Short => b"Short at ",
        FormFault::NotReply => b"NotReply at ",
        FormFault::QuestionCount => b"QuestionCount at ",
        FormFault::SectionCount => b"SectionCount at ",
        FormFault::BadRdata => b"BadRdata at ",
        FormFault::TwoOpts => b"TwoOpts at ",
        FormFault::Trailing => b"Trailing at ",
        FormFault::Name(kind) => {
            out.extend(b"name ")?;
            fault_word(kind)
        }
    };
    push_count(alloc, out, word, error.place as u64)
}

fn push_opt(alloc: Global, opt: Option<Opt>, out: &mut List<u8>) -> Result<(), OutOfMemory> {
    match opt {
        Some(opt) => {
            push_count(alloc, out, b" opt size ", u64::from(opt.size))?;
            push_count(alloc, out, b" version ", u64::from(opt.version))
        }
        None => out.extend(b" no opt"),
    }
}

fn push_query(alloc: Global, query: &Query, out: &mut List<u8>) -> Result<(), OutOfMemory> {
    push_count(alloc, out, b"id ", u64::from(query.id))?;
    push_truth(out, b" rd ", query.rd)?;
    out.extend(b" ")?;
    push_name(out, &query.name)?;
    push_count(alloc, out, b" type ", u64::from(query.qtype))?;
    push_count(alloc, out, b" class ", u64::from(query.qclass))?;
    push_opt(alloc, query.opt, out)?;
    push_truth(out, b" signed ", query.signed)
}

// The query that bytes are.
fn read(alloc: Global, bytes: &[u8], out: &mut List<u8>) -> Result<(), OutOfMemory> {
    match read_query(bytes) {
        Ok(query) => push_query(alloc, &query, out),
        Err(error) => push_fault(alloc, error, out),
    }
}

// The kind of message that bytes are.
fn kind(alloc: Global, bytes: &[u8], out: &mut List<u8>) -> Result<(), OutOfMemory> {
    match kind_of(bytes) {
        Kind::Silent => out.extend(b"silent"),
        Kind::Query => out.extend(b"query"),
        Kind::Update => out.extend(b"update"),
        Kind::Other(opcode) => push_count(alloc, out, b"opcode ", u64::from(opcode)),
    }
}

// A query written into bytes of 9: what is written, and whether the rest stayed.
fn written(
    alloc: Global,
    query: &Query,
    room: &mut [u8],
    out: &mut List<u8>,
) -> Result<(), OutOfMemory> {
    if query.signed {
        return out.extend(b"signed");
    }
    match write_query(query, room) {
        Ok(len) => push_written(alloc, room, len, out),
        Err(_) => {
            push_truth(
                out,
                b"no room, unchanged ",
                room.iter().all(|byte| *byte == 9),
            )
        }
    }
}

/// Adds what is written at the front of bytes of 9, and whether the rest stayed.
pub fn push_written(
    alloc: Global,
    room: &[u8],
    len: usize,
    out: &mut List<u8>,
) -> Result<(), OutOfMemory> {
    match room.split_at_checked(len) {
        Some((front, rest)) => {
            push_bytes(alloc, out, front)?;
            push_truth(out, b" rest unchanged ", rest.iter().all(|byte| *byte == 9))
        }
        None => out.extend(b"outside"),
    }
}

// The query of bytes written into so many bytes.
fn write(alloc: Global, bytes: &[u8], room: usize, out: &mut List<u8>) -> Result<(), OutOfMemory> {
    let mut whole = [9; 100];
    let (Ok(query), Some((front, _))) = (read_query(bytes), whole.split_at_mut_checked(room)) else {
        return bad_line(out);
    };
    written(alloc, &query, front, out)
}

fn of_bytes(
    alloc: Global,
    call: &[u8],
    bytes: &[u8],
    out: &mut List<u8>,
) -> Result<(), OutOfMemory> {
    if is_word(call, b"read") {
        read(alloc, bytes, out)
    } else if is_word(call, b"kind") {
        kind(alloc, bytes, out)
    } else {
        bad_line(out)
    }
}

/// The answer to a call.
pub fn answer(
    alloc: Global,
    call: &[u8],
    text: &[u8],
    out: &mut List<u8>,
) -> Result<(), OutOfMemory> {
    let words = words_of(alloc, text)?;
    match words.as_slice() {
        [word] => match bytes_of(alloc, word) {
            Some(bytes) => of_bytes(alloc, call, bytes.as_slice(), out),
            None => bad_line(out),
        },
        [word, room] => match (bytes_of(alloc, word), place_of(room)) {
            (Some(bytes), Some(room)) => write(alloc, bytes.as_slice(), room, out),
            _ => bad_line(out),
        },
        _ => bad_line(out),
    }
}
