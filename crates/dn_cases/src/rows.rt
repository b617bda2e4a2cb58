//! Records in memory: `TYPE/TTL/HOUR/DATA` is one as a server makes it, whether or not its data are valid, and
//! `TYPE/RANK/FLAGS/SERIAL/TTL/RESERVED/HOUR/DATA` one of any fields.

use crate::orders::{of_rows, push_order};
use crate::reading::{bad_line, bytes_of, number8, number16, number32};
use crate::records::push_record;
use crate::views::view;
use dn_io::{Duplicate, List, OutOfMemory};
use dn_rdata::{Record, check_rdata, row_order, target_of};
use dn_word::{is_word, parts_between, push_name, words_of};
use std::alloc::Global;

fn made(alloc: Global, rtype: &[u8], ttl: &[u8], hour: &[u8], rdata: &[u8]) -> Option<Record> {
    let rdata = bytes_of(alloc, rdata)?;
    let (rtype, ttl, hour) = (number16(rtype)?, number32(ttl)?, number32(hour)?);
    if check_rdata(rtype, rdata.as_slice()).is_ok() {
        Record::make(alloc, rtype, ttl, hour, rdata.as_slice()).ok()
    } else {
        Record::with_any_data(alloc, rtype, ttl, hour, rdata.as_slice()).ok()
    }
}

fn with_fields(
    alloc: Global,
    kind: (&[u8], &[u8], &[u8], &[u8]),
    others: (&[u8], &[u8], &[u8]),
    rdata: &[u8],
) -> Option<Record> {
    let rdata = bytes_of(alloc, rdata)?;
    Some(Record {
        rtype: number16(kind.0)?,
        rank: number8(kind.1)?,
        flags: number16(kind.2)?,
        serial: number32(kind.3)?,
        ttl: number32(others.0)?,
        reserved: number32(others.1)?,
        hour: number32(others.2)?,
        rdata,
    })
}

// The record that a word is.
fn row_of(alloc: Global, word: &[u8]) -> Option<Record> {
    let parts = parts_between(alloc, word, b'/').ok()?;
    match parts.as_slice() {
        [rtype, ttl, hour, rdata] => made(alloc, rtype, ttl, hour, rdata),
        [rtype, rank, flags, serial, ttl, reserved, hour, rdata] => {
            with_fields(
                alloc,
                (rtype, rank, flags, serial),
                (ttl, reserved, hour),
                rdata,
            )
        }
        _ => None,
    }
}

// The records that words are.
fn rows_of(alloc: Global, words: &[&[u8]]) -> Result<List<Record>, OutOfMemory> {
    let mut rows = List::new(alloc);
    for word in words {
        if let Some(row) = row_of(alloc, word) {
            rows.push(row)?;
        }
    }
    Ok(rows)
}

// The name that a record's data lead to.
fn target(row: &Record, out: &mut List<u8>) -> Result<(), OutOfMemory> {
    match target_of(row) {
        Some(name) => push_name(out, &name),
        None => out.extend(b"none"),
    }
}

fn of_row(alloc: Global, call: &[u8], row: &Record, out: &mut List<u8>) -> Result<(), OutOfMemory> {
    if is_word(call, b"target") {
        target(row, out)
    } else if is_word(call, b"made") {
        push_record(alloc, row, out)
    } else if is_word(call, b"copy") {
        push_record(alloc, &row.copy(alloc)?, out)
    } else if is_word(call, b"view") {
        view(alloc, row, out)
    } else {
        bad_line(out)
    }
}

// How two records stand to each other, from both sides.
fn both_orders(left: &Record, right: &Record, out: &mut List<u8>) -> Result<(), OutOfMemory> {
    push_order(out, row_order(left, right))?;
    out.extend(b" ")?;
    push_order(out, row_order(right, left))
}

/// The answer to a call.
pub fn answer(
    alloc: Global,
    call: &[u8],
    text: &[u8],
    out: &mut List<u8>,
) -> Result<(), OutOfMemory> {
    let words = words_of(alloc, text)?;
    let rows = rows_of(alloc, words.as_slice())?;
    match rows.as_slice() {
        [row] => of_row(alloc, call, row, out),
        [left, right] if is_word(call, b"order") => both_orders(left, right, out),
        rows => of_rows(rows, out),
    }
}
