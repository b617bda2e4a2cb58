//! Records, properties and data as text.

use crate::properties::push_property;
use crate::reading::{bad_line, bytes_of, number16, number32, parts_of, push_bytes, text_of};
use crate::records::push_record;
use dn_io::{List, OutOfMemory};
use dn_property::Property;
use dn_rdata::Record;
use dn_text::{
    property_line, read_property_line, read_rdata, read_record_line, record_line, row_line, type_of,
};
use dn_word::{TextError, is_word, name_of, push_count, words_of};
use std::alloc::Global;

// What is said of a text that isn't of the form.
fn push_error(error: TextError, out: &mut List<u8>) -> Result<(), OutOfMemory> {
    match error {
        TextError::BadText => out.extend(b"BadText"),
        TextError::OutOfMemory => Err(OutOfMemory),
    }
}

// The type of a word.
fn kind(alloc: Global, word: &[u8], out: &mut List<u8>) -> Result<(), OutOfMemory> {
    match type_of(word) {
        Some(rtype) => push_count(alloc, out, b"", u64::from(rtype)),
        None => out.extend(b"none"),
    }
}

// The data of a type that a text spells.
fn data(alloc: Global, rtype: u16, text: &[u8], out: &mut List<u8>) -> Result<(), OutOfMemory> {
    match read_rdata(alloc, rtype, text) {
        Ok(rdata) => push_bytes(alloc, out, rdata.as_slice()),
        Err(error) => push_error(error, out),
    }
}

// The same where the type's number stands before the text.
fn data_of(alloc: Global, text: &[u8], out: &mut List<u8>) -> Result<(), OutOfMemory> {
    let (rtype, text) = parts_of(text);
    match (number16(rtype), text_of(alloc, text)) {
        (Some(rtype), Some(text)) => data(alloc, rtype, text.as_slice(), out),
        _ => bad_line(out),
    }
}

// Adds `back` where a line is the one that was read, else the line.
fn push_again(line: &[u8], again: &[u8], out: &mut List<u8>) -> Result<(), OutOfMemory> {
    if line == again {
        return out.extend(b" back");
    }
    out.extend(b" then ")?;
    out.extend(again)
}

fn push_record_again(
    alloc: Global,
    line: &[u8],
    item: &Record,
    out: &mut List<u8>,
) -> Result<(), OutOfMemory> {
    push_record(alloc, item, out)?;
    let again = record_line(alloc, item)?;
    push_again(line, again.as_slice(), out)
}

// The record that a line is, and its line.
fn record(alloc: Global, line: &[u8], out: &mut List<u8>) -> Result<(), OutOfMemory> {
    match read_record_line(alloc, line) {
        Ok(item) => push_record_again(alloc, line, &item, out),
        Err(error) => push_error(error, out),
    }
}

fn push_property_again(
    alloc: Global,
    line: &[u8],
    item: &Property,
    out: &mut List<u8>,
) -> Result<(), OutOfMemory> {
    push_property(alloc, item, out)?;
    let again = property_line(alloc, item)?;
    push_again(line, again.as_slice(), out)
}

// The property that a line is, and its line.
fn property(alloc: Global, line: &[u8], out: &mut List<u8>) -> Result<(), OutOfMemory> {
    match read_property_line(alloc, line) {
        Ok(item) => push_property_again(alloc, line, &item, out),
        Err(error) => push_error(error, out),
    }
}

// The line of a row with this owner, time to live, type and data.
fn row(
    alloc: Global,
    owner: &[u8],
    ttl: &[u8],
    rtype: &[u8],
    rdata: &[u8],
    out: &mut List<u8>,
) -> Result<(), OutOfMemory> {
    let (Some(owner), Some(ttl)) = (name_of(owner), number32(ttl)) else {
        return bad_line(out);
    };
    let (Some(rtype), Some(rdata)) = (number16(rtype), bytes_of(alloc, rdata)) else {
        return bad_line(out);
    };
    let line = row_line(alloc, &owner, ttl, rtype, rdata.as_slice())?;
    out.extend(line.as_slice())
}

fn row_of(alloc: Global, text: &[u8], out: &mut List<u8>) -> Result<(), OutOfMemory> {
    let words = words_of(alloc, text)?;
    match words.as_slice() {
        [owner, ttl, rtype, rdata] => row(alloc, owner, ttl, rtype, rdata, out),
        _ => bad_line(out),
    }
}

fn of_line(alloc: Global, call: &[u8], line: &[u8], out: &mut List<u8>) -> Result<(), OutOfMemory> {
    if is_word(call, b"record") {
        record(alloc, line, out)
    } else if is_word(call, b"property") {
        property(alloc, line, out)
    } else {
        bad_line(out)
    }
}

/// The answer to a call.
pub fn answer(
    alloc: Global,
    call: &[u8],
    text: &[u8],
    out: &mut List<u8>,
) -> Result<(), OutOfMemory> {
    if is_word(call, b"type") {
        return kind(alloc, text, out);
    }
    if is_word(call, b"data") {
        return data_of(alloc, text, out);
    }
    if is_word(call, b"row") {
        return row_of(alloc, text, out);
    }
    match text_of(alloc, text) {
        Some(line) => of_line(alloc, call, line.as_slice(), out),
        None => bad_line(out),
    }
}
