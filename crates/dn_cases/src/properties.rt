//! Properties as they are stored (MS-DNSP 2.3.2.1), and the rules that they give.

use crate::reading::{bad_line, bytes_of, push_bytes};
use crate::rules;
use dn_io::{Duplicate, List, OutOfMemory};
use dn_property::{
    Property, PropertyError, PropertyFault, PropertyReadError, read_property, write_property,
};
use dn_word::{is_word, push_count};
use std::alloc::Global;

/// Adds a property's fields.
pub fn push_property(
    alloc: Global,
    item: &Property,
    out: &mut List<u8>,
) -> Result<(), OutOfMemory> {
    push_count(alloc, out, b"name ", u64::from(item.name_length))?;
    push_count(alloc, out, b" flag ", u64::from(item.flag))?;
    push_count(alloc, out, b" id ", u64::from(item.id))?;
    out.extend(b" content ")?;
    push_bytes(alloc, out, item.content.as_slice())?;
    out.extend(b" tail ")?;
    push_bytes(alloc, out, item.tail.as_slice())
}

fn push_fault(alloc: Global, error: PropertyError, out: &mut List<u8>) -> Result<(), OutOfMemory> {
    match error.kind {
        PropertyFault::Short => out.extend(b"Short")?,
        PropertyFault::BadVersion => out.extend(b"BadVersion")?,
        PropertyFault::LongTail => out.extend(b"LongTail")?,
    }
    push_count(alloc, out, b" at ", error.place as u64)
}

// Adds whether a property is written as these bytes.
fn push_written(
    alloc: Global,
    item: &Property,
    bytes: &[u8],
    out: &mut List<u8>,
) -> Result<(), OutOfMemory> {
    if item.content.len() > 65_536 || item.tail.is_empty() || item.tail.len() > 4 {
        return out.extend(b" not written");
    }
    let written = write_property(alloc, item)?;
    if written.as_slice() == bytes {
        return out.extend(b" back");
    }
    out.extend(b" then ")?;
    push_bytes(alloc, out, written.as_slice())
}

// What is said of a property that bytes are.
fn of_property(
    alloc: Global,
    call: &[u8],
    item: Property,
    bytes: &[u8],
    out: &mut List<u8>,
) -> Result<(), OutOfMemory> {
    if is_word(call, b"read") {
        push_property(alloc, &item, out)?;
        push_written(alloc, &item, bytes, out)
    } else if is_word(call, b"copy") {
        push_property(alloc, &item.copy(alloc)?, out)
    } else {
        rules::of_one(alloc, item, out)
    }
}

// The property that bytes are.
fn of_bytes(
    alloc: Global,
    call: &[u8],
    bytes: &[u8],
    out: &mut List<u8>,
) -> Result<(), OutOfMemory> {
    match read_property(alloc, bytes) {
        Ok(item) => of_property(alloc, call, item, bytes, out),
        Err(PropertyReadError::Bad(error)) => push_fault(alloc, error, out),
        Err(PropertyReadError::OutOfMemory) => Err(OutOfMemory),
    }
}

/// The answer to a call.
pub fn answer(
    alloc: Global,
    call: &[u8],
    text: &[u8],
    out: &mut List<u8>,
) -> Result<(), OutOfMemory> {
    if is_word(call, b"rules") {
        return rules::of_words(alloc, text, out);
    }
    if is_word(call, b"due") || is_word(call, b"hours") {
        return rules::at_hour(alloc, text, out);
    }
    match bytes_of(alloc, text) {
        Some(bytes) => of_bytes(alloc, call, bytes.as_slice(), out),
        None => bad_line(out),
    }
}
