//! Names (RFC 1035 3.1), by their bytes on the wire as hex digits.

use crate::reading::{bad_line, bytes_of, place_of, push_truth, push_wire, text_of, wire_name};
use crate::{counted, orders};
use dn_io::{List, OutOfMemory};
use dn_name::{Name, NameError, NameFault};
use dn_word::{is_word, push_count, push_hex, words_of};
use std::alloc::Global;

/// The word of a fault.
pub fn fault_word(kind: NameFault) -> &'static [u8] {
    match kind {
        NameFault::Short => b"Short at ",
        NameFault::LabelTooLong => b"LabelTooLong at ",
        NameFault::NameTooLong => b"NameTooLong at ",
        NameFault::BadPointer => b"BadPointer at ",
        NameFault::BadCount => b"BadCount at ",
        NameFault::BadText => b"BadText at ",
    }
}

/// Adds what is wrong, and where.
pub fn push_fault(alloc: Global, error: NameError, out: &mut List<u8>) -> Result<(), OutOfMemory> {
    push_count(alloc, out, fault_word(error.kind), error.place as u64)
}

/// Adds where a name ends in a message, and its bytes.
pub fn push_found(
    alloc: Global,
    found: Result<(Name, usize), NameError>,
    out: &mut List<u8>,
) -> Result<(), OutOfMemory> {
    match found {
        Ok((name, next)) => {
            push_count(alloc, out, b"to ", next as u64)?;
            out.extend(b" ")?;
            push_wire(alloc, out, &name)
        }
        Err(error) => push_fault(alloc, error, out),
    }
}

// How many bytes and labels a name has, and whether it is the root.
fn sizes(alloc: Global, name: &Name, out: &mut List<u8>) -> Result<(), OutOfMemory> {
    push_count(alloc, out, b"bytes ", name.wire_len() as u64)?;
    push_count(alloc, out, b" labels ", u64::from(name.labels()))?;
    push_truth(out, b" root ", name.parent().is_none())
}

fn parent(alloc: Global, name: &Name, out: &mut List<u8>) -> Result<(), OutOfMemory> {
    match name.parent() {
        Some(above) => push_wire(alloc, out, &above),
        None => out.extend(b"none"),
    }
}

// The text in front of a room of 1,020 bytes, the rest of which stays as it was.
fn text(name: &Name, out: &mut List<u8>) -> Result<(), OutOfMemory> {
    let mut room = [b'?'; 1020];
    let len = name.write_text(&mut room);
    out.extend(&room[..len])?;
    if room.iter().skip(len).all(|byte| *byte == b'?') {
        Ok(())
    } else {
        out.extend(b" and more")
    }
}

fn of_name(alloc: Global, call: &[u8], name: &Name, out: &mut List<u8>) -> Result<(), OutOfMemory> {
    if is_word(call, b"sizes") {
        sizes(alloc, name, out)
    } else if is_word(call, b"parent") {
        parent(alloc, name, out)
    } else if is_word(call, b"lower") {
        push_wire(alloc, out, &name.lower())
    } else if is_word(call, b"text") {
        text(name, out)
    } else {
        bad_line(out)
    }
}

// The name at the front of bytes, and where it ends.
fn plain(alloc: Global, bytes: &[u8], out: &mut List<u8>) -> Result<(), OutOfMemory> {
    match Name::read_plain(bytes) {
        Some(found) => push_found(alloc, Ok(found), out),
        None => out.extend(b"none"),
    }
}

// The name that a text spells.
fn of_text(alloc: Global, text: &[u8], out: &mut List<u8>) -> Result<(), OutOfMemory> {
    match Name::from_text(text) {
        Ok(name) => push_wire(alloc, out, &name),
        Err(error) => push_fault(alloc, error, out),
    }
}

// The name that stands at a place of a message.
fn spelled(alloc: Global, bytes: &[u8], at: usize, out: &mut List<u8>) -> Result<(), OutOfMemory> {
    if at > bytes.len() {
        return bad_line(out);
    }
    push_found(alloc, Name::read_wire(bytes, at), out)
}

// A name written at a place into seven bytes of 9: the place behind it, and the bytes.
fn written(alloc: Global, name: &Name, at: usize, out: &mut List<u8>) -> Result<(), OutOfMemory> {
    let mut room = [9; 7];
    match name.write_wire(&mut room, at) {
        Ok(after) => push_count(alloc, out, b"to ", after as u64)?,
        Err(_) => out.extend(b"no room")?,
    }
    out.extend(b" ")?;
    push_hex(alloc, out, &room)
}

// A name written at a place.
fn write(
    alloc: Global,
    call: &[u8],
    name: &Name,
    at: usize,
    out: &mut List<u8>,
) -> Result<(), OutOfMemory> {
    if is_word(call, b"write") {
        written(alloc, name, at, out)
    } else {
        counted::written(alloc, name, at, out)
    }
}

// A call with bytes and a place.
fn at_place(
    alloc: Global,
    call: &[u8],
    bytes: &[u8],
    at: usize,
    out: &mut List<u8>,
) -> Result<(), OutOfMemory> {
    if is_word(call, b"at") {
        spelled(alloc, bytes, at, out)
    } else if is_word(call, b"counted") {
        counted::counted(alloc, bytes, at, out)
    } else {
        match Name::read_plain(bytes) {
            Some((name, _)) => write(alloc, call, &name, at, out),
            None => bad_line(out),
        }
    }
}

fn of_bytes(
    alloc: Global,
    call: &[u8],
    word: &[u8],
    out: &mut List<u8>,
) -> Result<(), OutOfMemory> {
    match bytes_of(alloc, word) {
        Some(bytes) if is_word(call, b"plain") => plain(alloc, bytes.as_slice(), out),
        Some(_) => match wire_name(alloc, word) {
            Some(name) => of_name(alloc, call, &name, out),
            None => bad_line(out),
        },
        None => bad_line(out),
    }
}

// Whether the first of two names is the second, whether it stands under it, and their order.
fn pair(left: &Name, right: &Name, out: &mut List<u8>) -> Result<(), OutOfMemory> {
    push_truth(out, b"same ", left.same(right))?;
    push_truth(out, b" under ", left.is_under(right))?;
    out.extend(b" ")?;
    orders::push_order(out, left.compare(right))
}

fn of_two(
    alloc: Global,
    call: &[u8],
    left: &[u8],
    right: &[u8],
    out: &mut List<u8>,
) -> Result<(), OutOfMemory> {
    if is_word(call, b"pair") {
        match (wire_name(alloc, left), wire_name(alloc, right)) {
            (Some(left), Some(right)) => pair(&left, &right, out),
            _ => bad_line(out),
        }
    } else {
        match (bytes_of(alloc, left), place_of(right)) {
            (Some(bytes), Some(at)) => at_place(alloc, call, bytes.as_slice(), at, out),
            _ => bad_line(out),
        }
    }
}

/// The answer to a call.
pub fn answer(
    alloc: Global,
    call: &[u8],
    text: &[u8],
    out: &mut List<u8>,
) -> Result<(), OutOfMemory> {
    if is_word(call, b"of") {
        return match text_of(alloc, text) {
            Some(text) => of_text(alloc, text.as_slice(), out),
            None => bad_line(out),
        };
    }
    let words = words_of(alloc, text)?;
    match words.as_slice() {
        [word] => of_bytes(alloc, call, word, out),
        [left, right] => of_two(alloc, call, left, right, out),
        names => orders::of_names(alloc, names, out),
    }
}
