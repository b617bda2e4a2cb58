//! Words of a line, and what they are.

use crate::reading::{bad_line, parts_of, push_truth, push_wire, text_of};
use dn_io::{List, OutOfMemory};
use dn_text::is_type_a;
use dn_word::{
    cut, id_of, ip_of, is_replica_name, is_word, moment_of, name_of, number_of, number_within,
    push_count, push_dotted, push_hex, push_number, words_of,
};
use std::alloc::Global;

// The words of a line, each between bars.
fn split(alloc: Global, line: &[u8], out: &mut List<u8>) -> Result<(), OutOfMemory> {
    out.extend(b"|")?;
    for word in words_of(alloc, line)? {
        out.extend(word)?;
        out.extend(b"|")?;
    }
    Ok(())
}

// The words of a line in hex digits.
fn split_digits(alloc: Global, line: &[u8], out: &mut List<u8>) -> Result<(), OutOfMemory> {
    out.extend(b"|")?;
    for word in words_of(alloc, line)? {
        push_hex(alloc, out, word)?;
        out.extend(b"|")?;
    }
    Ok(())
}

// Whether a word is the type A, and whether it is `on`.
fn kinds(word: &[u8], out: &mut List<u8>) -> Result<(), OutOfMemory> {
    push_truth(out, b"A ", is_type_a(word))?;
    push_truth(out, b" on ", is_word(word, b"on"))
}

fn push_found(alloc: Global, found: Option<u64>, out: &mut List<u8>) -> Result<(), OutOfMemory> {
    match found {
        Some(number) => push_number(alloc, out, number),
        None => out.extend(b"none"),
    }
}

// The number that a word is up to another, in 32 bits and in 64.
fn number(alloc: Global, most: u32, word: &[u8], out: &mut List<u8>) -> Result<(), OutOfMemory> {
    push_found(alloc, number_of(most, word).map(u64::from), out)?;
    out.extend(b" ")?;
    push_found(alloc, number_within(u64::from(most), word), out)
}

// The number that a word is up to another, of which each is a word.
fn within(alloc: Global, text: &[u8], out: &mut List<u8>) -> Result<(), OutOfMemory> {
    let (most, word) = parts_of(text);
    match number_within(u64::MAX, most) {
        Some(most) => match u32::try_from(most) {
            Ok(most) => number(alloc, most, word, out),
            Err(_) => push_found(alloc, number_within(most, word), out),
        },
        None => bad_line(out),
    }
}

fn name(alloc: Global, word: &[u8], out: &mut List<u8>) -> Result<(), OutOfMemory> {
    match name_of(word) {
        Some(name) => push_wire(alloc, out, &name),
        None => out.extend(b"none"),
    }
}

fn id(alloc: Global, word: &[u8], out: &mut List<u8>) -> Result<(), OutOfMemory> {
    match id_of(word) {
        Some(id) => push_hex(alloc, out, &id.0),
        None => out.extend(b"none"),
    }
}

// The parts of a word before and behind its first dot.
fn halves(word: &[u8], out: &mut List<u8>) -> Result<(), OutOfMemory> {
    match cut(word, b'.') {
        Some((before, behind)) => {
            out.extend(before)?;
            out.extend(b"|")?;
            out.extend(behind)
        }
        None => out.extend(b"none"),
    }
}

fn address(alloc: Global, word: &[u8], out: &mut List<u8>) -> Result<(), OutOfMemory> {
    match ip_of(word) {
        Some(ip) => push_dotted(alloc, out, &ip),
        None => out.extend(b"none"),
    }
}

// Numbers behind `a `: two one behind the other, and one behind its label.
fn counts(alloc: Global, words: &[&[u8]], out: &mut List<u8>) -> Result<(), OutOfMemory> {
    out.extend(b"a ")?;
    for word in words {
        match number_within(u64::MAX, word) {
            Some(number) => push_number(alloc, out, number)?,
            None => push_count(alloc, out, b" of ", word.len() as u64)?,
        }
    }
    Ok(())
}

fn of_word(alloc: Global, call: &[u8], word: &[u8], out: &mut List<u8>) -> Result<(), OutOfMemory> {
    if is_word(call, b"split") {
        split(alloc, word, out)
    } else if is_word(call, b"split-digits") {
        split_digits(alloc, word, out)
    } else if is_word(call, b"kinds") {
        kinds(word, out)
    } else if is_word(call, b"number") {
        within(alloc, word, out)
    } else if is_word(call, b"name") {
        name(alloc, word, out)
    } else if is_word(call, b"moment") {
        push_found(alloc, moment_of(word).map(|moment| moment.ticks()), out)
    } else {
        of_identity(alloc, call, word, out)
    }
}

fn of_identity(
    alloc: Global,
    call: &[u8],
    word: &[u8],
    out: &mut List<u8>,
) -> Result<(), OutOfMemory> {
    if is_word(call, b"replica") {
        push_truth(out, b"", is_replica_name(word))
    } else if is_word(call, b"id") {
        id(alloc, word, out)
    } else if is_word(call, b"halves") {
        halves(word, out)
    } else if is_word(call, b"address") {
        address(alloc, word, out)
    } else if is_word(call, b"counts") {
        let words = words_of(alloc, word)?;
        counts(alloc, words.as_slice(), out)
    } else {
        bad_line(out)
    }
}

/// The answer to a call.
pub fn answer(
    alloc: Global,
    call: &[u8],
    text: &[u8],
    out: &mut List<u8>,
) -> Result<(), OutOfMemory> {
    match text_of(alloc, text) {
        Some(word) => of_word(alloc, call, word.as_slice(), out),
        None => bad_line(out),
    }
}
