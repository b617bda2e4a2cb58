//! What the words of a line stand for, and what several answers are written with.

use dn_io::{List, Moment, OutOfMemory};
use dn_name::Name;
use dn_stamp::ReplicaId;
use dn_word::{bytes_of_hex, cut, is_word, number_within, push_hex};
use std::alloc::Global;

/// What stands before the answer of a line.
pub fn asked(line: &[u8]) -> &[u8] {
    match line.windows(4).position(|part| is_word(part, b" -> ")) {
        Some(at) => line.split_at_checked(at).map_or(line, |(front, _)| front),
        None => line,
    }
}

/// The first word of a text, and what stands behind its space.
pub fn parts_of(text: &[u8]) -> (&[u8], &[u8]) {
    match cut(text, b' ') {
        Some(parts) => parts,
        None => (text, &[]),
    }
}

/// The bytes of hex digits; `-` has none, and `zeros:` stands before a count of zero bytes.
pub fn bytes_of(alloc: Global, word: &[u8]) -> Option<List<u8>> {
    if is_word(word, b"-") {
        return Some(List::new(alloc));
    }
    match word.strip_prefix(b"zeros:") {
        Some(count) => zeros(alloc, place_of(count)?),
        None => bytes_of_hex(alloc, word).ok(),
    }
}

fn zeros(alloc: Global, count: usize) -> Option<List<u8>> {
    let mut bytes = List::new(alloc);
    for _ in 0..count {
        bytes.push(0).ok()?;
    }
    Some(bytes)
}

/// The place or count that a word is.
pub fn place_of(word: &[u8]) -> Option<usize> {
    usize::try_from(number_within(u64::MAX, word)?).ok()
}

/// The number of 32 bits that a word is.
pub fn number32(word: &[u8]) -> Option<u32> {
    u32::try_from(number_within(4_294_967_295, word)?).ok()
}

/// The number of 16 bits that a word is.
pub fn number16(word: &[u8]) -> Option<u16> {
    u16::try_from(number_within(65_535, word)?).ok()
}

/// The replica each byte of whose identity is the number that a word is.
pub fn replica_of(word: &[u8]) -> Option<ReplicaId> {
    let number = u8::try_from(number_within(255, word)?).ok()?;
    Some(ReplicaId([number; 16]))
}

/// The moment that a word is.
pub fn moment_of(word: &[u8]) -> Option<Moment> {
    Moment::of(number_within(u64::MAX, word)?)
}

/// Adds bytes as hex digits, `-` where there are none.
pub fn push_bytes(alloc: Global, out: &mut List<u8>, bytes: &[u8]) -> Result<(), OutOfMemory> {
    if bytes.is_empty() {
        return out.extend(b"-");
    }
    push_hex(alloc, out, bytes)
}

/// Adds the bytes of a name on the wire.
pub fn push_wire(alloc: Global, out: &mut List<u8>, name: &Name) -> Result<(), OutOfMemory> {
    let mut room = [0; 255];
    match name.write_wire(&mut room, 0) {
        Ok(after) => push_hex(alloc, out, &room[..after]),
        Err(_) => out.extend(b"no room"),
    }
}

/// Adds a label and whether it holds.
pub fn push_truth(out: &mut List<u8>, label: &[u8], holds: bool) -> Result<(), OutOfMemory> {
    out.extend(label)?;
    out.extend(if holds { b"yes" } else { b"no" })
}

/// What is said of a line that isn't one of these calls.
pub fn bad_line(out: &mut List<u8>) -> Result<(), OutOfMemory> {
    out.extend(b"bad line")
}
