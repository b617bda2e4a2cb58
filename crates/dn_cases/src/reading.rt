//! What the words of a line stand for, and what several answers are written with.

use dn_io::{List, OutOfMemory};
use dn_name::Name;
use dn_word::{bytes_of_hex, cut, is_word, number_within, push_hex};
use std::alloc::Global;
use std::cmp::Ordering;

/// The first word of a text, and what stands behind its space.
pub fn parts_of(text: &[u8]) -> (&[u8], &[u8]) {
    match cut(text, b' ') {
        Some(parts) => parts,
        None => (text, &[]),
    }
}

/// The bytes of hex digits; `-` has none.
pub fn bytes_of(alloc: Global, word: &[u8]) -> Option<List<u8>> {
    if is_word(word, b"-") {
        return Some(List::new(alloc));
    }
    bytes_of_hex(alloc, word).ok()
}

/// The text that stands there, or that the hex digits behind `hex:` are.
pub fn text_of(alloc: Global, word: &[u8]) -> Option<List<u8>> {
    match word.strip_prefix(b"hex:") {
        Some(digits) => bytes_of(alloc, digits),
        None => List::from_slice(alloc, word).ok(),
    }
}

/// The name that the bytes of these hex digits spell, alone.
pub fn wire_name(alloc: Global, word: &[u8]) -> Option<Name> {
    let bytes = bytes_of(alloc, word)?;
    Name::read_plain(bytes.as_slice()).map(|(name, _)| name)
}

/// The place or count that a word is.
pub fn place_of(word: &[u8]) -> Option<usize> {
    usize::try_from(number_within(u64::MAX, word)?).ok()
}

/// The number of 32 bits that a word is.
pub fn number32(word: &[u8]) -> Option<u32> {
    u32::try_from(number_within(4_294_967_295, word)?).ok()
}

/// The number of 16 bits that a word is.
pub fn number16(word: &[u8]) -> Option<u16> {
    u16::try_from(number_within(65_535, word)?).ok()
}

/// The number of 8 bits that a word is.
pub fn number8(word: &[u8]) -> Option<u8> {
    u8::try_from(number_within(255, word)?).ok()
}

/// Adds bytes as hex digits, `-` where there are none.
pub fn push_bytes(alloc: Global, out: &mut List<u8>, bytes: &[u8]) -> Result<(), OutOfMemory> {
    if bytes.is_empty() {
        return out.extend(b"-");
    }
    push_hex(alloc, out, bytes)
}

/// Adds the bytes of a name on the wire.
pub fn push_wire(alloc: Global, out: &mut List<u8>, name: &Name) -> Result<(), OutOfMemory> {
    let mut room = [0; 255];
    match name.write_wire(&mut room, 0) {
        Ok(after) => push_hex(alloc, out, &room[..after]),
        Err(_) => out.extend(b"no room"),
    }
}

/// Adds a label and whether it holds.
pub fn push_truth(out: &mut List<u8>, label: &[u8], holds: bool) -> Result<(), OutOfMemory> {
    out.extend(label)?;
    out.extend(if holds { b"yes" } else { b"no" })
}

/// Adds the sign of an order.
pub fn push_sign(out: &mut List<u8>, order: Ordering) -> Result<(), OutOfMemory> {
    out.extend(match order {
        Ordering::Less => b"<",
        Ordering::Equal => b"=",
        Ordering::Greater => b">",
    })
}

/// What is said of a line that isn't one of these calls.
pub fn bad_line(out: &mut List<u8>) -> Result<(), OutOfMemory> {
    out.extend(b"bad line")
}
