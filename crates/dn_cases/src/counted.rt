//! Names with a count, as stored records have them (MS-DNSP 2.2.2.2.2).

use crate::names::push_found;
use crate::reading::bad_line;
use dn_io::{List, OutOfMemory};
use dn_name::Name;
use dn_word::{push_count, push_hex};
use std::alloc::Global;

/// The counted name that stands at a place of bytes.
pub fn counted(
    alloc: Global,
    bytes: &[u8],
    at: usize,
    out: &mut List<u8>,
) -> Result<(), OutOfMemory> {
    if at > bytes.len() {
        return bad_line(out);
    }
    push_found(alloc, Name::read_count(bytes, at), out)
}

/// A name written with its counts at a place into nine bytes of 9: the place behind it, and the bytes.
pub fn written(
    alloc: Global,
    name: &Name,
    at: usize,
    out: &mut List<u8>,
) -> Result<(), OutOfMemory> {
    let mut room = [9; 9];
    match name.write_count(&mut room, at) {
        Ok(after) => push_count(alloc, out, b"to ", after as u64)?,
        Err(_) => out.extend(b"no room")?,
    }
    out.extend(b" ")?;
    push_hex(alloc, out, &room)
}
