//! How each of several values stands to each: a word for each value, a sign in it for each.

use crate::reading::{push_sign, wire_name};
use dn_io::{List, OutOfMemory};
use dn_name::Name;
use dn_rdata::{Record, compare_rows};
use std::alloc::Global;
use std::cmp::Ordering;

/// Adds the word of an order.
pub fn push_order(out: &mut List<u8>, order: Ordering) -> Result<(), OutOfMemory> {
    match order {
        Ordering::Less => out.extend(b"less"),
        Ordering::Equal => out.extend(b"equal"),
        Ordering::Greater => out.extend(b"greater"),
    }
}

fn push_names(left: &Name, names: &[Name], out: &mut List<u8>) -> Result<(), OutOfMemory> {
    for right in names {
        push_sign(out, left.compare(right))?;
    }
    out.extend(b" ")
}

/// How each name stands to each.
pub fn of_names(alloc: Global, words: &[&[u8]], out: &mut List<u8>) -> Result<(), OutOfMemory> {
    let mut names = List::new(alloc);
    for word in words {
        if let Some(name) = wire_name(alloc, word) {
            names.push(name)?;
        }
    }
    for left in names.as_slice() {
        push_names(left, names.as_slice(), out)?;
    }
    out.extend(b".")
}

fn push_rows(left: &Record, rows: &[Record], out: &mut List<u8>) -> Result<(), OutOfMemory> {
    for right in rows {
        push_sign(out, compare_rows(left, right))?;
    }
    out.extend(b" ")
}

/// How each record stands to each.
pub fn of_rows(rows: &[Record], out: &mut List<u8>) -> Result<(), OutOfMemory> {
    for left in rows {
        push_rows(left, rows, out)?;
    }
    out.extend(b".")
}
