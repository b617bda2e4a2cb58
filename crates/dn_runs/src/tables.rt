//! A table of units, and values that may stand in one.

use crate::reading::{bad_line, number32, place_of, push_truth};
use crate::shown::{push_properties, push_unit, push_write};
use crate::values::{key_of, row_of, stamp, value_of};
use dn_io::{Duplicate, List, OutOfMemory};
use dn_rdata::Record;
use dn_store::{
    Table, Unit, UnitKey, UnitValue, Write, fits, properties_of, props_number, rows_at, rows_in,
    unit_ok, value_len,
};
use dn_word::{is_word, name_of, number_within, push_count, words_of};
use std::alloc::Global;

// How many units a table has, and its greatest number.
fn counts(alloc: Global, table: &Table, out: &mut List<u8>) -> Result<(), OutOfMemory> {
    push_count(alloc, out, b"units ", table.count() as u64)?;
    push_count(alloc, out, b" top ", table.top())
}

fn number(found: Option<&Unit>) -> u64 {
    match found {
        Some(unit) => unit.usn,
        None => 0,
    }
}

// The table after one write; none where it doesn't fit.
fn after(alloc: Global, table: &Table, write: Write) -> Result<Option<Table>, OutOfMemory> {
    if table.top() > 1_000_000 || !fits(&write.value) {
        return Ok(None);
    }
    let mut batch = List::new(alloc);
    batch.push(write)?;
    Ok(Some(table.put(&batch)?))
}

// Puts a write into the table.
fn put(
    alloc: Global,
    table: &mut Table,
    write: Write,
    out: &mut List<u8>,
) -> Result<(), OutOfMemory> {
    match after(alloc, table, write)? {
        Some(new) => {
            *table = new;
            counts(alloc, table, out)
        }
        None => out.extend(b"does not fit"),
    }
}

// The write of the words `KEY VERSION VALUE`.
fn write_of(alloc: Global, words: &[&[u8]]) -> Option<Write> {
    let (key, rest) = words.split_first()?;
    let (version, value) = rest.split_first()?;
    Some(Write {
        key: key_of(key)?,
        stamp: stamp(number32(version)?),
        value: value_of(alloc, value)?,
    })
}

// Writes a node with a record behind those that it has.
fn add(
    alloc: Global,
    table: &mut Table,
    key: UnitKey,
    row: Record,
    out: &mut List<u8>,
) -> Result<(), OutOfMemory> {
    let mut rows = List::from_slice(alloc, rows_at(table, &key))?;
    rows.push(row)?;
    let write = Write {
        key,
        stamp: stamp(1),
        value: UnitValue::Live(rows),
    };
    put(alloc, table, write, out)
}

// The unit at a key, how many records it has, and the number of the unit behind the key.
fn find(
    alloc: Global,
    table: &Table,
    key: &UnitKey,
    out: &mut List<u8>,
) -> Result<(), OutOfMemory> {
    match table.find(key) {
        Some(unit) => push_unit(alloc, unit, out)?,
        None => out.extend(b"none")?,
    }
    push_count(alloc, out, b", records ", rows_at(table, key).len() as u64)?;
    push_count(alloc, out, b", next ", number(table.next_after(Some(key))))
}

// A copy of the unit at a key.
fn copy(
    alloc: Global,
    table: &Table,
    key: &UnitKey,
    out: &mut List<u8>,
) -> Result<(), OutOfMemory> {
    match table.find(key) {
        Some(unit) => push_unit(alloc, &unit.copy(alloc)?, out),
        None => out.extend(b"none"),
    }
}

// The number of the properties' unit, and the properties.
fn properties(alloc: Global, table: &Table, out: &mut List<u8>) -> Result<(), OutOfMemory> {
    push_count(alloc, out, b"number ", props_number(table))?;
    push_properties(alloc, properties_of(table), out)
}

// The numbers of the units behind a number that find room, and the end of the run.
fn changes(
    alloc: Global,
    table: &Table,
    usn: u64,
    room: usize,
    out: &mut List<u8>,
) -> Result<(), OutOfMemory> {
    if usn > table.top() || room < 61_000 {
        return bad_line(out);
    }
    let run = table.changes_after(usn, room)?;
    for unit in run.units.as_slice() {
        push_count(alloc, out, b"", unit.usn)?;
        out.extend(b" ")?;
    }
    push_count(alloc, out, b"to ", run.to)
}

fn of_key(
    alloc: Global,
    table: &Table,
    call: &[u8],
    word: &[u8],
    out: &mut List<u8>,
) -> Result<(), OutOfMemory> {
    match key_of(word) {
        Some(key) if is_word(call, b"find") => find(alloc, table, &key, out),
        Some(key) => copy(alloc, table, &key, out),
        None => bad_line(out),
    }
}

fn of_number(table: &Table, word: &[u8], out: &mut List<u8>) -> Result<(), OutOfMemory> {
    match place_of(word) {
        Some(writes) => push_truth(out, b"", table.is_full_for(writes)),
        None => bad_line(out),
    }
}

fn of_table(
    alloc: Global,
    table: &Table,
    call: &[u8],
    words: &[&[u8]],
    out: &mut List<u8>,
) -> Result<(), OutOfMemory> {
    match words {
        [] if is_word(call, b"properties") => properties(alloc, table, out),
        [] if is_word(call, b"first") => push_count(
            alloc,
            out,
            b"",
            number(table.next_after(None)),
        ),
        [] => counts(alloc, table, out),
        [word] if is_word(call, b"full") => of_number(table, word, out),
        [word] => of_key(alloc, table, call, word, out),
        [usn, room] => match (number_within(u64::MAX, usn), place_of(room)) {
            (Some(usn), Some(room)) => changes(alloc, table, usn, room, out),
            _ => bad_line(out),
        },
        _ => bad_line(out),
    }
}

fn put_words(
    alloc: Global,
    table: &mut Table,
    call: &[u8],
    words: &[&[u8]],
    out: &mut List<u8>,
) -> Result<(), OutOfMemory> {
    let Some(write) = write_of(alloc, words) else {
        return bad_line(out);
    };
    if is_word(call, b"write-copy") {
        return push_write(alloc, &write.copy(alloc)?, out);
    }
    put(alloc, table, write, out)
}

fn add_words(
    alloc: Global,
    table: &mut Table,
    words: &[&[u8]],
    out: &mut List<u8>,
) -> Result<(), OutOfMemory> {
    match words {
        [key, row] => match (key_of(key), row_of(alloc, row)) {
            (Some(key), Some(row)) => add(alloc, table, key, row, out),
            _ => bad_line(out),
        },
        _ => bad_line(out),
    }
}

/// The answer to a call on the table.
pub fn answer(
    alloc: Global,
    table: &mut Table,
    call: &[u8],
    text: &[u8],
    out: &mut List<u8>,
) -> Result<(), OutOfMemory> {
    let words = words_of(alloc, text)?;
    if is_word(call, b"new") {
        *table = Table::empty(alloc)?;
        counts(alloc, table, out)
    } else if is_word(call, b"put") || is_word(call, b"write-copy") {
        put_words(alloc, table, call, words.as_slice(), out)
    } else if is_word(call, b"add") {
        add_words(alloc, table, words.as_slice(), out)
    } else {
        of_table(alloc, table, call, words.as_slice(), out)
    }
}

// How long a value and its copy are, whether it fits, and how many records are in it.
fn length(alloc: Global, value: &UnitValue, out: &mut List<u8>) -> Result<(), OutOfMemory> {
    push_count(alloc, out, b"length ", value_len(value) as u64)?;
    let copy = value.copy(alloc)?;
    push_count(alloc, out, b" copy ", value_len(&copy) as u64)?;
    push_truth(out, b" fits ", fits(value))?;
    push_count(alloc, out, b" records ", rows_in(value).len() as u64)
}

// Whether a value may stand at a key of the zone `x`.
fn stands(alloc: Global, words: &[&[u8]], out: &mut List<u8>) -> Result<(), OutOfMemory> {
    let (Some((key, value)), Some(apex)) = (words.split_first(), name_of(b"x")) else {
        return bad_line(out);
    };
    match (key_of(key), value_of(alloc, value)) {
        (Some(key), Some(value)) => push_truth(out, b"", unit_ok(&apex, &key, &value)),
        _ => bad_line(out),
    }
}

/// The answer to a call on a value.
pub fn of_value(
    alloc: Global,
    call: &[u8],
    text: &[u8],
    out: &mut List<u8>,
) -> Result<(), OutOfMemory> {
    let words = words_of(alloc, text)?;
    if is_word(call, b"stands") {
        return stands(alloc, words.as_slice(), out);
    }
    match value_of(alloc, words.as_slice()) {
        Some(value) if is_word(call, b"length") => length(alloc, &value, out),
        Some(value) => push_truth(out, b"", fits(&value)),
        None => bad_line(out),
    }
}
