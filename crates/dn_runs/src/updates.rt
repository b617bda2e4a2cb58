//! What a record that is added makes of a node, and what a write comes to.

use crate::reading::{bad_line, moment_of};
use crate::shown::{push_rows, push_stamp};
use crate::values::{OWN, key_of, rows_of, value_of};
use dn_io::{List, OutOfMemory};
use dn_rdata::Record;
use dn_store::{Table, Write, rows_in};
use dn_update::{Limit, Plan, plan_value, with_added};
use dn_word::{is_word, push_count, words_of};
use std::alloc::Global;

// The records of a node after one is added.
fn added(
    alloc: Global,
    row: Record,
    rows: &[Record],
    out: &mut List<u8>,
) -> Result<(), OutOfMemory> {
    match with_added(alloc, row, rows)? {
        Some(after) => push_rows(alloc, after.as_slice(), out),
        None => out.extend(b"same"),
    }
}

// The last of several records added to the others.
fn add(alloc: Global, words: &[&[u8]], out: &mut List<u8>) -> Result<(), OutOfMemory> {
    let Some((row, others)) = words.split_first() else {
        return bad_line(out);
    };
    match (crate::values::row_of(alloc, row), rows_of(alloc, others)) {
        (Some(row), Some(rows)) => added(alloc, row, rows.as_slice(), out),
        _ => bad_line(out),
    }
}

fn push_limit(limit: Limit, out: &mut List<u8>) -> Result<(), OutOfMemory> {
    match limit {
        Limit::NodeSize => out.extend(b"limit NodeSize"),
        Limit::Version => out.extend(b"limit Version"),
        Limit::Changes => out.extend(b"limit Changes"),
    }
}

// Adds a write's stamp and how many bytes of data its records have.
fn push_write(alloc: Global, write: &Write, out: &mut List<u8>) -> Result<(), OutOfMemory> {
    out.extend(b"write")?;
    push_stamp(alloc, write.stamp, out)?;
    for row in rows_in(&write.value) {
        push_count(alloc, out, b" data of ", row.rdata.len() as u64)?;
    }
    Ok(())
}

fn push_plan(alloc: Global, plan: Plan, out: &mut List<u8>) -> Result<(), OutOfMemory> {
    match plan {
        Plan::Limit(limit) => push_limit(limit, out),
        Plan::Writes(writes) => {
            for write in writes.as_slice() {
                push_write(alloc, write, out)?;
            }
            Ok(())
        }
    }
}

// What writing a value at a key in second 3600 comes to.
fn plan(
    alloc: Global,
    table: &Table,
    words: &[&[u8]],
    out: &mut List<u8>,
) -> Result<(), OutOfMemory> {
    let (Some((key, value)), Some(moment)) = (words.split_first(), moment_of(b"36000000000")) else {
        return bad_line(out);
    };
    match (key_of(key), value_of(alloc, value)) {
        (Some(key), Some(value)) => {
            push_plan(
                alloc,
                plan_value(alloc, table, key, value, moment, OWN)?,
                out,
            )
        }
        _ => bad_line(out),
    }
}

/// The answer to a call.
pub fn answer(
    alloc: Global,
    table: &Table,
    call: &[u8],
    text: &[u8],
    out: &mut List<u8>,
) -> Result<(), OutOfMemory> {
    let words = words_of(alloc, text)?;
    if is_word(call, b"add") {
        add(alloc, words.as_slice(), out)
    } else {
        plan(alloc, table, words.as_slice(), out)
    }
}
