//! Passes of the scavenger over the table.

use crate::reading::{bad_line, moment_of, number32};
use crate::shown::{push_key, push_writes};
use crate::values::OWN;
use dn_io::{List, OutOfMemory};
use dn_pass::{Pass, StepPlan, begin, step};
use dn_store::{Table, UnitKey};
use dn_word::{is_word, push_count, words_of};
use std::alloc::Global;

fn push_after(after: Option<UnitKey>, out: &mut List<u8>) -> Result<(), OutOfMemory> {
    out.extend(b" after ")?;
    match after {
        Some(key) => push_key(&key, out),
        None => out.extend(b"none"),
    }
}

fn push_pass(alloc: Global, pass: &Pass, out: &mut List<u8>) -> Result<(), OutOfMemory> {
    push_count(alloc, out, b"at ", pass.moment.ticks())?;
    push_count(alloc, out, b" start ", pass.start)?;
    push_after(pass.after, out)?;
    push_counts(alloc, pass, out)
}

fn push_counts(alloc: Global, pass: &Pass, out: &mut List<u8>) -> Result<(), OutOfMemory> {
    push_count(alloc, out, b" removed ", pass.removed)?;
    push_count(alloc, out, b" entombed ", pass.entombed)?;
    push_count(alloc, out, b" deleted ", pass.deleted)?;
    push_count(alloc, out, b" skipped ", pass.skipped)
}

// A step of a pass over so many units, whose writes are added: whether the pass is over, which is then told.
fn step_on(
    alloc: Global,
    table: &Table,
    pass: &mut Pass,
    most: u32,
    out: &mut List<u8>,
) -> Result<bool, OutOfMemory> {
    match step(alloc, table, pass, most, OWN)? {
        StepPlan::Void { props_usn } => {
            push_count(alloc, out, b"void ", props_usn)?;
            Ok(true)
        }
        StepPlan::Moved {
            writes,
            pass: after,
        } => {
            push_writes(alloc, writes.as_slice(), out)?;
            *pass = after;
            Ok(false)
        }
        StepPlan::Finished {
            writes,
            pass: after,
        } => {
            push_writes(alloc, writes.as_slice(), out)?;
            push_pass(alloc, &after, out)?;
            Ok(true)
        }
    }
}

// All steps of a pass, and how many there are.
fn steps(
    alloc: Global,
    table: &Table,
    pass: &mut Pass,
    most: u32,
    out: &mut List<u8>,
) -> Result<(), OutOfMemory> {
    for count in 1..100u32 {
        if step_on(alloc, table, pass, most, out)? {
            return push_count(alloc, out, b" steps ", u64::from(count));
        }
    }
    out.extend(b" and more")
}

// A pass begins at a moment, or none does.
fn begun(
    alloc: Global,
    table: &Table,
    pass: &mut Option<Pass>,
    word: &[u8],
    out: &mut List<u8>,
) -> Result<(), OutOfMemory> {
    let Some(moment) = moment_of(word) else {
        return bad_line(out);
    };
    *pass = begin(table, moment);
    match pass {
        Some(pass) => push_pass(alloc, pass, out),
        None => out.extend(b"not due"),
    }
}

/// The answer to a call.
pub fn answer(
    alloc: Global,
    table: &Table,
    pass: &mut Option<Pass>,
    call: &[u8],
    text: &[u8],
    out: &mut List<u8>,
) -> Result<(), OutOfMemory> {
    let words = words_of(alloc, text)?;
    match words.as_slice() {
        [word] if is_word(call, b"begin") => begun(alloc, table, pass, word, out),
        [word] => match (number32(word), pass) {
            (Some(most), Some(pass)) => steps(alloc, table, pass, most, out),
            _ => bad_line(out),
        },
        _ => bad_line(out),
    }
}
