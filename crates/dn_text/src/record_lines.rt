ghost use Rattle.std.specs.Prelude.{◌≡◌, ◌++◌, None, Some, IfOk, MatchOption, OnOk};
ghost use Rattle.dn_rdata.specs.Layout.{IsData};
ghost use Rattle.dn_text.specs.RecordLines.{head_of, marks_of, numbers_text, record_of_text, record_text, record_with, stored_type_of, stored_type_text, times_of, typed_of};
ghost use Rattle.dn_word.specs.Reading.{Reads};

use crate::labelled::{number_behind, word_behind};
use crate::read_data::read_rdata;
use crate::row::push_data;
use crate::types::{push_type, type_of};
use dn_io::{List, OutOfMemory};
use dn_rdata::Record;
use dn_word::{TextError, is_word, push_count};
use std::alloc::Global;

// Prints the type of a stored record, of which a tombstone has number 0.
#[tactic(auto, unfolding(crate::specs::RecordLines::stored_type_text))]
fn push_stored_type(alloc: Global, out: &mut List<u8>, rtype: u16) -> Result<(), OutOfMemory>
    ensures { OnOk result (out.new ≡ out.old ++ stored_type_text rtype) }
{
    if rtype == 0 {
        out.extend(b"TOMBSTONE")
    } else {
        push_type(alloc, out, rtype)
    }
}

// Prints the numbers of a record, each behind its label.
#[tactic(auto, unfolding(crate::specs::RecordLines::numbers_text))]
fn push_numbers(alloc: Global, out: &mut List<u8>, item: &Record) -> Result<(), OutOfMemory>
    ensures { OnOk result (out.new ≡ out.old ++ numbers_text item.now) }
{
    push_count(alloc, out, b" ttl=", u64::from(item.ttl))?;
    push_count(alloc, out, b" hour=", u64::from(item.hour))?;
    push_count(alloc, out, b" rank=", u64::from(item.rank))?;
    push_count(alloc, out, b" flags=", u64::from(item.flags))?;
    push_count(alloc, out, b" serial=", u64::from(item.serial))?;
    push_count(alloc, out, b" reserved=", u64::from(item.reserved))
}

/// The line of a stored record: `record TYPE ttl=N hour=N rank=N flags=N serial=N reserved=N DATA`, with the type and the data as in a
/// row, and a tombstone's type as `TOMBSTONE`.
///
/// # Errors
/// `OutOfMemory`.
#[tactic(auto, unfolding(crate::specs::RecordLines::record_text))]
pub fn record_line(alloc: Global, item: &Record) -> Result<List<u8>, OutOfMemory>
    ensures { IfOk result (λ line. line ≡ record_text item.now) }
{
    let mut line = List::new(alloc);
    line.extend(b"record ")?;
    push_stored_type(alloc, &mut line, item.rtype)?;
    push_numbers(alloc, &mut line, item)?;
    line.extend(b" ")?;
    push_data(alloc, &mut line, item.rtype, item.rdata.as_slice())?;
    Ok(line)
}

// The type of a stored record that a word stands for.
#[tactic(auto, unfolding(crate::specs::RecordLines::stored_type_of))]
fn stored_type_of(word: &[u8]) -> Option<u16>
    ensures { result ≡ stored_type_of word.now }
{
    if is_word(word, b"TOMBSTONE") {
        Some(0)
    } else {
        type_of(word)
    }
}

// The first three numbers of a record's line.
#[derive(Clone, Copy)]
pub(crate) struct Times {
    // The time to live, in seconds.
    pub(crate) ttl: u32,
    // The time stamp in hours since 1601-01-01 00:00 UTC.
    pub(crate) hour: u32,
    pub(crate) rank: u8,
}

// The other three.
#[derive(Clone, Copy)]
pub(crate) struct Marks {
    pub(crate) flags: u16,
    pub(crate) serial: u32,
    pub(crate) reserved: u32,
}

// What a record's line says before its data.
#[derive(Clone, Copy)]
pub(crate) struct Head {
    pub(crate) rtype: u16,
    pub(crate) times: Times,
    pub(crate) marks: Marks,
}

#[tactic(auto, unfolding(crate::specs::RecordLines::times_of))]
fn times_of(text: &[u8]) -> Option<(Times, &[u8])>
    ensures { let there = times_of text.now in
        MatchOption result (there ≡ None) (λ found. there ≡ Some (found.0, found.1.now)) }
{
    let (ttl, rest) = number_behind(b"ttl=", u32::MAX, text)?;
    let (hour, rest) = number_behind(b"hour=", u32::MAX, rest)?;
    let (rank, rest) = number_behind(b"rank=", 255, rest)?;
    Some((
        Times {
            ttl,
            hour,
            rank: rank as u8,
        },
        rest,
    ))
}

#[tactic(auto, unfolding(crate::specs::RecordLines::marks_of))]
fn marks_of(text: &[u8]) -> Option<(Marks, &[u8])>
    ensures { let there = marks_of text.now in
        MatchOption result (there ≡ None) (λ found. there ≡ Some (found.0, found.1.now)) }
{
    let (flags, rest) = number_behind(b"flags=", 65535, text)?;
    let (serial, rest) = number_behind(b"serial=", u32::MAX, rest)?;
    let (reserved, rest) = number_behind(b"reserved=", u32::MAX, rest)?;
    Some((
        Marks {
            flags: flags as u16,
            serial,
            reserved,
        },
        rest,
    ))
}

// The type of a record, and what stands behind it.
#[tactic(auto, unfolding(crate::specs::RecordLines::typed_of))]
fn typed_of(line: &[u8]) -> Option<(u16, &[u8])>
    ensures { let there = typed_of line.now in
        MatchOption result (there ≡ None) (λ found. there ≡ Some (found.0, found.1.now)) }
{
    let (word, rest) = word_behind(b"record ", line)?;
    let rtype = stored_type_of(word)?;
    Some((rtype, rest))
}

// What a record's line says before its data, and what stands behind that.
#[tactic(auto, unfolding(crate::specs::RecordLines::head_of))]
fn head_of(line: &[u8]) -> Option<(Head, &[u8])>
    ensures { let there = head_of line.now in
        MatchOption result (there ≡ None) (λ found. there ≡ Some (found.0, found.1.now)) }
{
    let (rtype, rest) = typed_of(line)?;
    let (times, rest) = times_of(rest)?;
    let (marks, rest) = marks_of(rest)?;
    Some((
        Head {
            rtype,
            times,
            marks,
        },
        rest,
    ))
}

// The record with these data.
fn record_with(head: Head, rdata: List<u8>) -> Record
    ensures { result ≡ record_with head rdata }
{
    Record {
        rtype: head.rtype,
        rank: head.times.rank,
        flags: head.marks.flags,
        serial: head.marks.serial,
        ttl: head.times.ttl,
        reserved: head.marks.reserved,
        hour: head.times.hour,
        rdata,
    }
}

/// The record that a line is, in exactly the form that [`record_line`] prints, with one space between each two words.
///
/// # Errors
/// `BadText` exactly where the line isn't that, `OutOfMemory`.
#[tactic(auto, unfolding(crate::specs::RecordLines::record_of_text))]
pub fn read_record_line(alloc: Global, line: &[u8]) -> Result<Record, TextError>
    ensures reads { Reads result (record_of_text line.now) }
    ensures valid { IfOk result (λ item. IsData item.rtype item.rdata) }
{
    match head_of(line) {
        Some((head, rest)) => {
            let rdata = read_rdata(alloc, head.rtype, rest)?;
            Ok(record_with(head, rdata))
        }
        None => Err(TextError::BadText),
    }
}
