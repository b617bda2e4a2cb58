//! Inputs and what is taken of them: lines, moments, and lists of bytes.

use crate::reading::{bad_line, bytes_of, place_of, push_bytes, push_truth};
use dn_io::{
    Duplicate, Line, LineBuf, LineError, List, MemSource, Moment, OutOfMemory, Source, Status,
    StdSource, SureSource, read_line,
};
use dn_word::{is_word, number_within, push_count, words_of};
use std::alloc::Global;

// What a read of a line answers: the text's bytes with a bar behind them, `.` at the end, and a word for an error.
fn push_line(
    alloc: Global,
    line: Result<Line, LineError>,
    out: &mut List<u8>,
) -> Result<(), OutOfMemory> {
    match line {
        Ok(Line::Text(text)) => {
            push_bytes(alloc, out, text.as_slice())?;
            out.extend(b"|")
        }
        Ok(Line::End) => out.extend(b"."),
        Err(LineError::TooLong) => out.extend(b"too long"),
        Err(_) => out.extend(b"fault"),
    }
}

// What four reads of a line answer.
fn lines<S: Source>(alloc: Global, source: &mut S, out: &mut List<u8>) -> Result<(), OutOfMemory> {
    let mut lines = LineBuf::new(alloc)?;
    for _ in 0..4 {
        push_line(alloc, read_line(alloc, source, &mut lines), out)?;
    }
    out.extend(b" ")
}

// The lines of an input in memory, of one that never fails, and of one of std.
fn of_each(alloc: Global, input: &[u8], out: &mut List<u8>) -> Result<(), OutOfMemory> {
    let bytes = List::from_slice(alloc, input)?;
    lines(alloc, &mut MemSource::of(bytes, List::new(alloc)), out)?;
    let bytes = List::from_slice(alloc, input)?;
    lines(alloc, &mut SureSource::of(bytes), out)?;
    lines(alloc, &mut StdSource::of(input), out)?;
    out.extend(b"each")
}

// So many letters, of which neighbours differ, and an end.
fn letters(alloc: Global, count: usize, end: &[u8]) -> Result<List<u8>, OutOfMemory> {
    let mut bytes = List::new(alloc);
    for at in 0..count {
        bytes.push(b'a' + (at % 26) as u8)?;
    }
    bytes.extend(end)?;
    Ok(bytes)
}

// How many bytes the first line has, of so many letters with an end.
fn length(alloc: Global, count: usize, end: &[u8], out: &mut List<u8>) -> Result<(), OutOfMemory> {
    let bytes = letters(alloc, count, end)?;
    let mut lines = LineBuf::new(alloc)?;
    match read_line(alloc, &mut SureSource::of(bytes), &mut lines) {
        Ok(Line::Text(text)) => push_count(alloc, out, b"", text.len() as u64),
        other => push_line(alloc, other, out),
    }
}

// Whether a line of so many letters, which std reads in parts, is read whole.
fn whole(alloc: Global, count: usize, out: &mut List<u8>) -> Result<(), OutOfMemory> {
    let bytes = letters(alloc, count, b"")?;
    let mut lines = LineBuf::new(alloc)?;
    match read_line(alloc, &mut StdSource::of(bytes.as_slice()), &mut lines) {
        Ok(Line::Text(text)) => push_truth(out, b"same ", text.as_slice() == bytes.as_slice()),
        other => push_line(alloc, other, out),
    }
}

// The hour and the second of a moment.
fn moment(alloc: Global, ticks: u64, out: &mut List<u8>) -> Result<(), OutOfMemory> {
    match Moment::of(ticks) {
        Some(moment) => {
            push_count(alloc, out, b"", moment.ticks())?;
            push_count(alloc, out, b" hour ", u64::from(moment.hour()))?;
            push_count(alloc, out, b" second ", moment.seconds())
        }
        None => out.extend(b"none"),
    }
}

// The exit code of each status.
fn codes(alloc: Global, out: &mut List<u8>) -> Result<(), OutOfMemory> {
    let cases: [(Status, &[u8]); 8] = [
        (Status::Done, b"Done "),
        (Status::BadLine(7), b" BadLine "),
        (Status::Usage, b" Usage "),
        (Status::ReadFault, b" ReadFault "),
        (Status::WriteFault, b" WriteFault "),
        (Status::OutOfMemory, b" OutOfMemory "),
        (Status::TooLong, b" TooLong "),
        (Status::LinkFault, b" LinkFault "),
    ];
    for (status, label) in cases {
        push_count(alloc, out, label, u64::from(status.code()))?;
    }
    Ok(())
}

// A list's bytes and how many there are.
fn push_list(alloc: Global, list: &List<u8>, out: &mut List<u8>) -> Result<(), OutOfMemory> {
    push_bytes(alloc, out, list.as_slice())?;
    push_count(alloc, out, b" of ", list.len() as u64)?;
    push_truth(out, b" empty ", list.is_empty())
}

// A list of one list, its copy, and how many items are in it.
fn push_copy(alloc: Global, list: List<u8>, out: &mut List<u8>) -> Result<(), OutOfMemory> {
    let mut outer = List::new(alloc);
    outer.push(list)?;
    let copy = outer.copy(alloc)?;
    for item in copy.as_slice() {
        push_bytes(alloc, out, item.as_slice())?;
    }
    push_count(alloc, out, b" in ", copy.into_vec().len() as u64)
}

// What stands at a place of a list.
fn push_item(list: &List<u8>, at: usize, out: &mut List<u8>) -> Result<(), OutOfMemory> {
    out.extend(b" ")?;
    match list.get(at) {
        Some(byte) => out.push(*byte),
        None => out.extend(b"none"),
    }
}

// A list with others behind it and an `x` set at a place: itself, what stands at the place and behind the last, and a copy.
fn list(
    alloc: Global,
    front: &[u8],
    behind: &[u8],
    at: usize,
    out: &mut List<u8>,
) -> Result<(), OutOfMemory> {
    let mut list = List::from_slice(alloc, front)?;
    list.extend_copies(alloc, behind)?;
    push_list(alloc, &list, out)?;
    push_item(&list, at, out)?;
    push_item(&list, list.len(), out)?;
    if at < list.len() {
        list.set(at, b'x');
    }
    out.extend(b", ")?;
    push_list(alloc, &list, out)?;
    out.extend(b", ")?;
    push_copy(alloc, list, out)
}

fn of_words(
    alloc: Global,
    call: &[u8],
    words: &[&[u8]],
    out: &mut List<u8>,
) -> Result<(), OutOfMemory> {
    match words {
        [] if is_word(call, b"codes") => codes(alloc, out),
        [] => moment(alloc, Moment::first().ticks(), out),
        [word] => of_word(alloc, call, word, out),
        [count, end] => match (place_of(count), bytes_of(alloc, end)) {
            (Some(count), Some(end)) => length(alloc, count, end.as_slice(), out),
            _ => bad_line(out),
        },
        [front, behind, at] => {
            match (
                bytes_of(alloc, front),
                bytes_of(alloc, behind),
                place_of(at),
            ) {
                (Some(front), Some(behind), Some(at)) => {
                    list(alloc, front.as_slice(), behind.as_slice(), at, out)
                }
                _ => bad_line(out),
            }
        }
        _ => bad_line(out),
    }
}

fn of_word(alloc: Global, call: &[u8], word: &[u8], out: &mut List<u8>) -> Result<(), OutOfMemory> {
    if is_word(call, b"lines") {
        return match bytes_of(alloc, word) {
            Some(input) => of_each(alloc, input.as_slice(), out),
            None => bad_line(out),
        };
    }
    match number_within(u64::MAX, word) {
        Some(ticks) if is_word(call, b"moment") => moment(alloc, ticks, out),
        Some(count) => whole(alloc, count as usize, out),
        None => bad_line(out),
    }
}

/// The answer to a call.
pub fn answer(
    alloc: Global,
    call: &[u8],
    text: &[u8],
    out: &mut List<u8>,
) -> Result<(), OutOfMemory> {
    let words = words_of(alloc, text)?;
    of_words(alloc, call, words.as_slice(), out)
}
