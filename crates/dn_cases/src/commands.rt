//! Commands of administration by their words, and the lines of what a zone answers.

use crate::reading::{bad_line, number32};
use dn_admin::{answer_line, command_of};
use dn_io::{List, OutOfMemory};
use dn_text::row_line;
use dn_update::Limit;
use dn_word::{TextError, is_word, number_within, push_count, words_of};
use dn_zone::{AdminCmd, AdminDone, Answer};
use std::alloc::Global;

// A command as its last words, an interval with its name, and an addition as `add HOUR` and the line of its row.
fn push_command(alloc: Global, cmd: &AdminCmd, out: &mut List<u8>) -> Result<(), OutOfMemory> {
    match cmd {
        AdminCmd::AgingOn => out.extend(b"on"),
        AdminCmd::AgingOff => out.extend(b"off"),
        AdminCmd::NoRefresh(hours) => push_count(alloc, out, b"norefresh ", u64::from(*hours)),
        AdminCmd::Refresh(hours) => push_count(alloc, out, b"refresh ", u64::from(*hours)),
        AdminCmd::Add {
            name,
            ttl,
            rtype,
            rdata,
            hour,
        } => {
            push_count(alloc, out, b"add ", u64::from(*hour))?;
            out.extend(b" ")?;
            let line = row_line(alloc, name, *ttl, *rtype, rdata.as_slice())?;
            out.extend(line.as_slice())
        }
    }
}

// The command that a line is.
fn command(alloc: Global, text: &[u8], out: &mut List<u8>) -> Result<(), OutOfMemory> {
    match command_of(alloc, text) {
        Ok(cmd) => push_command(alloc, &cmd, out),
        Err(TextError::BadText) => out.extend(b"BadText"),
        Err(TextError::OutOfMemory) => Err(OutOfMemory),
    }
}

// The answer of one word.
fn plain_answer(word: &[u8]) -> Option<Answer> {
    if is_word(word, b"unchanged") {
        Some(Answer::Admin(AdminDone::Unchanged))
    } else if is_word(word, b"not-in-zone") {
        Some(Answer::Admin(AdminDone::NotInZone))
    } else if is_word(word, b"begun") {
        Some(Answer::Begun)
    } else if is_word(word, b"not-due") {
        Some(Answer::NotDue)
    } else if is_word(word, b"moved") {
        Some(Answer::Moved)
    } else if is_word(word, b"idle") {
        Some(Answer::Idle)
    } else {
        limit_answer(word)
    }
}

// The refusal for a limit.
fn limit_answer(word: &[u8]) -> Option<Answer> {
    if is_word(word, b"size") {
        Some(Answer::Refused(Limit::NodeSize))
    } else if is_word(word, b"version") {
        Some(Answer::Refused(Limit::Version))
    } else if is_word(word, b"changes") {
        Some(Answer::Refused(Limit::Changes))
    } else {
        None
    }
}

// The answer of a word and a number.
fn counted_answer(word: &[u8], number: &[u8]) -> Option<Answer> {
    let units = number_within(u64::MAX, number)?;
    if is_word(word, b"written") {
        Some(Answer::Admin(AdminDone::Written { units }))
    } else if is_word(word, b"void") {
        Some(Answer::Void { props_usn: units })
    } else if is_word(word, b"busy") {
        number32(number).map(|hour| Answer::Busy { hour })
    } else {
        number32(number).map(|won| Answer::Merged { won })
    }
}

// The answer of changes behind a gap.
fn gap_answer(cursor: &[u8], from: &[u8]) -> Option<Answer> {
    Some(Answer::Gap {
        cursor: number_within(u64::MAX, cursor)?,
        from: number_within(u64::MAX, from)?,
    })
}

// The answer of a pass that is over.
fn finished(numbers: [u64; 6]) -> Answer {
    Answer::Finished {
        start: numbers[0],
        end: numbers[1],
        removed: numbers[2],
        entombed: numbers[3],
        deleted: numbers[4],
        skipped: numbers[5],
    }
}

fn finished_answer(words: &[&[u8]]) -> Option<Answer> {
    let mut numbers = [0; 6];
    for (number, word) in numbers.iter_mut().zip(words.iter()) {
        *number = number_within(u64::MAX, word)?;
    }
    Some(finished(numbers))
}

// The answer that words are.
fn answer_of(words: &[&[u8]]) -> Option<Answer> {
    match words {
        [word] => plain_answer(word),
        [word, number] => counted_answer(word, number),
        [_, cursor, from] => gap_answer(cursor, from),
        numbers => finished_answer(numbers),
    }
}

// The line of the answer that words are.
fn line(alloc: Global, text: &[u8], out: &mut List<u8>) -> Result<(), OutOfMemory> {
    let words = words_of(alloc, text)?;
    let Some(answer) = answer_of(words.as_slice()) else {
        return bad_line(out);
    };
    let line = answer_line(alloc, answer)?;
    match line.as_slice().strip_suffix(b"\n") {
        Some(text) => out.extend(text),
        None => out.extend(b"no line"),
    }
}

/// The answer to a call.
pub fn answer(
    alloc: Global,
    call: &[u8],
    text: &[u8],
    out: &mut List<u8>,
) -> Result<(), OutOfMemory> {
    if is_word(call, b"of") {
        command(alloc, text, out)
    } else if is_word(call, b"answer") {
        line(alloc, text, out)
    } else {
        bad_line(out)
    }
}
