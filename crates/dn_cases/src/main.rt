//! Cases of what the libraries make public: each line is a call with its arguments, and behind ` -> ` its answer. The
//! program prints each line of the input with the answer that it computes, whatever stands there, and comments (`#`) and
//! empty lines as they are: so where all answers are right, the output is the input.
#![tactic(auto)]

mod commands;
mod counted;
mod inputs;
mod names;
mod orders;
mod programs;
mod properties;
mod queries;
mod reading;
mod records;
mod replies;
mod rows;
mod rules;
mod stamps;
mod texts;
mod types;
mod views;
mod words;
mod writers;

use dn_io::{Line, LineBuf, List, OutOfMemory, StdSink, StdSource, read_line, write_all};
use dn_word::is_word;
use reading::parts_of;
use std::alloc::Global;
use std::io;
use std::process::ExitCode;

// What stands before the answer.
fn asked(line: &[u8]) -> &[u8] {
    match line.windows(4).position(|part| is_word(part, b" -> ")) {
        Some(at) => line.split_at_checked(at).map_or(line, |(front, _)| front),
        None => line,
    }
}

// The answer to a call of a topic about values.
fn answer(
    alloc: Global,
    topic: &[u8],
    call: &[u8],
    text: &[u8],
    out: &mut List<u8>,
) -> Result<(), OutOfMemory> {
    if is_word(topic, b"name") {
        names::answer(alloc, call, text, out)
    } else if is_word(topic, b"word") {
        words::answer(alloc, call, text, out)
    } else if is_word(topic, b"input") {
        inputs::answer(alloc, call, text, out)
    } else if is_word(topic, b"text") {
        texts::answer(alloc, call, text, out)
    } else if is_word(topic, b"command") {
        commands::answer(alloc, call, text, out)
    } else if is_word(topic, b"program") {
        programs::answer(alloc, call, text, out)
    } else if is_word(topic, b"data") {
        types::answer(alloc, call, text, out)
    } else {
        answer_of_stored(alloc, topic, call, text, out)
    }
}

// The answer to a call of a topic about stored values and messages.
fn answer_of_stored(
    alloc: Global,
    topic: &[u8],
    call: &[u8],
    text: &[u8],
    out: &mut List<u8>,
) -> Result<(), OutOfMemory> {
    if is_word(topic, b"row") {
        rows::answer(alloc, call, text, out)
    } else if is_word(topic, b"record") {
        records::answer(alloc, call, text, out)
    } else if is_word(topic, b"property") {
        properties::answer(alloc, call, text, out)
    } else if is_word(topic, b"stamp") {
        stamps::answer(alloc, call, text, out)
    } else if is_word(topic, b"query") {
        queries::answer(alloc, call, text, out)
    } else if is_word(topic, b"reply") {
        replies::answer(alloc, call, text, out)
    } else {
        out.extend(b"no such call")
    }
}

// A line with its answer.
fn answered(alloc: Global, line: &[u8]) -> Result<List<u8>, OutOfMemory> {
    let asked = asked(line);
    let (topic, rest) = parts_of(asked);
    let (call, text) = parts_of(rest);
    let mut out = List::from_slice(alloc, asked)?;
    out.extend(b" -> ")?;
    answer(alloc, topic, call, text, &mut out)?;
    out.extend(b"\n")?;
    Ok(out)
}

// What is printed of a line.
fn printed(alloc: Global, line: &[u8]) -> Result<List<u8>, OutOfMemory> {
    match line.first() {
        None | Some(b'#') => {
            let mut out = List::from_slice(alloc, line)?;
            out.extend(b"\n")?;
            Ok(out)
        }
        Some(_) => answered(alloc, line),
    }
}

// Answers each line of the input.
fn run(rt: &(impl Input + Print), alloc: Global) -> Option<()> {
    let mut source = StdSource::of(rt.reader());
    let mut sink = StdSink::of(io::writer(rt));
    let mut lines = LineBuf::new(alloc).ok()?;
    for _ in 0..u64::MAX {
        let Ok(Line::Text(line)) = read_line(alloc, &mut source, &mut lines) else {
            return sink.flush().ok();
        };
        let out = printed(alloc, line.as_slice()).ok()?;
        write_all(&mut sink, out.as_slice()).ok()?;
    }
    None
}

fn main(rt: HostRuntime) -> ExitCode {
    let alloc = rt.alloc();
    match run(&rt, alloc) {
        Some(()) => ExitCode::SUCCESS,
        None => ExitCode::FAILURE,
    }
}
