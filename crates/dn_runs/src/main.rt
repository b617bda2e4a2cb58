//! Cases of tables, passes, zones, worlds and whole scripts.
//!
//! A line is a call with its arguments and, behind ` -> `, its answer; it acts on what the lines before it left. Behind a
//! line `== replay`, `== show` or `== pack` stands an input of that command, behind `-- prints` what it writes, and behind
//! `-- ends` its status. Behind `== each` each line is a script of its own, up to an empty line. Each script stands behind
//! the lines that `== start` began and `--` ended. The program prints the input with the answers that it computes, so
//! where all are right the output is the input.
#![tactic(auto)]

mod answers;
mod calls;
mod passes;
mod reading;
mod scripts;
mod shown;
mod tables;
mod updates;
mod values;
mod worlds;
mod zones;

use calls::Session;
use dn_io::{Line, LineBuf, List, OutOfMemory, StdSink, StdSource, read_line, write_all};
use dn_word::is_word;
use scripts::Scripts;
use std::alloc::Global;
use std::io;
use std::process::ExitCode;

// What the lines of the input are.
#[derive(Clone, Copy)]
enum Mode {
    Calls,
    Start,
    Input,
    Printed,
    Each,
}

#[derive(Drop)]
struct Progress {
    mode: Mode,
    scripts: Scripts,
    session: Session,
}

// A line as it stands.
fn whole(alloc: Global, line: &[u8]) -> Result<List<u8>, OutOfMemory> {
    let mut out = List::from_slice(alloc, line)?;
    out.extend(b"\n")?;
    Ok(out)
}

// What follows a line that begins with `== `.
fn mode_of(word: &[u8]) -> Mode {
    if is_word(word, b"start") {
        Mode::Start
    } else if is_word(word, b"each") {
        Mode::Each
    } else {
        Mode::Input
    }
}

// A line outside of inputs.
fn call(alloc: Global, run: &mut Progress, line: &[u8]) -> Result<List<u8>, OutOfMemory> {
    match line.strip_prefix(b"== ") {
        Some(word) => {
            run.mode = mode_of(word);
            run.scripts.open(alloc, word)?;
            whole(alloc, line)
        }
        None => calls::printed(alloc, &mut run.session, line),
    }
}

// A line of a start.
fn start(alloc: Global, run: &mut Progress, line: &[u8]) -> Result<List<u8>, OutOfMemory> {
    if is_word(line, b"--") {
        run.mode = Mode::Calls;
    } else {
        run.scripts.push_start(alloc, line)?;
    }
    whole(alloc, line)
}

// A line of an input.
fn input(alloc: Global, run: &mut Progress, line: &[u8]) -> Result<List<u8>, OutOfMemory> {
    if is_word(line, b"-- prints") {
        run.mode = Mode::Printed;
        return run.scripts.output(alloc);
    }
    run.scripts.push_line(alloc, line)?;
    whole(alloc, line)
}

// A line of what is printed, which was computed.
fn printed(alloc: Global, run: &mut Progress, line: &[u8]) -> List<u8> {
    if line.starts_with(b"-- ends ") {
        run.mode = Mode::Calls;
    }
    List::new(alloc)
}

// A line that is a script of its own.
fn each(alloc: Global, run: &mut Progress, line: &[u8]) -> Result<List<u8>, OutOfMemory> {
    if line.is_empty() {
        run.mode = Mode::Calls;
        return whole(alloc, line);
    }
    run.scripts.answered(alloc, line)
}

// What is printed of a line.
fn taken(alloc: Global, run: &mut Progress, line: &[u8]) -> Result<List<u8>, OutOfMemory> {
    match run.mode {
        Mode::Calls => call(alloc, run, line),
        Mode::Start => start(alloc, run, line),
        Mode::Input => input(alloc, run, line),
        Mode::Printed => Ok(printed(alloc, run, line)),
        Mode::Each => each(alloc, run, line),
    }
}

fn opening(alloc: Global) -> Option<Progress> {
    Some(Progress {
        mode: Mode::Calls,
        scripts: Scripts::new(alloc),
        session: Session::new(alloc)?,
    })
}

// Answers each line of the input.
fn run(rt: &(impl Input + Print), alloc: Global) -> Option<()> {
    let mut source = StdSource::of(rt.reader());
    let mut sink = StdSink::of(io::writer(rt));
    let mut lines = LineBuf::new(alloc).ok()?;
    let mut run = opening(alloc)?;
    for _ in 0..u64::MAX {
        let Ok(Line::Text(line)) = read_line(alloc, &mut source, &mut lines) else {
            return sink.flush().ok();
        };
        let out = taken(alloc, &mut run, line.as_slice()).ok()?;
        write_all(&mut sink, out.as_slice()).ok()?;
    }
    None
}

fn main(rt: HostRuntime) -> ExitCode {
    let alloc = rt.alloc();
    match run(&rt, alloc) {
        Some(()) => ExitCode::SUCCESS,
        None => ExitCode::FAILURE,
    }
}
