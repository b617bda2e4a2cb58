//! The program: what it reads and writes is the standard streams.
#![tactic(auto)]

mod batch;
mod fault;

use batch::batch;
use dn_io::{Failed, Status, StdSink, StdSource};
use fault::Fault;
use std::alloc::Global;
use std::process::ExitCode;
use std::rt::Env;
use std::{env, io};

const HELP: &str = "\
Replays an incident of DNS servers whose zones are directory nodes, and shows and packs the values that they store.

usage: dnsdir replay < SCRIPT
       dnsdir show < BYTES
       dnsdir pack < VALUES
       dnsdir --help
       dnsdir --version

replay   reads a script from standard input and writes its transcript to standard output
show     reads records and properties as hex digits, and writes each as text, or what is wrong with it first
pack     reads such text, and writes records and properties as hex digits

A script, and what it prints:

    replica dc1 000102030405060708090a0b0c0d0e0f dc1.corp.example
    zone create dc1 corp.example hostmaster.corp.example
    admin dc1 corp.example add printer.corp.example 3600 A 10.0.0.9

    ok 1

A line for `show`, and what it prints:

    record 0400010005f000000700000000000e1000000000010000000a000001

    record A ttl=3600 hour=1 rank=240 flags=0 serial=7 reserved=0 10.0.0.1

A line for `pack`, and what it prints:

    property AGING_STATE name_length=4 flag=0 content=01000000 tail=00

    property 04000000040000000000000001000000400000000100000000

The page docs/SCRIPT.md of the sources has all lines, what each prints, and when it isn't valid.

The status is 0 where each line was valid, 1 at the first line that isn't, 2 for other words, 3 where a read failed,
4 where a write failed, 5 where memory ran out, and 6 where a line has more than 200,000 bytes or reaches past byte 2^30.
A sentence on standard error says so where it isn't 0.
";

const VERSION: &str = "dnsdir 0.1.0\n";

const USAGE: &str = "usage: dnsdir replay|show|pack < INPUT (dnsdir --help says more)\n";

// Why there are no words: one of them isn't UTF-8, or memory ran out.
fn status_of(error: &io::Error) -> Status {
    if error.kind() == io::ErrorKind::OutOfMemory {
        Status::OutOfMemory
    } else {
        Status::Usage
    }
}

// The words of the command line behind the program's name.
fn words_of(rt: &(impl Env + AllocGlobal)) -> io::Result<Vec<String>> {
    let mut words = Vec::new(rt.alloc());
    for word in env::args(rt)?.skip(1) {
        words.push(word)?;
    }
    Ok(words)
}

fn print_text(rt: &impl Print, text: &str) -> Status {
    match rt.print(text) {
        Ok(()) => Status::Done,
        Err(_) => Status::WriteFault,
    }
}

// The status of a run whose output was flushed at last, since a flush that failed is told by the call behind it. The
// runtime's printer holds nothing back and its flush can't fail, so with it the status stays.
fn flushed(status: Status, flush: Result<(), Failed>) -> Status {
    match (status, flush) {
        (Status::Done, Err(_)) => Status::WriteFault,
        (status, _) => status,
    }
}

// Does what the words ask for: help and version by itself, all else over the standard streams.
fn run(rt: &(impl Input + Print), alloc: Global, words: &[String]) -> Status {
    let mut texts = Vec::new(alloc);
    for word in words {
        if texts.push(word.as_str()).is_err() {
            return Status::OutOfMemory;
        }
    }
    match texts.as_slice() {
        [word] if *word == "--help" => print_text(rt, HELP),
        [word] if *word == "--version" => print_text(rt, VERSION),
        words => {
            let mut source = StdSource::of(rt.reader());
            let mut sink = StdSink::of(io::writer(rt));
            let status = batch(alloc, words, &mut source, &mut sink);
            flushed(status, sink.flush())
        }
    }
}

// Says on standard error what the status alone doesn't. Where that fails, the status still tells.
fn explain(rt: &impl Eprint, status: &Status, words: Option<&[String]>) {
    if let Some(fault) = Fault::of(status, words) {
        let _ = rt.eprintln(fault);
    }
    if *status == Status::Usage {
        let _ = rt.eprint(USAGE);
    }
}

fn main(rt: HostRuntime) -> ExitCode {
    let words = words_of(&rt);
    let status = match &words {
        Ok(words) => run(&rt, rt.alloc(), words),
        Err(error) => status_of(error),
    };
    let words = match &words {
        Ok(words) => Some(words.as_slice()),
        Err(_) => None,
    };
    explain(&rt, &status, words);
    ExitCode::from(status.code())
}
