//! The loop over the lines of an input, for any command that gives an output for each line.

ghost use Rattle.std.specs.Prelude.{◌≡◌, ◌≢◌, ◌+◌, ◌≤◌, None, IfOk, IsErrOf, OnOk};
ghost use Rattle.dn_io.specs.Lines.{lines_of};
ghost use Rattle.dn_io.specs.Outside.{Rose, WhereTold};
ghost use Rattle.dn_lines.specs.Said.{EndedFrom, GivesIn};
ghost use Rattle.dn_lines.specs.Said.Turns.{Advanced, Answers, EndedAhead, GivesText, Turns, last_status, status_of};

use crate::bad::Bad;
use dn_io::{Line, LineBuf, LineError, List, Sink, Source, Status, read_line, write_all};
use std::alloc::Global;

/// What a command does with a line. It is changed by each, so it is the state behind the lines so far.
pub trait LineCommand {
    // What must hold before a line.
    ghost ready: { Self → Type 0 };

    // What the text of a line gives.
    ghost gives: { GivesIn Self };

    /// The output of a line by its text.
    ///
    /// # Errors
    /// `Line` exactly where the line isn't valid, `Memory` where memory wasn't to be had.
    fn output(&mut self, alloc: Global, text: &[u8]) -> Result<List<u8>, Bad>
        requires { ready self.old }
        ensures answers { Answers (gives self.old text.now) result self.new }
        ensures stays { OnOk result (ready self.new) };
}

// The status of a run that ends where no line could be read.
fn status_of(error: LineError) -> Status
    ensures { result ≡ status_of error }
{
    match error {
        LineError::ReadFault => Status::ReadFault,
        LineError::TooLong => Status::TooLong,
        LineError::OutOfMemory => Status::OutOfMemory,
    }
}

// Writes the output of the text of a line.
fn run_text<C: LineCommand, K: Sink>(
    alloc: Global,
    number: u64,
    text: &[u8],
    command: &mut C,
    sink: &mut K,
) -> Result<(), Status>
    requires { C.ready command.old }
    ensures runs { GivesText result number (C.gives command.old text.now) command.new (K.written sink.old) (K.written sink.new) }
    ensures stays { OnOk result (C.ready command.new) }
    ensures write { IsErrOf result Status.WriteFault → Rose (K.faults sink.old) (K.faults sink.new) }
    ensures later { K.faults sink.old ≤ K.faults sink.new }
{
    match command.output(alloc, text) {
        Ok(output) => match write_all(sink, output.as_slice()) {
            Ok(()) => Ok(()),
            Err(_) => Err(Status::WriteFault),
        },
        Err(Bad::Line) => Err(Status::BadLine(number)),
        Err(Bad::Memory) => Err(Status::OutOfMemory),
    }
}

// Reads the next line and writes its output; `false` at the end of the input.
fn turn<C: LineCommand, S: Source, K: Sink>(
    alloc: Global,
    number: u64,
    source: &mut S,
    lines: &mut LineBuf,
    command: &mut C,
    sink: &mut K,
) -> Result<bool, Status>
    requires kept { lines.old.kept ≡ None }
    requires ready { C.ready command.old }
    ensures turns { WhereTold (S.left source.old) (S.left source.new) (λ before now.
        Turns result (EndedAhead C.gives command.old number lines.old before) (EndedAhead C.gives command.new (number + 1) lines.new now)
        now (K.written sink.old) (K.written sink.new)) }
    ensures stays { OnOk result (C.ready command.new) }
    ensures advances { IfOk result (λ more. Advanced more lines.old lines.new) }
    ensures read { IsErrOf result Status.ReadFault → Rose (S.faults source.old) (S.faults source.new) }
    ensures write { IsErrOf result Status.WriteFault → Rose (K.faults sink.old) (K.faults sink.new) }
    ensures reads { S.faults source.old ≤ S.faults source.new }
    ensures writes { K.faults sink.old ≤ K.faults sink.new }
    ensures usage { IsErrOf result Status.Usage → ⊥ }
    ensures link { IsErrOf result Status.LinkFault → ⊥ }
{
    match read_line(alloc, source, lines) {
        Ok(Line::Text(text)) => {
            run_text(alloc, number, text.as_slice(), command, sink)?;
            Ok(true)
        }
        Ok(Line::End) => Ok(false),
        Err(error) => Err(status_of(error)),
    }
}

// Does so with each line up to the end of the input.
fn all_lines<C: LineCommand, S: Source, K: Sink>(
    alloc: Global,
    source: &mut S,
    lines: &mut LineBuf,
    command: &mut C,
    sink: &mut K,
) -> Result<(), Status>
    requires kept { lines.old.kept ≡ None }
    requires taken { lines.old.taken ≡ 0 }
    requires ready { C.ready command.old }
    ensures ended { WhereTold (S.left source.old) (S.left source.new) (λ before now.
        EndedAhead C.gives command.old 1 lines.old before (last_status result) now (K.written sink.old) (K.written sink.new)) }
    ensures read { IsErrOf result Status.ReadFault → Rose (S.faults source.old) (S.faults source.new) }
    ensures write { IsErrOf result Status.WriteFault → Rose (K.faults sink.old) (K.faults sink.new) }
    ensures reads { S.faults source.old ≤ S.faults source.new }
    ensures writes { K.faults sink.old ≤ K.faults sink.new }
    ensures usage { IsErrOf result Status.Usage → ⊥ }
    ensures link { IsErrOf result Status.LinkFault → ⊥ }
{
    let mut number = 1u64;
    while turn(alloc, number, source, lines, command, sink)? {
        number += 1;
    }
    Ok(())
}

/// Runs a command over a whole input: reads line after line, writes what each gives, and stops at the first that isn't valid, that is
/// over-long, or at a fault. The status says which.
pub fn run_lines<C: LineCommand, S: Source, K: Sink>(
    alloc: Global,
    command: &mut C,
    source: &mut S,
    sink: &mut K,
) -> Status
    requires { C.ready command.old }
    // Where the source tells, what was written is what its lines give, by how it ended.
    ensures ended { WhereTold (S.left source.old) (S.left source.new) (λ before now.
        EndedFrom C.gives command.old 1 0 (lines_of before) result now (K.written sink.old) (K.written sink.new)) }
    ensures read { result ≡ Status.ReadFault → Rose (S.faults source.old) (S.faults source.new) }
    ensures write { result ≡ Status.WriteFault → Rose (K.faults sink.old) (K.faults sink.new) }
    ensures usage { result ≢ Status.Usage }
    ensures link { result ≢ Status.LinkFault }
    ensures reads { S.faults source.old ≤ S.faults source.new }
    ensures writes { K.faults sink.old ≤ K.faults sink.new }
{
    let Ok(mut lines) = LineBuf::new(alloc) else {
        return Status::OutOfMemory;
    };
    match all_lines(alloc, source, &mut lines, command, sink) {
        Ok(()) => Status::Done,
        Err(status) => status,
    }
}
