//! Inputs of `replay`, `show` and `pack`, from memory and into memory.

use crate::reading::{asked, bytes_of, place_of};
use dn_io::{List, MemSink, MemSource, OutOfMemory, Status};
use dn_script::{pack, replay, show};
use dn_word::{is_word, parts_between, push_number};
use std::alloc::Global;

/// The lines that each script has first, and an input with its command.
#[derive(Drop)]
pub struct Scripts {
    start: List<u8>,
    command: List<u8>,
    lines: List<u8>,
}

// Does what a command asks for.
fn done(alloc: Global, command: &[u8], source: &mut MemSource, sink: &mut MemSink) -> Status {
    if is_word(command, b"show") {
        show(alloc, source, sink)
    } else if is_word(command, b"pack") {
        pack(alloc, source, sink)
    } else {
        replay(alloc, source, sink)
    }
}

// Adds the word of a status.
fn push_status(alloc: Global, status: Status, out: &mut List<u8>) -> Result<(), OutOfMemory> {
    match status {
        Status::Done => out.extend(b"Done"),
        Status::BadLine(number) => {
            out.extend(b"BadLine ")?;
            push_number(alloc, out, number)
        }
        Status::Usage => out.extend(b"Usage"),
        Status::ReadFault => out.extend(b"ReadFault"),
        Status::WriteFault => out.extend(b"WriteFault"),
        Status::OutOfMemory => out.extend(b"OutOfMemory"),
        Status::TooLong => out.extend(b"TooLong"),
        Status::LinkFault => out.extend(b"LinkFault"),
    }
}

// Adds a comment of so many bytes.
fn push_comment(lines: &mut List<u8>, count: usize) -> Result<(), OutOfMemory> {
    for _ in 0..count {
        lines.push(b'#')?;
    }
    lines.extend(b"\n")
}

// Adds a line of an input: `hex:` stands before the digits of bytes with no line end behind them, `-- comment` before the
// length of a comment.
fn push_line(alloc: Global, lines: &mut List<u8>, line: &[u8]) -> Result<(), OutOfMemory> {
    if let Some(digits) = line.strip_prefix(b"hex:") {
        return match bytes_of(alloc, digits) {
            Some(bytes) => lines.extend(bytes.as_slice()),
            None => lines.extend(b"no digits\n"),
        };
    }
    if let Some(count) = line.strip_prefix(b"-- comment ") {
        return push_comment(lines, place_of(count).unwrap_or(0));
    }
    lines.extend(line)?;
    lines.extend(b"\n")
}

// Adds what is printed with a bar behind each line.
fn push_barred(alloc: Global, text: &[u8], out: &mut List<u8>) -> Result<(), OutOfMemory> {
    for line in parts_between(alloc, text, b'\n')? {
        if !line.is_empty() {
            out.extend(line)?;
            out.extend(b" | ")?;
        }
    }
    Ok(())
}

impl Scripts {
    /// No start and no input.
    pub fn new(alloc: Global) -> Scripts {
        Scripts {
            start: List::new(alloc),
            command: List::new(alloc),
            lines: List::new(alloc),
        }
    }

    /// Begins a start, or an input of this command.
    pub fn open(&mut self, alloc: Global, word: &[u8]) -> Result<(), OutOfMemory> {
        if is_word(word, b"start") {
            self.start = List::new(alloc);
            return Ok(());
        }
        self.command = List::from_slice(alloc, word)?;
        self.lines = List::new(alloc);
        Ok(())
    }

    /// A line more of the start.
    pub fn push_start(&mut self, alloc: Global, line: &[u8]) -> Result<(), OutOfMemory> {
        push_line(alloc, &mut self.start, line)
    }

    /// A line more of the input.
    pub fn push_line(&mut self, alloc: Global, line: &[u8]) -> Result<(), OutOfMemory> {
        push_line(alloc, &mut self.lines, line)
    }

    // The bytes of the input; a script stands behind the start.
    fn input(&self, alloc: Global) -> Result<List<u8>, OutOfMemory> {
        let mut bytes = List::new(alloc);
        if !is_word(self.command.as_slice(), b"show")
            && !is_word(self.command.as_slice(), b"pack")
        {
            bytes.extend(self.start.as_slice())?;
        }
        bytes.extend(self.lines.as_slice())?;
        Ok(bytes)
    }

    // What the input gives, and how it ends.
    fn play(&self, alloc: Global) -> Result<(List<u8>, Status), OutOfMemory> {
        let mut source = MemSource::of(self.input(alloc)?, List::new(alloc));
        let mut sink = MemSink::of(List::new(alloc));
        let status = done(alloc, self.command.as_slice(), &mut source, &mut sink);
        Ok((List::from_slice(alloc, sink.written())?, status))
    }

    /// What the input prints, and how it ends.
    pub fn output(&self, alloc: Global) -> Result<List<u8>, OutOfMemory> {
        let (printed, status) = self.play(alloc)?;
        let mut out = List::from_slice(alloc, b"-- prints\n")?;
        out.extend(printed.as_slice())?;
        out.extend(b"-- ends ")?;
        push_status(alloc, status, &mut out)?;
        out.extend(b"\n")?;
        Ok(out)
    }

    /// The line, what a script of it prints, and how it ends.
    pub fn answered(&mut self, alloc: Global, line: &[u8]) -> Result<List<u8>, OutOfMemory> {
        let line = asked(line);
        self.lines = List::new(alloc);
        push_line(alloc, &mut self.lines, line)?;
        let (printed, status) = self.play(alloc)?;
        let mut out = List::from_slice(alloc, line)?;
        out.extend(b" -> ")?;
        push_barred(alloc, printed.as_slice(), &mut out)?;
        push_status(alloc, status, &mut out)?;
        out.extend(b"\n")?;
        Ok(out)
    }
}
