use crate::fixtures::{check_bytes, fails_at, list_of};
use dn_io::{
    Failed, Line, LineBuf, LineError, List, MemSink, MemSource, Sink, Source, StdSink, StdSource,
    SureSink, read_line, write_all,
};
use std::alloc::Global;
use std::io::{self, ErrorKind, Read, Write};
use std::process::Abort;

/// What four reads of a line answer: a text with a bar behind it, `.` at the end, `r` or `t` for an error.
fn shown<S: Source>(rt: &impl Abort, alloc: Global, source: &mut S) -> List<u8> {
    let mut shown = List::new(alloc);
    let mut lines = LineBuf::new(alloc).expect(rt, "memory");
    for _ in 0..4 {
        match read_line(alloc, source, &mut lines) {
            Ok(Line::Text(text)) => {
                shown.extend(text.as_slice()).expect(rt, "memory");
                shown.push(b'|').expect(rt, "memory");
            }
            Ok(Line::End) => shown.push(b'.').expect(rt, "memory"),
            Err(LineError::ReadFault) => shown.push(b'r').expect(rt, "memory"),
            Err(LineError::TooLong) => shown.push(b't').expect(rt, "memory"),
            Err(LineError::OutOfMemory) => panic!(rt; "memory"),
        }
    }
    shown
}

/// What four reads of a line of a source answer.
fn check_lines<S: Source>(rt: &impl Abort, alloc: Global, source: &mut S, want: &str) {
    let found = shown(rt, alloc, source);
    check_bytes(rt, found.as_slice(), want.as_bytes(), want);
}

/// The lines of an input whose read of this number fails.
fn check_fault(rt: &impl Abort, alloc: Global, call: u64, want: &str) {
    let bytes = list_of(rt, alloc, b"a\nb");
    let mut source = MemSource::of(bytes, fails_at(rt, alloc, call));
    check_lines(rt, alloc, &mut source, want);
}

// The reads after the fault would succeed, and are not made.
#[test]
fn a_read_fault_stays(rt: HostRuntime) {
    for (call, want) in [(0, "rrrr"), (1, "a|rrr"), (2, "a|b|rr")] {
        check_fault(&rt, rt.alloc(), call, want);
    }
    check_lines(&rt, rt.alloc(), &mut StdSource::of(Broken), "rrrr");
}

/// What a piece's writing answers, and what is written then.
fn check_piece(
    rt: &impl Abort,
    sink: &mut MemSink,
    piece: &str,
    want: Result<(), Failed>,
    written: &str,
) {
    let ended = write_all(sink, piece.as_bytes());
    assert_eq!(rt; ended, want, "of {piece:?}");
    check_bytes(rt, sink.written(), written.as_bytes(), piece);
}

// The sink fails at its second write, and an empty piece makes none.
#[test]
fn pieces_are_written_whole(rt: HostRuntime) {
    let mut sink = MemSink::of(fails_at(&rt, rt.alloc(), 1));
    check_piece(&rt, &mut sink, "ab", Ok(()), "ab");
    check_piece(&rt, &mut sink, "cd", Err(Failed), "ab");
    check_piece(&rt, &mut sink, "", Ok(()), "ab");
    check_piece(&rt, &mut sink, "ef", Ok(()), "abef");
}

#[test]
fn a_sink_that_never_fails(rt: HostRuntime) {
    assert_eq!(rt; write_all(&mut SureSink::of(), b"ab"), Ok(()));
    assert_eq!(rt; SureSink::of().write(b"ab"), Ok(2));
}

#[test]
fn a_list_of_std_takes_a_piece(rt: HostRuntime) {
    let mut vec = Vec::new(rt.alloc());
    assert_eq!(rt; write_all(&mut StdSink::of(&mut vec), b"ab"), Ok(()));
    check_bytes(&rt, vec.as_slice(), b"ab", "the list");
}

#[test]
fn a_writer_with_too_little_room_takes_a_front(rt: HostRuntime) {
    let mut room = [0; 3];
    assert_eq!(rt;
        write_all(&mut StdSink::of(&mut room[..]), b"abcd"),
        Err(Failed)
    );
    check_bytes(&rt, &room, b"abc", "the room");
}

// The writer takes the bytes, so what fails is the call behind.
#[test]
fn a_writer_that_cannot_flush(rt: HostRuntime) {
    let mut sink = StdSink::of(Broken);
    assert_eq!(rt; write_all(&mut sink, b"ab"), Ok(()));
    assert_eq!(rt; write_all(&mut sink, b"c"), Err(Failed));
    assert_eq!(rt; sink.flush(), Err(Failed));
}

#[test]
fn a_piece_that_is_taken_in_parts(rt: HostRuntime) {
    let mut parts = Parts {
        taken: Vec::new(rt.alloc()),
    };
    let ended = write_all(&mut StdSink::of(&mut parts), b"abcdefgh");
    assert_eq!(rt; ended, Ok(()));
    check_bytes(&rt, parts.taken.as_slice(), b"abcdefgh", "the parts");
}

/// A writer that takes at most three bytes a call.
#[derive(Drop)]
struct Parts {
    taken: Vec<u8>,
}

impl Write for Parts {
    fn write(&mut self, bytes: &[u8]) -> io::Result<usize> {
        self.taken.write(&bytes[..bytes.len().min(3)])
    }

    fn flush(&mut self) -> io::Result<()> {
        Ok(())
    }
}

/// A stream of which each read, and each flush, fails.
#[derive(Drop)]
struct Broken;

impl Read for Broken {
    fn read(&mut self, _buf: &mut [u8]) -> io::Result<usize> {
        Err(io::Error::from(ErrorKind::Other))
    }
}

impl Write for Broken {
    fn write(&mut self, bytes: &[u8]) -> io::Result<usize> {
        Ok(bytes.len())
    }

    fn flush(&mut self) -> io::Result<()> {
        Err(io::Error::from(ErrorKind::Other))
    }
}
