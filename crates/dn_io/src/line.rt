ghost use Rattle.std.specs.Prelude.{◌≡◌, ◌⊎◌, ◌≢◌, ℕ, ◌+◌, ◌<◌, ◌≤◌, ⊤, false, List, [], None, Some, Ok, Err, IfErr, IfOk, MatchOption, drop, length, vec_len, OnOk, OnSome, ◌^◌};
ghost use Rattle.std.specs.Io.KnownBytes.{IsAtEnd};
ghost use Rattle.dn_io.specs.Lines.{Advances, AnswersKept, Held, KeepsError, ReadsLine, read_faults_after, without_return};
ghost use Rattle.dn_io.specs.Outside.{Rose, WhereTold};
ghost use Rattle.dn_io.specs.Reading.{Cuts, EndsWith, FeedAt, FeedFree, Fills, Takes, overlong};

use crate::{List, OutOfMemory, Source};
use std::alloc::Global;
use std::marker::Model;

// The most bytes of a line before its line feed.
pub const MAX_LINE: usize = 200_000;

// The last byte of the input that a line may reach.
pub const MAX_INPUT: u64 = 1 << 30;

// How many bytes one read asks for.
const CHUNK: usize = 4096;

/// What a reader of lines gives.
#[derive(Drop)]
pub enum Line {
    /// A line without its line feed, and without the carriage return before it.
    Text(List<u8>),
    /// The end of the input.
    End,
}

/// Why no line could be read.
#[derive(Clone, Copy, Debug, PartialEq, Eq)]
pub enum LineError {
    /// The source failed.
    ReadFault,
    /// The line has more than 200,000 bytes before its line feed, or reaches, with it, past byte 2^30 of the input.
    TooLong,
    /// Memory wasn't to be had.
    OutOfMemory,
}

/// What was read of an input and not yet given as a line. Contracts see the bytes that it holds, how many bytes of
/// lines were taken through it, and the error that it keeps.
#[derive(Drop)]
pub struct LineBuf {
    chunk: Vec<u8>,
    held: Vec<u8>,
    taken: u64,
    kept: Option<LineError>,
}

impl Model for LineBuf {
    ghost use Rattle.dn_io.specs.Lines.{Held};

    ghost Value = { Held };

    ghost view = { λ buf. record { bytes = buf.held.items; taken = buf.taken; kept = buf.kept } };

    ghost use Rattle.std.specs.Prelude.{◌<◌, vec_len};

    ghost invariant = { λ buf. 0 < vec_len buf.chunk };
}

impl LineBuf {
    /// A buffer that holds nothing.
    ///
    /// # Errors
    /// `OutOfMemory`.
    pub fn new(alloc: Global) -> Result<LineBuf, OutOfMemory>
        ensures { IfOk result (λ buf. buf ≡ record { bytes = []; taken = 0; kept = None }) }
    {
        Ok(LineBuf {
            chunk: vec![in alloc; 0; CHUNK]?,
            held: Vec::new(alloc),
            taken: 0,
            kept: None,
        })
    }
}

/// Reads the next line of an input: the bytes before its line feed, less one carriage return there. What stands behind
/// the last line feed is a line where it isn't empty.
///
/// # Errors
/// See [`LineError`]. The buffer keeps the error, and answers it again without reading. After a read fault, and where
/// memory wasn't to be had, it holds what was read so far.
pub fn read_line<S: Source>(
    alloc: Global,
    source: &mut S,
    buf: &mut LineBuf,
) -> Result<Line, LineError>
    // Where the source tells, the answer is that of the lines ahead.
    ensures line { buf.old.kept ≡ None →
        WhereTold (S.left source.old) (S.left source.new) (λ before now. ReadsLine buf.old before result buf.new now) }
    // The end comes only where nothing is held, told or not.
    ensures end { result ≡ Ok Line.End → (buf.old.kept ≡ None) × (buf.old.bytes ≡ []) }
    // A read fault has its cause in the source, or in the call before.
    ensures fault { result ≡ Err LineError.ReadFault →
        Rose (S.faults source.old) (S.faults source.new) ⊎ (buf.old.kept ≡ Some LineError.ReadFault) }
    ensures later { S.faults source.old ≤ S.faults source.new }
    // Each read fault of a call that reads is counted once, and nothing else is.
    ensures counts { buf.old.kept ≡ None → S.faults source.new ≡ read_faults_after (S.faults source.old) result }
    ensures keeps { KeepsError result buf.new }
    ensures kept { AnswersKept buf.old result buf.new }
    // Where an error is kept, nothing is read.
    ensures unread { MatchOption buf.old.kept ⊤ (λ _. source.new ≡ source.old) }
    // A line takes at least a byte of the input, and doesn't reach past byte 2^30.
    ensures advances { IfOk result (λ line. Advances line buf.old.taken buf.new.taken) }
{
    if let Some(error) = buf.kept {
        return Err(error);
    }
    let chunk = buf.chunk.as_mut_slice();
    match next_line(alloc, source, chunk, &mut buf.held, &mut buf.taken) {
        Ok(line) => Ok(line),
        Err(error) => {
            buf.kept = Some(error);
            Err(error)
        }
    }
}

// Reads until a line, the end or an error is found.
fn next_line<S: Source>(
    alloc: Global,
    source: &mut S,
    chunk: &mut [u8],
    held: &mut Vec<u8>,
    taken: &mut u64,
) -> Result<Line, LineError>
    requires { 0 < length chunk.old }
    ensures line { WhereTold (S.left source.old) (S.left source.new) (λ before now.
        ReadsLine (record { bytes = held.old.items; taken = taken.old; kept = None }) before result
        (record { bytes = held.new.items; taken = taken.new; kept = None }) now) }
    ensures end { result ≡ Ok Line.End → held.old.items ≡ [] }
    ensures fault { result ≡ Err LineError.ReadFault → Rose (S.faults source.old) (S.faults source.new) }
    ensures later { S.faults source.old ≤ S.faults source.new }
    ensures counts { S.faults source.new ≡ read_faults_after (S.faults source.old) result }
    ensures advances { IfOk result (λ line. Advances line taken.old taken.new) }
{
    loop {
        match take_line(alloc, held, taken)? {
            Some(text) => return Ok(Line::Text(text)),
            None => {
                if fill(source, chunk, held)? == 0 {
                    return last_line(alloc, held, taken);
                }
            }
        }
    }
}

// Adds what one read gives to what is held, and answers how much it is: nothing at the end. The room for it is taken
// before the read, so that no byte is lost for want of memory.
fn fill<S: Source>(source: &mut S, chunk: &mut [u8], held: &mut Vec<u8>) -> Result<usize, LineError>
    requires { 0 < length chunk.old }
    ensures fills { Fills held.old.items held.new.items (S.left source.old) (S.left source.new) }
    ensures len { IfOk result (λ count. vec_len held.new ≡ vec_len held.old + count) }
    ensures end { IfOk result (λ count. count ≡ 0 → IsAtEnd (S.left source.new)) }
    ensures long { result ≢ Err LineError.TooLong }
    ensures fault { result ≡ Err LineError.ReadFault → Rose (S.faults source.old) (S.faults source.new) }
    ensures later { S.faults source.old ≤ S.faults source.new }
    ensures counts { S.faults source.new ≡ read_faults_after (S.faults source.old) result }
{
    if held.reserve(chunk.len()).is_err() {
        return Err(LineError::OutOfMemory);
    }
    match source.read(chunk) {
        Ok(count) => {
            if held.extend_from_slice(&chunk[..count]).is_err() {
                unreachable!()
            }
            Ok(count)
        }
        Err(_) => Err(LineError::ReadFault),
    }
}

// Takes the first line off what is held; none where it holds no line feed.
fn take_line(
    alloc: Global,
    held: &mut Vec<u8>,
    taken: &mut u64,
) -> Result<Option<List<u8>>, LineError>
    ensures takes { Takes held.old.items taken.old result held.new.items taken.new }
    ensures advances { IfOk result (λ text. OnSome text ((taken.old < taken.new) × (taken.new ≤ 2 ^ 30))) }
{
    match find_feed(held.as_slice()) {
        Some(end) => Ok(Some(cut_line(alloc, held, taken, end)?)),
        None if !held.is_empty() && is_overlong(*taken, held.len(), held.len()) => {
            Err(LineError::TooLong)
        }
        None => Ok(None),
    }
}

// Takes the line off that ends before the first line feed.
fn cut_line(
    alloc: Global,
    held: &mut Vec<u8>,
    taken: &mut u64,
    end: usize,
) -> Result<List<u8>, LineError>
    requires { FeedAt held.old.items end }
    ensures cuts { Cuts held.old.items taken.old result held.new.items taken.new }
    ensures advances { OnOk result ((taken.old < taken.new) × (taken.new ≤ 2 ^ 30)) }
{
    let size = end + 1;
    if is_overlong(*taken, end, size) {
        return Err(LineError::TooLong);
    }
    let text = copied(alloc, strip_return(&held[..end]))?;
    drop_front(held, size);
    *taken += size as u64;
    Ok(text)
}

// What is held where the input ends: its last line, or nothing.
fn last_line(alloc: Global, held: &mut Vec<u8>, taken: &mut u64) -> Result<Line, LineError>
    requires free { FeedFree held.old.items (length held.old.items) }
    requires fits { 0 < length held.old.items → overlong taken.old (length held.old.items) (length held.old.items) ≡ false }
    ensures ends { EndsWith held.old.items taken.old result held.new.items taken.new }
    ensures advances { IfOk result (λ line. Advances line taken.old taken.new) }
{
    if held.is_empty() {
        return Ok(Line::End);
    }
    let text = copied(alloc, held.as_slice())?;
    *taken += held.len() as u64;
    held.clear();
    Ok(Line::Text(text))
}

// A list of these bytes.
fn copied(alloc: Global, bytes: &[u8]) -> Result<List<u8>, LineError>
    ensures ok { IfOk result (λ list. list ≡ bytes.now) }
    ensures err { IfErr result (λ error. error ≡ LineError.OutOfMemory) }
{
    match Vec::from_slice(alloc, bytes) {
        Ok(items) => Ok(List::of(items)),
        Err(_) => Err(LineError::OutOfMemory),
    }
}

// Where the first line feed stands.
fn find_feed(bytes: &[u8]) -> Option<usize>
    ensures { MatchOption result (FeedFree bytes.now (length bytes.now)) (FeedAt bytes.now) }
{
    bytes.iter().position(|byte| *byte == b'\n')
}

// The bytes less one carriage return at their end.
fn strip_return(bytes: &[u8]) -> &[u8]
    ensures { result.now ≡ without_return bytes.now }
{
    let Some(last) = bytes.last() else {
        return bytes;
    };
    if *last == b'\r' {
        &bytes[..bytes.len() - 1]
    } else {
        bytes
    }
}

// Whether a line of so many bytes, which takes so many of the input, is over-long.
fn is_overlong(before: u64, bytes: usize, size: usize) -> bool
    ensures { result ≡ overlong before bytes size }
{
    bytes > MAX_LINE || before.saturating_add(size as u64) > MAX_INPUT
}

// Removes so many bytes at the front.
fn drop_front(held: &mut Vec<u8>, count: usize)
    requires { count ≤ vec_len held.old }
    ensures { held.new.items ≡ drop count held.old.items }
{
    let rest = held.len() - count;
    held.copy_within(count.., 0);
    held.truncate(rest);
}
