ghost use Rattle.std.specs.Prelude.{◌≡◌, ◌<◌, ◌≤◌, ◌^◌, ◌++◌, [], Some, length, min, take};

use crate::outside::raised;
use crate::{Failed, List, Source};
use std::marker::Model;

// Bytes that are read from front to back, as contracts see them those that are left.
#[derive(Drop)]
pub(crate) struct Unread {
    bytes: List<u8>,
    at: usize,
}

impl Model for Unread {
    ghost use Rattle.std.specs.Prelude.{◌≤◌, List as Seq, drop, length, ℕ};

    ghost Value = { Seq ℕ };

    ghost view = { λ unread. drop unread.at unread.bytes };

    ghost invariant = { λ unread. unread.at ≤ length unread.bytes };
}

impl Unread {
    pub(crate) fn of(bytes: List<u8>) -> Self
        ensures { result ≡ bytes }
    {
        Unread { bytes, at: 0 }
    }

    // Moves as many bytes as are left, or as the buffer takes, to the buffer's front.
    pub(crate) fn read(&mut self, buf: &mut [u8]) -> usize
        ensures bound { result ≤ length buf.new }
        ensures bytes { self.old ≡ take result buf.new ++ self.new }
        ensures end { result ≡ 0 → 0 < length buf.new → self.new ≡ [] }
    {
        let (_, rest) = self.bytes.as_slice().split_at(self.at);
        let count = copy_front(rest, buf);
        self.at += count;
        count
    }
}

// Copies what fits to the front of the other slice.
fn copy_front(from: &[u8], into: &mut [u8]) -> usize
    ensures count { result ≡ min (length from.now) (length into.old) }
    ensures front { take result into.new ≡ take result from.now }
{
    let count = from.len().min(into.len());
    into[..count].copy_from_slice(&from[..count]);
    count
}

/// A source in memory, which tells all. Its reads of the numbers that are listed, from 0, fail.
#[derive(Drop)]
pub struct MemSource {
    unread: Unread,
    fails: List<u64>,
    calls: u64,
    faults: u64,
    ghost most: { faults ≤ 2 ^ 63 },
}

impl MemSource {
    ghost use Rattle.dn_io.specs.Memory.{failing_reads, left_of, reads_failed, reads_made};

    /// A source of these bytes, which fails at the reads of these numbers.
    pub fn of(bytes: List<u8>, fails: List<u64>) -> Self
        ensures left { left_of result ≡ Some bytes }
        ensures faults { reads_failed result ≡ 0 }
        ensures calls { reads_made result ≡ 0 }
        ensures listed { failing_reads result ≡ fails }
    {
        MemSource {
            unread: Unread::of(bytes),
            fails,
            calls: 0,
            faults: 0,
        }
    }
}

impl Source for MemSource {
    ghost use Rattle.std.specs.Prelude.{◌≡◌, ◌+◌, ◌-◌, ◌^◌, Some, is_err, min};
    ghost use Rattle.std.specs.Io.{ReadsAtMost};
    ghost use Rattle.std.specs.Io.KnownBytes.{ReadConsumes};
    ghost use Rattle.dn_io.specs.Outside.{HasCause};
    ghost use Rattle.dn_io.specs.Memory.{failing_reads, left_of, read_fails, reads_failed, reads_made};

    ghost left = { λ source. Some source.unread };

    ghost faults = { λ source. source.faults };

    /// Fails exactly at the listed calls.
    fn read(&mut self, buf: &mut [u8]) -> Result<usize, Failed>
        ensures bound { ReadsAtMost result buf.new }
        ensures bytes { ReadConsumes (left_of self.old) (left_of self.new) result buf.new }
        ensures cause { HasCause (reads_failed self.old) (reads_failed self.new) result }
        ensures fails { is_err result ≡ read_fails self.old }
        ensures calls { reads_made self.new ≡ min (reads_made self.old + 1) (2 ^ 64 - 1) }
        ensures listed { failing_reads self.new ≡ failing_reads self.old }
    {
        let call = self.calls;
        self.calls = call.saturating_add(1);
        if self.fails.as_slice().contains(&call) {
            self.faults = raised(self.faults);
            return Err(Failed);
        }
        Ok(self.unread.read(buf))
    }

    ghost most = { λ source. source.most };
}
