ghost use Rattle.std.specs.Prelude.{◌≡◌, ◌≤◌, ◌^◌, [], Some};

use crate::outside::raised;
use crate::{Failed, List, Sink};

/// A sink in memory, which tells all and takes each piece whole. Its writes of the numbers that are listed, from 0,
/// fail, and so does one for which memory isn't to be had.
#[derive(Drop)]
pub struct MemSink {
    bytes: Vec<u8>,
    fails: List<u64>,
    calls: u64,
    faults: u64,
    ghost most: { faults ≤ 2 ^ 63 },
}

impl MemSink {
    ghost use Rattle.dn_io.specs.Memory.{failing_writes, writes_failed, writes_made, written_of};

    /// A sink that holds nothing yet, and fails at the writes of these numbers.
    pub fn of(fails: List<u64>) -> Self
        ensures written { written_of result ≡ Some [] }
        ensures faults { writes_failed result ≡ 0 }
        ensures calls { writes_made result ≡ 0 }
        ensures listed { failing_writes result ≡ fails }
    {
        MemSink {
            bytes: Vec::new(fails.allocator()),
            fails,
            calls: 0,
            faults: 0,
        }
    }

    /// The bytes that were written.
    pub fn written(&self) -> &[u8]
        ensures { written_of self.now ≡ Some result.now }
    {
        self.bytes.as_slice()
    }
}

impl Sink for MemSink {
    ghost use Rattle.std.specs.Prelude.{◌≡◌, ◌+◌, ◌-◌, ◌^◌, IfOk, OnErr, OnOk, Some, false, length, min};
    ghost use Rattle.std.specs.Io.KnownBytes.{WriteAppends};
    ghost use Rattle.dn_io.specs.Outside.{HasCause, TakesSome};
    ghost use Rattle.dn_io.specs.Memory.{LacksRoom, failing_writes, write_fails, writes_failed, writes_made, written_of};

    ghost written = { λ sink. Some sink.bytes.items };

    ghost faults = { λ sink. sink.faults };

    /// Takes the piece whole, and fails at the listed calls; at another only where it has to grow for the piece.
    fn write(&mut self, bytes: &[u8]) -> Result<usize, Failed>
        ensures bound { TakesSome result bytes.now }
        ensures bytes { WriteAppends (written_of self.old) (written_of self.new) result bytes.now }
        ensures cause { HasCause (writes_failed self.old) (writes_failed self.new) result }
        ensures whole { IfOk result (λ count. count ≡ length bytes.now) }
        ensures fails { OnOk result (write_fails self.old ≡ false) }
        ensures room { write_fails self.old ≡ false → OnErr result (LacksRoom self.old bytes.now) }
        ensures calls { writes_made self.new ≡ min (writes_made self.old + 1) (2 ^ 64 - 1) }
        ensures listed { failing_writes self.new ≡ failing_writes self.old }
    {
        let call = self.calls;
        self.calls = call.saturating_add(1);
        if self.fails.as_slice().contains(&call) || self.bytes.extend_from_slice(bytes).is_err() {
            self.faults = raised(self.faults);
            return Err(Failed);
        }
        Ok(bytes.len())
    }

    ghost most = { λ sink. sink.most };
}
