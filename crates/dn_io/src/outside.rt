ghost use Rattle.std.specs.Prelude.{◌≡◌, ℕ, ◌+◌, ◌^◌, ◌<◌, ◌≤◌, List, [], Option, Ok, IfOk, OnOk, OnErr, length, min};
ghost use Rattle.std.specs.Io.{ReadsAtMost};
ghost use Rattle.std.specs.Io.KnownBytes.{Appends, Keeps, ReadConsumes, WriteAppends};
ghost use Rattle.dn_io.specs.Outside.{AppendsFront, HasCause, TakesSome};
ghost use Rattle.dn_io.specs.Reading.{Appended};

/// An address of IPv4 with a port of UDP.
#[derive(Clone, Copy, Debug, PartialEq, Eq)]
pub struct Addr {
    pub ip: [u8; 4],
    pub port: u16,
}

/// The outside failed, and the count of faults says so.
#[derive(Clone, Copy, Debug, PartialEq, Eq)]
pub struct Failed;

// The end of a count of faults.
const MOST_FAULTS: u64 = 1 << 63;

// The count after one fault more.
pub(crate) fn raised(count: u64) -> u64
    ensures { result ≡ min (count + 1) (2 ^ 63) }
{
    count.saturating_add(1).min(MOST_FAULTS)
}

/// Where bytes come from.
pub trait Source {
    /// The bytes that are left, where the source tells them.
    ghost left: { Self → Option (List ℕ) };

    /// How often a read has failed.
    ghost faults: { Self → ℕ };

    /// Moves the first `k` bytes of what is left into the front of the buffer, and answers `Ok(k)`. `Ok(0)` on a buffer
    /// that isn't empty means the end of the input, and comes at the end alone.
    ///
    /// # Errors
    /// `Failed` where the read failed, which the count says. Nothing was taken then.
    fn read(&mut self, buf: &mut [u8]) -> Result<usize, Failed>
        ensures bound { ReadsAtMost result buf.new }
        ensures bytes { ReadConsumes (left self.old) (left self.new) result buf.new }
        ensures cause { HasCause (faults self.old) (faults self.new) result };

    /// The count ends at 2^63.
    ghost most: { (source : Self) → faults source ≤ 2 ^ 63 };
}

/// Where bytes go.
pub trait Sink {
    /// The bytes that were written, where the sink tells them.
    ghost written: { Self → Option (List ℕ) };

    /// How often a write has failed.
    ghost faults: { Self → ℕ };

    /// Appends the first `k` bytes of the piece, and answers `Ok(k)`: at least one where the piece isn't empty.
    ///
    /// # Errors
    /// `Failed` where the write failed, which the count says. Nothing was appended then.
    fn write(&mut self, bytes: &[u8]) -> Result<usize, Failed>
        ensures bound { TakesSome result bytes.now }
        ensures bytes { WriteAppends (written self.old) (written self.new) result bytes.now }
        ensures cause { HasCause (faults self.old) (faults self.new) result };

    /// The count ends at 2^63.
    ghost most: { (sink : Self) → faults sink ≤ 2 ^ 63 };
}

/// Writes a piece whole. An empty piece makes no call.
///
/// # Errors
/// `Failed` where a write failed. A front of the piece was written then.
pub fn write_all<K: Sink>(sink: &mut K, bytes: &[u8]) -> Result<(), Failed>
    ensures ok { OnOk result (Appends (K.written sink.old) (K.written sink.new) bytes.now) }
    ensures err { OnErr result (AppendsFront (K.written sink.old) (K.written sink.new) bytes.now) }
    ensures cause { HasCause (K.faults sink.old) (K.faults sink.new) result }
    ensures nothing { bytes.now ≡ [] → (result ≡ Ok tt) × (sink.new ≡ sink.old) }
{
    let mut rest = bytes;
    while !rest.is_empty() {
        rest = write_some(sink, rest)?;
    }
    Ok(())
}

// Writes a front of the piece, and answers what is left of it.
fn write_some<'a, K: Sink>(sink: &mut K, bytes: &'a [u8]) -> Result<&'a [u8], Failed>
    requires { 0 < length bytes.now }
    ensures ok { IfOk result (λ rest. Appended (K.written sink.old) (K.written sink.new) bytes.now rest.now) }
    ensures less { IfOk result (λ rest. length rest.now < length bytes.now) }
    ensures err { OnErr result (Keeps (K.written sink.old) (K.written sink.new)) }
    ensures cause { HasCause (K.faults sink.old) (K.faults sink.new) result }
{
    let taken = sink.write(bytes)?;
    let (_, rest) = bytes.split_at(taken);
    Ok(rest)
}
