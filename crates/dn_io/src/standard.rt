ghost use Rattle.std.specs.Prelude.{◌<◌, ◌≤◌, ◌^◌, IfSome, MatchOption, length, take};
ghost use Rattle.std.specs.Io.KnownBytes.{Appends, Keeps};

use crate::outside::raised;
use crate::{Failed, Sink, Source};
use std::io::{Read, Write};

/// A source over a reader of the standard library. It counts each error of the reader, and tells what is left where the
/// reader does: the runtime's streams don't.
#[derive(Drop)]
pub struct StdSource<R> {
    inner: R,
    faults: u64,
    ghost most: { faults ≤ 2 ^ 63 },
}

impl<R: Read> StdSource<R> {
    ghost use Rattle.std.specs.Prelude.{◌≡◌};
    ghost use Rattle.dn_io.specs.Memory.{std_left_of, std_reads_failed};

    /// A source over this reader.
    pub fn of(inner: R) -> Self
        ensures left { std_left_of R.remaining result ≡ R.remaining inner }
        ensures faults { std_reads_failed result ≡ 0 }
    {
        StdSource { inner, faults: 0 }
    }
}

impl<R: Read> Source for StdSource<R> {
    ghost left = { λ source. R.remaining source.inner };

    ghost faults = { λ source. source.faults };

    fn read(&mut self, buf: &mut [u8]) -> Result<usize, Failed> {
        match self.inner.read(buf) {
            Ok(count) => Ok(count),
            Err(_) => {
                self.faults = raised(self.faults);
                Err(Failed)
            }
        }
    }

    ghost most = { λ source. source.most };
}

/// A sink over a writer of the standard library, flushed at each write. It counts each error of the writer, and each
/// write that takes nothing of a piece that isn't empty. It tells what was written where the writer does: the runtime's
/// streams don't.
///
/// Bytes that the writer took are written, whether its flush goes through or not. So a flush that failed is no failure of
/// its own write: it is made up for before the next one, or by [`StdSink::flush`] behind the last.
#[derive(Drop)]
pub struct StdSink<W> {
    inner: W,
    faults: u64,
    // Whether the last flush failed, so that the writer may still hold bytes back.
    behind: bool,
    ghost most: { faults ≤ 2 ^ 63 },
}

impl<W: Write> StdSink<W> {
    ghost use Rattle.std.specs.Prelude.{◌≡◌};
    ghost use Rattle.std.specs.Io.KnownBytes.{Keeps};
    ghost use Rattle.dn_io.specs.Memory.{std_writes_failed, std_written_of};
    ghost use Rattle.dn_io.specs.Outside.{HasCause};

    /// A sink over this writer.
    pub fn of(inner: W) -> Self
        ensures written { std_written_of W.contents result ≡ W.contents inner }
        ensures faults { std_writes_failed result ≡ 0 }
    {
        StdSink {
            inner,
            faults: 0,
            behind: false,
        }
    }

    /// Flushes the writer where it is behind with that.
    ///
    /// # Errors
    /// `Failed` where the flush failed again, which the count says.
    pub fn flush(&mut self) -> Result<(), Failed>
        ensures bytes { Keeps (std_written_of W.contents self.old) (std_written_of W.contents self.new) }
        ensures cause { HasCause (std_writes_failed self.old) (std_writes_failed self.new) result }
    {
        self.behind = self.behind && self.inner.flush().is_err();
        if self.behind {
            self.faults = raised(self.faults);
            return Err(Failed);
        }
        Ok(())
    }
}

impl<W: Write> Sink for StdSink<W> {
    ghost written = { λ sink. W.contents sink.inner };

    ghost faults = { λ sink. sink.faults };

    fn write(&mut self, bytes: &[u8]) -> Result<usize, Failed> {
        self.flush()?;
        match write_some(&mut self.inner, bytes) {
            Some(count) => {
                self.behind = self.inner.flush().is_err();
                Ok(count)
            }
            None => {
                self.faults = raised(self.faults);
                Err(Failed)
            }
        }
    }

    ghost most = { λ sink. sink.most };
}

// How many bytes the writer took; none where it failed, or took nothing of a piece that isn't empty.
fn write_some<W: Write>(writer: &mut W, bytes: &[u8]) -> Option<usize>
    ensures bound { IfSome result (λ count. (count ≤ length bytes.now) × (0 < length bytes.now → 0 < count)) }
    ensures bytes { MatchOption result (Keeps (W.contents writer.old) (W.contents writer.new))
        (λ count. Appends (W.contents writer.old) (W.contents writer.new) (take count bytes.now)) }
{
    match writer.write(bytes) {
        Ok(count) if count == 0 && !bytes.is_empty() => None,
        Ok(count) => Some(count),
        Err(_) => None,
    }
}
