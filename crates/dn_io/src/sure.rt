ghost use Rattle.std.specs.Prelude.{◌≡◌, None, Some};

use crate::source::Unread;
use crate::{Failed, List, Sink, Source};

/// A source in memory, which tells all and never fails.
#[derive(Drop)]
pub struct SureSource {
    unread: Unread,
}

impl SureSource {
    ghost use Rattle.dn_io.specs.Memory.{sure_left_of};

    /// A source of these bytes.
    pub fn of(bytes: List<u8>) -> Self
        ensures { sure_left_of result ≡ Some bytes }
    {
        SureSource {
            unread: Unread::of(bytes),
        }
    }
}

impl Source for SureSource {
    ghost use Rattle.std.specs.Prelude.{IsOk, Some};
    ghost use Rattle.std.specs.Io.{ReadsAtMost};
    ghost use Rattle.std.specs.Io.KnownBytes.{ReadConsumes};
    ghost use Rattle.std.proofs.Common.{rules};
    ghost use Rattle.dn_io.specs.Memory.{sure_left_of};
    ghost use Rattle.dn_io.specs.Outside.{HasCause};

    ghost left = { λ source. Some source.unread };

    ghost faults = { λ source. 0 };

    /// Never fails.
    fn read(&mut self, buf: &mut [u8]) -> Result<usize, Failed>
        ensures bound { ReadsAtMost result buf.new }
        ensures bytes { ReadConsumes (sure_left_of self.old) (sure_left_of self.new) result buf.new }
        ensures cause { HasCause 0 0 result }
        ensures sure { IsOk result }
    {
        Ok(self.unread.read(buf))
    }

    ghost most = { Prim.search rules };
}

/// A sink that never fails. It takes each piece whole and keeps nothing, so it tells nothing.
#[derive(Drop)]
pub struct SureSink {}

impl SureSink {
    /// A sink.
    pub fn of() -> Self {
        SureSink {}
    }
}

impl Sink for SureSink {
    ghost use Rattle.std.specs.Prelude.{◌≡◌, None, Ok, length};
    ghost use Rattle.std.specs.Io.KnownBytes.{WriteAppends};
    ghost use Rattle.std.proofs.Common.{rules};
    ghost use Rattle.dn_io.specs.Outside.{HasCause, TakesSome};

    ghost written = { λ sink. None };

    ghost faults = { λ sink. 0 };

    /// Takes the piece whole, and never fails.
    fn write(&mut self, bytes: &[u8]) -> Result<usize, Failed>
        ensures bound { TakesSome result bytes.now }
        ensures bytes { WriteAppends None None result bytes.now }
        ensures cause { HasCause 0 0 result }
        ensures whole { result ≡ Ok (length bytes.now) }
    {
        Ok(bytes.len())
    }

    ghost most = { Prim.search rules };
}
