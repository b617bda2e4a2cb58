ghost use Rattle.std.specs.Prelude.{◌≡◌, ◌≤◌, SomeIff};
ghost use Rattle.dn_io.specs.declared.moment.TheConstants.{TICKS_PER_HOUR, TICKS_PER_SECOND};
ghost use Rattle.dn_io.specs.Moments.{first_moment, hour_of, seconds_of};

use std::marker::Model;

// Ticks of 100 nanoseconds in an hour.
pub const TICKS_PER_HOUR: u64 = 36_000_000_000;

// Ticks of 100 nanoseconds in a second.
pub const TICKS_PER_SECOND: u64 = 10_000_000;

/// A moment at least one hour after 1601-01-01 00:00 UTC, as contracts see it the number of ticks of 100 nanoseconds
/// since then. Hour 0 is left out: as a record's time stamp it means that the record never ages (MS-DNSP 2.2.2.2.4).
#[derive(Clone, Copy, Debug, PartialEq, Eq)]
pub struct Moment {
    ticks: u64,
}

impl Model for Moment {
    ghost use Rattle.std.specs.Prelude.{ℕ, ◌≤◌};
    ghost use Rattle.dn_io.specs.Moments.{first_moment};

    ghost Value = { ℕ };

    ghost view = { λ moment. moment.ticks };

    ghost invariant = { λ moment. first_moment ≤ moment.ticks };

    ghost inverse = { λ ticks. record { ticks = ticks } };
}

impl Moment {
    /// The first moment that there is, an hour after 1601-01-01 00:00 UTC.
    pub fn first() -> Self
        ensures { result ≡ first_moment }
    {
        Moment {
            ticks: TICKS_PER_HOUR,
        }
    }

    /// The moment so many ticks after 1601-01-01; none in the first hour.
    pub fn of(ticks: u64) -> Option<Self>
        ensures { SomeIff result (first_moment ≤ ticks) ticks }
    {
        if ticks < TICKS_PER_HOUR {
            None
        } else {
            Some(Moment { ticks })
        }
    }

    /// Ticks of 100 nanoseconds.
    pub fn ticks(&self) -> u64
        ensures ticks { result ≡ self.now }
        ensures after_the_first_hour { first_moment ≤ result }
    {
        self.ticks
    }

    /// Whole hours since 1601-01-01 00:00 UTC.
    pub fn hour(&self) -> u32
        ensures { result ≡ hour_of self.now }
    {
        (self.ticks / TICKS_PER_HOUR) as u32
    }

    /// Whole seconds since 1601-01-01 00:00 UTC.
    pub fn seconds(&self) -> u64
        ensures { result ≡ seconds_of self.now }
    {
        self.ticks / TICKS_PER_SECOND
    }
}
