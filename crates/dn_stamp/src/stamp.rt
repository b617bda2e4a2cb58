ghost use Rattle.std.specs.Prelude.{◌≡◌};
ghost use Rattle.dn_stamp.specs.Stamp.{first_stamp, is_last, is_newer, next_stamp};

// The greatest version of a stamp.
const LAST_VERSION: u32 = 4_294_967_294;

/// The identity of a replica.
#[derive(Clone, Copy, Debug, PartialEq, Eq, Hash, PartialOrd, Ord)]
pub struct ReplicaId(pub [u8; 16]);

/// The stamp of a write, which decides between two writes of one unit: the greater version, then the later second, then
/// the greater replica. A version is 1 to 4,294,967,294.
#[derive(Clone, Copy, Debug, PartialEq, Eq, PartialOrd, Ord)]
pub struct Stamp {
    pub version: u32,
    /// Whole seconds since 1601-01-01 00:00 UTC.
    pub seconds: u64,
    pub id: ReplicaId,
}

impl Stamp {
    /// The stamp of a unit that is written for the first time.
    pub fn first(id: ReplicaId, seconds: u64) -> Stamp
        ensures { result ≡ first_stamp id seconds }
    {
        Stamp {
            version: 1,
            seconds,
            id,
        }
    }

    /// Whether it is greater than another.
    pub fn is_newer(&self, other: &Stamp) -> bool
        ensures { result ≡ is_newer self.now other.now }
    {
        self.cmp(other).is_gt()
    }

    /// Whether no stamp comes behind it: it is at the last version, 4,294,967,294.
    pub fn is_last(&self) -> bool
        ensures { result ≡ is_last self.now }
    {
        self.version >= LAST_VERSION
    }

    /// The stamp of the next write of a unit; none exactly at the last version.
    pub fn next(&self, id: ReplicaId, seconds: u64) -> Option<Stamp>
        ensures { result ≡ next_stamp self.now id seconds }
    {
        if self.is_last() {
            None
        } else {
            Some(Stamp {
                version: self.version + 1,
                seconds,
                id,
            })
        }
    }
}
