use dn_io::{List, Moment};
use dn_link::Changes;
use dn_name::Name;
use dn_update::Limit;

/// The longest interval of aging that a command sets, in hours: ten years.
pub const INTERVAL_LIMIT: u32 = 87_600;

/// A command of administration.
#[derive(Drop)]
pub enum AdminCmd {
    /// Records age from now on, and none is removed for the refresh interval.
    AgingOn,
    AgingOff,
    /// Sets the interval without refresh, in hours, at most `INTERVAL_LIMIT`.
    NoRefresh(u32),
    /// Sets the interval in which a record may be refreshed, in hours, at most `INTERVAL_LIMIT`.
    Refresh(u32),
    /// Adds a record to the node of a name.
    Add {
        name: Name,
        ttl: u32,
        rtype: u16,
        rdata: List<u8>,
        hour: u32,
    },
}

/// What happens to a zone.
#[derive(Drop)]
pub enum Event {
    /// A command of administration.
    Admin { cmd: AdminCmd, moment: Moment },
    /// A pass of the scavenger begins.
    Begin { moment: Moment },
    /// The pass goes on over so many units, at least one.
    Step { most: u32 },
    /// Changes that another replica sent.
    Merge { changes: Changes },
}

/// What a command did.
#[derive(Clone, Copy, Debug, PartialEq, Eq)]
pub enum AdminDone {
    /// So many units were written.
    Written { units: u64 },
    Unchanged,
    /// The command's name isn't under the zone's apex.
    NotInZone,
}

/// What a zone answers to an event.
#[derive(Clone, Copy, Debug, PartialEq, Eq)]
pub enum Answer {
    Admin(AdminDone),
    /// A pass runs from now on.
    Begun,
    /// The zone doesn't age, or isn't available for a pass yet.
    NotDue,
    /// A pass runs already, by the rules of this hour.
    Busy {
        hour: u32,
    },
    /// The pass goes on behind the units that it looked at.
    Moved,
    /// The pass is over. It began at one change count and ended at another, took so many records away, made so many
    /// nodes tombstones and so many tombstones nothing, and skipped so many units that are at their last version.
    Finished {
        start: u64,
        end: u64,
        removed: u64,
        entombed: u64,
        deleted: u64,
        skipped: u64,
    },
    /// The pass is given up, since the zone's properties were written behind its start.
    Void {
        props_usn: u64,
    },
    /// No pass runs.
    Idle,
    /// So many of the units were newer than here, or new.
    Merged {
        won: u32,
    },
    /// Changes are missing between the cursor and the first of these.
    Gap {
        cursor: u64,
        from: u64,
    },
    Refused(Limit),
}
