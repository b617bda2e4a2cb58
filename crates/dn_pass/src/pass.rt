ghost use Rattle.std.specs.Prelude.{◌≡◌, ◌-◌, None, Some};
ghost use Rattle.dn_pass.specs.Pass.{new_pass_if_due};

use dn_io::{List, Moment};
use dn_property::{is_due, rules_of};
use dn_store::{Table, UnitKey, Write, properties_of};

/// A pass of the scavenger over a zone.
#[derive(Clone, Copy)]
pub struct Pass {
    /// By the rules of this moment records are stale.
    pub moment: Moment,
    /// The zone's change count when the pass began.
    pub start: u64,
    /// The last key that it looked at.
    pub after: Option<UnitKey>,
    /// How many records it took away.
    pub removed: u64,
    /// How many nodes it made tombstones.
    pub entombed: u64,
    /// Of how many tombstones it left nothing.
    pub deleted: u64,
    /// How many units it left as they were, since they are at their last version.
    pub skipped: u64,
}

/// What a step of a pass does.
#[derive(Drop)]
pub enum StepPlan {
    /// Nothing, and the pass is over: the zone's properties were written behind its start.
    Void { props_usn: u64 },
    /// It writes this, and the pass goes on.
    Moved { writes: List<Write>, pass: Pass },
    /// It writes this, and the pass is over.
    Finished { writes: List<Write>, pass: Pass },
}

/// A pass that begins at a moment; none exactly where the zone isn't due.
#[tactic(auto, unfolding(crate::specs::Pass::new_pass_if_due))]
pub fn begin(table: &Table, moment: Moment) -> Option<Pass>
    ensures { result ≡ new_pass_if_due table.now moment }
{
    if !is_due(&rules_of(properties_of(table)), moment.hour()) {
        return None;
    }
    Some(Pass {
        moment,
        start: table.top(),
        after: None,
        removed: 0,
        entombed: 0,
        deleted: 0,
        skipped: 0,
    })
}
