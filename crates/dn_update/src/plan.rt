ghost use Rattle.std.specs.Prelude.{◌≡◌, ◌≤◌, ◌<◌, ◌+◌, [], ◌∷◌, length, IfOk, IsTrue};
ghost use Rattle.std.specs.List.{AllByRecursion};
ghost use Rattle.dn_io.specs.Moments.{seconds_of};
ghost use Rattle.dn_store.specs.Table.{KeysDiffer, change_limit};
ghost use Rattle.dn_store.specs.Value.{fits};
ghost use Rattle.dn_update.specs.Writes.{stamp_for};
ghost use Rattle.dn_update.specs.Writes.Plans.{Plans, writes_of};

use dn_io::{List, Moment, OutOfMemory};
use dn_stamp::{ReplicaId, Stamp};
use dn_store::{Table, UnitKey, UnitValue, Write, fits};
use std::alloc::Global;

/// A limit that a write would pass.
#[derive(Clone, Copy, Debug, PartialEq, Eq)]
pub enum Limit {
    /// The value has more than 60,000 bytes in its stored form.
    NodeSize,
    /// The unit is at its last version.
    Version,
    /// The change count would pass 2^63.
    Changes,
}

/// What values that are to be written come to: the first limit that they would pass, or their writes.
#[derive(Drop)]
pub enum Plan {
    Limit(Limit),
    Writes(List<Write>),
}

// The stamp of the next write under a key; none where the unit is at its last version.
#[tactic(auto, unfolding(crate::specs::Writes::stamp_for))]
fn stamp_for(table: &Table, key: &UnitKey, id: ReplicaId, moment: Moment) -> Option<Stamp>
    ensures { result ≡ stamp_for key.now table.now.0 id (seconds_of moment) }
{
    match table.find(key) {
        None => Some(Stamp::first(id, moment.seconds())),
        Some(unit) => unit.stamp.next(id, moment.seconds()),
    }
}

/// What writing a value under a key comes to, at a moment and by a replica. The limits are tested in this order: the value
/// fits, the unit isn't at its last version, the change count doesn't pass 2^63.
///
/// # Errors
/// `OutOfMemory`.
#[tactic(auto, unfolding(crate::specs::Writes::written, crate::specs::Writes::stamped))]
pub fn plan_value(
    alloc: Global,
    table: &Table,
    key: UnitKey,
    value: UnitValue,
    moment: Moment,
    id: ReplicaId,
) -> Result<Plan, OutOfMemory>
    ensures plan { IfOk result (λ plan. Plans plan (record { key = key; value = value } ∷ []) id moment table.now) }
    // So the writes make a batch for the table's `put`.
    ensures keys { IfOk result (λ plan. KeysDiffer (writes_of plan)) }
    ensures values { IfOk result (λ plan. AllByRecursion (λ write. IsTrue (fits write.value)) (writes_of plan)) }
    ensures count { IfOk result (λ plan. table.now.1 + length (writes_of plan) ≤ change_limit) }
{
    table.facts();
    if !fits(&value) {
        return Ok(Plan::Limit(Limit::NodeSize));
    }
    let Some(stamp) = stamp_for(table, &key, id, moment) else {
        return Ok(Plan::Limit(Limit::Version));
    };
    if table.is_full_for(1) {
        return Ok(Plan::Limit(Limit::Changes));
    }
    let mut writes = List::new(alloc);
    writes.push(Write { key, stamp, value })?;
    Ok(Plan::Writes(writes))
}
