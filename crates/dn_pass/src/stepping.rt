ghost use Rattle.std.specs.Prelude.{◌≡◌, ◌-◌, map, None, Some, IfOk, IsTrue};
ghost use Rattle.std.specs.List.{AllByRecursion};
ghost use Rattle.dn_store.specs.Table.{KeysDiffer};
ghost use Rattle.dn_store.specs.Value.{fits};
ghost use Rattle.dn_store.specs.Contents.{props_number};
ghost use Rattle.dn_pass.specs.Pass.{pass_after, deleted_by, entombed_by, last_key, looked_at, removed_from, step_plan, sweep, writes_of};

use crate::pass::{Pass, StepPlan};
use crate::sweeper::Sweeper;
use dn_io::OutOfMemory;
use dn_property::rules_of;
use dn_stamp::ReplicaId;
use dn_store::{Table, Unit, UnitKey, UnitValue, Write, properties_of, props_number};
use std::alloc::Global;

fn count_entombed(writes: &[Write]) -> usize
    ensures { result ≡ entombed_by writes.now }
{
    writes
        .iter()
        .filter(|write| matches!(write.value, UnitValue::Tombstone(_)))
        .count()
}

fn count_deleted(writes: &[Write]) -> usize
    ensures { result ≡ deleted_by writes.now }
{
    writes
        .iter()
        .filter(|write| matches!(write.value, UnitValue::Gone))
        .count()
}

// The units of the least so many keys above a key.
#[tactic(auto, unfolding(crate::specs::Pass::looked_at))]
fn looked_at<'a>(
    alloc: Global,
    table: &'a Table,
    after: Option<UnitKey>,
    most: u32,
) -> Result<Vec<&'a Unit>, OutOfMemory>
    ensures { IfOk result (λ looked. map (λ unit. unit.now) looked.items ≡ looked_at after most table.now.0) }
{
    table.facts();
    let mut looked = Vec::new(alloc);
    let mut next = table.next_after(after.as_ref());
    for _at in 0..most {
        let Some(unit) = next else {
            return Ok(looked);
        };
        looked.push(unit)?;
        next = table.next_after(Some(&unit.key));
    }
    Ok(looked)
}

// The key of the last of the units, or the one before them where there is none.
fn last_key(before: Option<UnitKey>, looked: &[&Unit]) -> Option<UnitKey>
    ensures { result ≡ last_key before (map (λ unit. unit.now) looked.now) }
{
    match looked.last() {
        Some(unit) => Some(unit.key),
        None => before,
    }
}

// The pass behind the units that a step looked at and the writes that it made.
#[tactic(auto, unfolding(crate::specs::Pass::pass_after))]
fn pass_after(pass: &Pass, sweeper: &Sweeper, looked: &[&Unit], writes: &[Write]) -> Pass
    requires moment { sweeper.now.moment ≡ pass.now.moment }
    requires writes { writes.now ≡ sweep sweeper.now.rules sweeper.now.moment sweeper.now.id (map (λ unit. unit.now) looked.now) }
    ensures { result ≡ pass_after pass.now sweeper.now.rules sweeper.now.id (map (λ unit. unit.now) looked.now) }
{
    let after = pass.after;
    Pass {
        moment: pass.moment,
        start: pass.start,
        after: last_key(after, looked),
        removed: pass.removed.saturating_add(sweeper.removed_from(looked)),
        entombed: pass.entombed.saturating_add(count_entombed(writes) as u64),
        deleted: pass.deleted.saturating_add(count_deleted(writes) as u64),
        skipped: pass
            .skipped
            .saturating_add(sweeper.count_skipped(looked) as u64),
    }
}

/// What a step over at most so many units does.
///
/// # Errors
/// `OutOfMemory`.
#[tactic(auto, unfolding(crate::specs::Pass::step_plan))]
pub fn step(
    alloc: Global,
    table: &Table,
    pass: &Pass,
    most: u32,
    id: ReplicaId,
) -> Result<StepPlan, OutOfMemory>
    ensures plan { IfOk result (λ plan. plan ≡ step_plan table.now.0 pass.now most id) }
    // So the writes make a batch for a table's `put`.
    ensures keys { IfOk result (λ plan. KeysDiffer (writes_of plan)) }
    ensures values { IfOk result (λ plan. AllByRecursion (λ write. IsTrue (fits write.value)) (writes_of plan)) }
{
    table.facts();
    let props_usn = props_number(table);
    if pass.start < props_usn {
        return Ok(StepPlan::Void { props_usn });
    }
    let sweeper = Sweeper {
        rules: rules_of(properties_of(table)),
        moment: pass.moment,
        id,
    };
    let looked = looked_at(alloc, table, pass.after, most)?;
    let writes = sweeper.sweep(alloc, looked.as_slice())?;
    let after = pass_after(pass, &sweeper, looked.as_slice(), writes.as_slice());
    if table.next_after(after.after.as_ref()).is_some() {
        Ok(StepPlan::Moved {
            writes,
            pass: after,
        })
    } else {
        Ok(StepPlan::Finished {
            writes,
            pass: after,
        })
    }
}
