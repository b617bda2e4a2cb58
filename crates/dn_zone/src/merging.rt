ghost use Rattle.std.specs.Prelude.{◌≡◌, ◌+◌, ◌≤◌, [], length, IfOk, IsTrue};
ghost use Rattle.std.specs.List.{AllByRecursion};
ghost use Rattle.dn_store.specs.Table.{AreWritten, IsNotWritten, KeysDiffer, change_limit, unit_at};
ghost use Rattle.dn_store.specs.declared.unit.UnitKey.{UnitKey};
ghost use Rattle.dn_store.specs.Value.{fits};
ghost use Rattle.dn_zone.specs.Joins.{JoinsChanges};
ghost use Rattle.dn_zone.specs.Merge.{cursor_of, pull_of, winners, wins};
ghost use Rattle.dn_zone.specs.Zone.{after_merge, merge_step};
ghost use Rattle.dn_zone.specs.Zone.Preparing.{IsSame, Prepares};

use crate::event::Answer;
use crate::zone::{Prepared, Zone};
use dn_io::{Duplicate, List, OutOfMemory};
use dn_link::{Changes, Packet};
use dn_stamp::ReplicaId;
use dn_store::Write;
use dn_update::Limit;
use std::alloc::Global;

impl Zone {
    // Whether a write has a greater stamp than the unit of its key here, or its key isn't here.
    #[tactic(auto, unfolding(crate::specs::Merge::wins))]
    fn wins(&self, write: &Write) -> bool
        ensures { result ≡ wins self.now.table.0 write.now }
    {
        match self.table.find(&write.key) {
            None => true,
            Some(unit) => write.stamp.is_newer(&unit.stamp),
        }
    }

    // Those of the writes that win, in their order.
    #[tactic(auto, unfolding(crate::specs::Merge::winners))]
    fn winners(&self, alloc: Global, writes: &[Write]) -> Result<List<Write>, OutOfMemory>
        ensures { IfOk result (λ won. won ≡ winners self.now.table.0 writes.now) }
    {
        let mut won = List::new(alloc);
        for write in writes {
            if self.wins(write) {
                won.push(write.copy(alloc)?)?;
            }
        }
        Ok(won)
    }

    // The zone after these writes of a supplier, whose changes it has then taken up to a number.
    fn after_merge(
        &self,
        alloc: Global,
        changes: &Changes,
        won: &List<Write>,
    ) -> Result<Zone, OutOfMemory>
        requires keys { KeysDiffer won.now }
        requires values { AllByRecursion (λ write. IsTrue (fits write.value)) won.now }
        requires count { self.now.table.1 + length won.now ≤ change_limit }
        ensures after { IfOk result (λ zone. zone ≡ after_merge self.now changes.now won.now) }
        ensures written { IfOk result (λ zone. AreWritten won.now zone.table.0) }
        ensures others { (key : UnitKey) → IsNotWritten key won.now → IfOk result (λ zone. unit_at key zone.table.0 ≡ unit_at key self.now.table.0) }
    {
        let seen = self.cursors.of(changes.supplier).max(changes.to);
        Ok(Zone {
            id: self.id,
            host: self.host,
            apex: self.apex,
            table: self.table.put(won)?,
            cursors: self.cursors.with(alloc, changes.supplier, seen)?,
            pass: self.pass,
        })
    }

    /// Takes what another replica sent: nothing where changes are missing before these, else the newer of the units. The zone
    /// stays the same where none is newer and the cursor stays.
    ///
    /// # Errors
    /// `OutOfMemory`.
    #[tactic(auto, unfolding(crate::specs::Zone::merge_step))]
    pub fn merge(&self, alloc: Global, changes: &Changes) -> Result<Prepared, OutOfMemory>
        ensures step { IfOk result (λ made. Prepares made self.now (merge_step self.now changes.now)) }
        // Under each key stands the join of what stood there and of what came (`greater` of dn_stamp).
        ensures joins { IfOk result (λ made. JoinsChanges made self.now changes.now) }
        // Where no unit wins and the cursor stays, no state is made.
        ensures kept { winners self.now.table.0 changes.now.units ≡ [] → changes.now.to ≤ cursor_of changes.now.supplier self.now.cursors → IfOk result IsSame }
    {
        let cursor = self.cursors.of(changes.supplier);
        if cursor < changes.from {
            return Ok(Prepared::Same(Answer::Gap {
                cursor,
                from: changes.from,
            }));
        }
        let won = self.winners(alloc, changes.units.as_slice())?;
        if self.table.is_full_for(won.len()) {
            return Ok(Prepared::Same(Answer::Refused(Limit::Changes)));
        }
        if won.is_empty() && changes.to <= cursor {
            return Ok(Prepared::Same(Answer::Merged { won: 0 }));
        }
        let count = won.len() as u32;
        let after = self.after_merge(alloc, changes, &won)?;
        Ok(Prepared::Became(after, Answer::Merged { won: count }))
    }

    /// What the zone asks of a supplier: its changes above the cursor.
    pub fn pull(&self, supplier: &ReplicaId) -> Packet
        ensures { result ≡ pull_of self.now supplier.now }
    {
        Packet::Pull {
            zone: self.apex,
            from_id: self.id,
            after: self.cursors.of(*supplier),
        }
    }
}
