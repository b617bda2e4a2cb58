ghost use Rattle.std.specs.Prelude.{◌≡◌, ◌≤◌, ◌+◌, ℕ, [], length, map, nat_lt, option_copied, IfOk, IsTrue};
ghost use Rattle.std.specs.List.{AllByRecursion};
ghost use Rattle.dn_store.specs.Run.{IsRun};
ghost use Rattle.dn_store.specs.Table.{AreWritten, IsLeastAbove, IsNotWritten, IsTable, KeysDiffer, change_limit, run_after, units_after, unit_above, unit_at, write_of};
ghost use Rattle.dn_store.specs.declared.unit.UnitKey.{UnitKey};
ghost use Rattle.dn_store.specs.Value.{fits};

use crate::changes::run_of;
use crate::finding::{find_above, find_key};
use crate::held::Held;
use crate::writing::{Drafts, take_writes};
use crate::{Unit, UnitKey, Write};
use dn_io::{List, OutOfMemory};
use dn_pages::Pages;
use std::alloc::Global;
use std::marker::Model;

// The most changes that a table takes.
const MAX_CHANGES: u64 = 1 << 63;

/// The units of a zone on one replica, as contracts see it the list of its units in the order of their keys, and its
/// change count: the number of writes that the zone took on this replica.
#[derive(Drop)]
pub struct Table {
    alloc: Global,
    // The units in the order of their keys.
    units: Pages<Held>,
    // The same units in the order of their numbers.
    changes: Pages<Held>,
    top: u64,
}

impl Model for Table {
    ghost use Rattle.std.specs.Prelude.{ℕ, List as Seq};
    ghost use Rattle.dn_store.specs.declared.unit.Unit as one;

    ghost Value = { Seq one.Unit × ℕ };

    ghost use Rattle.dn_pages.specs.Pages.{items};
    ghost use Rattle.dn_store.specs.Numbers.{IsPaged};

    ghost view = { λ table. (items table.units, table.top) };

    ghost invariant = { λ table. IsPaged table.units table.changes table.top };
}

/// The changes above a number, up to `to`.
#[derive(Drop)]
pub struct ChangeRun {
    pub to: u64,
    pub units: List<Unit>,
}

impl Table {
    /// A table without units. (It keeps the allocator.)
    pub fn empty(alloc: Global) -> Result<Table, OutOfMemory>
        ensures { IfOk result (λ table. table ≡ ([], 0)) }
    {
        Ok(Table {
            alloc,
            units: Pages::empty(alloc)?,
            changes: Pages::empty(alloc)?,
            top: 0,
        })
    }

    /// The change count.
    pub fn top(&self) -> u64
        ensures top { result ≡ self.now.1 }
        ensures table { IsTable self.now.0 self.now.1 }
    {
        self.top
    }

    /// What a table is, at hand for a proof that needs it: keys in order, different numbers up to the change count, values
    /// that fit, at most 2^63 changes. Nothing runs.
    pub fn facts(&self)
        ensures { IsTable self.now.0 self.now.1 }
    {
        let _ = &self.top;
    }

    /// Whether so many writes more would pass the most changes that a table takes, 2^63.
    pub fn is_full_for(&self, writes: usize) -> bool
        ensures { result ≡ nat_lt change_limit (self.now.1 + writes) }
    {
        let count = writes as u64;
        count > MAX_CHANGES || self.top > MAX_CHANGES - count
    }

    /// How many units there are.
    pub fn count(&self) -> usize
        ensures { result ≡ length self.now.0 }
    {
        self.units.count()
    }

    /// The unit of a key.
    pub fn find(&self, key: &UnitKey) -> Option<&Unit>
        ensures { option_copied result ≡ unit_at key.now self.now.0 }
    {
        find_key(&self.units, key)
    }

    /// The unit of the least key above a key, of the least of all where no key is given.
    pub fn next_after(&self, key: Option<&UnitKey>) -> Option<&Unit>
        ensures first { option_copied result ≡ unit_above (option_copied key.entry) self.now.0 }
        // No unit above the key is below the answer.
        ensures least { IsLeastAbove (option_copied key.entry) (option_copied result) self.now.0 }
    {
        find_above(&self.units, key)
    }

    /// A new table in which each write has replaced the unit of its key, under the numbers behind the change count. This
    /// table stays as it is.
    ///
    /// # Errors
    /// `OutOfMemory`.
    #[tactic(auto, using(crate::proofs::TableLemmas::table_taken))]
    pub fn put(&self, batch: &List<Write>) -> Result<Table, OutOfMemory>
        requires keys { KeysDiffer batch.now }
        requires values { AllByRecursion (λ write. IsTrue (fits write.value)) batch.now }
        requires count { self.now.1 + length batch.now ≤ change_limit }
        ensures after { IfOk result (λ table. table ≡ (units_after self.now.0 self.now.1 batch.now, self.now.1 + length batch.now)) }
        // So each write is found under its key, and under any other key the unit from before.
        ensures written { IfOk result (λ table. AreWritten batch.now table.0) }
        ensures others { (key : UnitKey) → IsNotWritten key batch.now → IfOk result (λ table. unit_at key table.0 ≡ unit_at key self.now.0) }
    {
        let start = Drafts {
            units: self.units.draft(self.alloc)?,
            changes: self.changes.draft(self.alloc)?,
        };
        let Drafts { units, changes } = take_writes(self.alloc, start, self.top, batch.as_slice())?;
        Ok(Table {
            alloc: self.alloc,
            units: units.finish()?,
            changes: changes.finish()?,
            top: self.top + batch.len() as u64,
        })
    }

    /// The same table once more, which shares all of its pages. Nothing is allocated.
    ///
    /// # Errors
    /// `OutOfMemory` where no owner more can be counted.
    pub fn share(&self) -> Result<Table, OutOfMemory>
        // The same units and the same change count.
        ensures { IfOk result (λ table. table ≡ self.now) }
    {
        Ok(Table {
            alloc: self.alloc,
            units: self.units.share()?,
            changes: self.changes.share()?,
            top: self.top,
        })
    }

    /// The units above a number in the order of their numbers: the longest front that takes at most `room` bytes in a
    /// packet.
    ///
    /// # Errors
    /// `OutOfMemory`.
    pub fn changes_after(&self, usn: u64, room: usize) -> Result<ChangeRun, OutOfMemory>
        requires usn { usn ≤ self.now.1 }
        requires room { 61000 ≤ room }
        ensures run { IfOk result (λ run. run ≡ run_after usn room self.now.1 self.now.0) }
        // So it is the longest front of the changes above the number, by growing numbers, that there is room for.
        ensures longest { IfOk result (λ run. IsRun usn room self.now.1 self.now.0 run) }
        // So the units, taken as writes, make a batch for `put`: their keys differ and their values fit.
        ensures differ { IfOk result (λ run. KeysDiffer (map write_of run.units)) }
        ensures fit { IfOk result (λ run. AllByRecursion (λ write. IsTrue (fits write.value)) (map write_of run.units)) }
    {
        run_of(self.alloc, usn, room, self.top, &self.changes)
    }
}
