ghost use Rattle.std.specs.Prelude.{◌≡◌, ◌+◌, ◌-◌, ◌^◌, min, map, length, count_by, nat_le, if◌then◌else◌, None, Some, IfOk};
ghost use Rattle.std.specs.List.{list_any};
ghost use Rattle.dn_io.specs.Moments.{hour_of};
ghost use Rattle.dn_store.specs.Contents.{node_value, rows_in};
ghost use Rattle.dn_pass.specs.Pass.{becomes, fresh_rows, is_skipped, is_stale_row, is_swept, is_wanted, removed_from, stale_rows, sweep, swept, tombstone_ticks};

use dn_io::{Duplicate, List, Moment, OutOfMemory};
use dn_property::{ZoneRules, is_stale};
use dn_rdata::Record;
use dn_stamp::ReplicaId;
use dn_store::{Unit, UnitValue, Write, rows_in};
use std::alloc::Global;

// How long a tombstone stands, in ticks of 100 ns: 1,209,600 seconds.
const TOMBSTONE_TICKS: u64 = 12_096_000_000_000;

// The rules and the replica of a pass.
#[derive(Clone, Copy)]
pub struct Sweeper {
    pub rules: ZoneRules,
    pub moment: Moment,
    pub id: ReplicaId,
}

impl Sweeper {
    fn is_stale(&self, row: &Record) -> bool
        ensures { result ≡ is_stale_row self.now.rules (hour_of self.now.moment) row.now }
    {
        is_stale(row.hour, &self.rules, self.moment.hour())
    }

    fn has_stale(&self, rows: &[Record]) -> bool
        ensures { result ≡ list_any (is_stale_row self.now.rules (hour_of self.now.moment)) rows.now }
    {
        rows.iter().any(|row| self.is_stale(row))
    }

    // The records of a node that are not stale.
    #[tactic(auto, unfolding(crate::specs::Pass::fresh_rows))]
    fn fresh_rows(&self, alloc: Global, rows: &[Record]) -> Result<List<Record>, OutOfMemory>
        ensures { IfOk result (λ fresh. fresh ≡ fresh_rows self.now.rules (hour_of self.now.moment) rows.now) }
    {
        let mut fresh = List::new(alloc);
        for row in rows {
            if !self.is_stale(row) {
                fresh.push(row.copy(alloc)?)?;
            }
        }
        Ok(fresh)
    }

    // How many records of a node are stale.
    #[tactic(auto, unfolding(crate::specs::Pass::stale_rows))]
    fn count_stale(&self, rows: &[Record]) -> usize
        ensures { result ≡ length (stale_rows self.now.rules (hour_of self.now.moment) rows.now) }
    {
        rows.iter().filter(|row| self.is_stale(row)).count()
    }

    // Whether a tombstone has stood for its time.
    fn is_over(&self, since: u64) -> bool
        ensures { result ≡ nat_le (since + tombstone_ticks) self.now.moment }
    {
        let ticks = self.moment.ticks();
        TOMBSTONE_TICKS <= ticks && since <= ticks - TOMBSTONE_TICKS
    }

    // Whether a value is to become another.
    fn is_wanted(&self, value: &UnitValue) -> bool
        ensures { result ≡ is_wanted self.now.rules self.now.moment value.now }
    {
        match value {
            UnitValue::Live(rows) => self.has_stale(rows.as_slice()),
            UnitValue::Tombstone(since) => self.is_over(*since),
            UnitValue::Props(_) | UnitValue::Gone => false,
        }
    }

    // A node without its stale records, a tombstone where none is left.
    fn swept_node(&self, alloc: Global, rows: &[Record]) -> Result<UnitValue, OutOfMemory>
        ensures { IfOk result (λ value. value ≡ node_value (fresh_rows self.now.rules (hour_of self.now.moment) rows.now) self.now.moment) }
    {
        let fresh = self.fresh_rows(alloc, rows)?;
        if fresh.is_empty() {
            Ok(UnitValue::Tombstone(self.moment.ticks()))
        } else {
            Ok(UnitValue::Live(fresh))
        }
    }

    // What a value becomes.
    fn becomes(&self, alloc: Global, value: &UnitValue) -> Result<UnitValue, OutOfMemory>
        ensures { IfOk result (λ after. after ≡ becomes self.now.rules self.now.moment value.now) }
    {
        match value {
            UnitValue::Live(rows) => self.swept_node(alloc, rows.as_slice()),
            UnitValue::Tombstone(_) | UnitValue::Gone => Ok(UnitValue::Gone),
            UnitValue::Props(list) => Ok(UnitValue::Props(list.copy(alloc)?)),
        }
    }

    #[tactic(auto, unfolding(crate::specs::Pass::is_swept))]
    fn is_swept(&self, unit: &Unit) -> bool
        ensures { result ≡ is_swept self.now.rules self.now.moment unit.now }
    {
        self.is_wanted(&unit.value) && !unit.stamp.is_last()
    }

    #[tactic(auto, unfolding(crate::specs::Pass::is_skipped))]
    fn is_skipped(&self, unit: &Unit) -> bool
        ensures { result ≡ is_skipped self.now.rules self.now.moment unit.now }
    {
        self.is_wanted(&unit.value) && unit.stamp.is_last()
    }

    // The write of a unit that is swept.
    #[tactic(auto, unfolding(crate::specs::Pass::swept, crate::specs::Pass::is_swept))]
    fn swept(&self, alloc: Global, unit: &Unit) -> Result<Option<Write>, OutOfMemory>
        ensures { IfOk result (λ write. write ≡ (if is_swept self.now.rules self.now.moment unit.now then Some (swept self.now.rules self.now.moment self.now.id unit.now) else None)) }
    {
        if !self.is_wanted(&unit.value) {
            return Ok(None);
        }
        let Some(stamp) = unit.stamp.next(self.id, self.moment.seconds()) else {
            return Ok(None);
        };
        let key = unit.key;
        Ok(Some(Write {
            key,
            stamp,
            value: self.becomes(alloc, &unit.value)?,
        }))
    }

    // The writes of a step over these units.
    #[tactic(auto, unfolding(crate::specs::Pass::sweep))]
    pub fn sweep(&self, alloc: Global, looked: &[&Unit]) -> Result<List<Write>, OutOfMemory>
        ensures { IfOk result (λ writes. writes ≡ sweep self.now.rules self.now.moment self.now.id (map (λ unit. unit.now) looked.now)) }
    {
        let mut writes = List::new(alloc);
        for unit in looked {
            if let Some(write) = self.swept(alloc, unit)? {
                writes.push(write)?;
            }
        }
        Ok(writes)
    }

    // How many records a step over these units takes away, at most 2^64 - 1.
    #[tactic(auto, unfolding(crate::specs::Pass::removed_from))]
    pub fn removed_from(&self, looked: &[&Unit]) -> u64
        ensures { result ≡ min (removed_from self.now.rules self.now.moment (map (λ unit. unit.now) looked.now)) (2 ^ 64 - 1) }
    {
        let mut removed: u64 = 0;
        for unit in looked {
            if self.is_swept(unit) {
                removed = removed.saturating_add(self.count_stale(rows_in(&unit.value)) as u64);
            }
        }
        removed
    }

    pub fn count_skipped(&self, looked: &[&Unit]) -> usize
        ensures { result ≡ count_by (is_skipped self.now.rules self.now.moment) (map (λ unit. unit.now) looked.now) }
    {
        looked.iter().filter(|unit| self.is_skipped(unit)).count()
    }
}
