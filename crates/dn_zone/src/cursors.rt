ghost use Rattle.std.specs.Prelude.{◌≡◌, [], IfOk};
ghost use Rattle.dn_zone.specs.Merge.{cursor_of, with_cursor};

use dn_io::{Duplicate, OutOfMemory};
use dn_stamp::ReplicaId;
use indexmap::IndexMap;
use std::alloc::Global;
use std::marker::Model;

/// Up to which number of each supplier's changes a zone has taken, in the order in which the suppliers came.
#[derive(Drop)]
pub struct Cursors {
    map: IndexMap<ReplicaId, u64>,
}

impl Model for Cursors {
    ghost use Rattle.std.specs.Prelude.{ℕ, List as Seq};
    ghost use Rattle.dn_stamp.specs.declared.stamp.ReplicaId.{ReplicaId};

    ghost Value = { Seq (ReplicaId × ℕ) };

    ghost view = { λ cursors. cursors.map.entries };
}

impl Cursors {
    /// No cursors.
    pub fn new(alloc: Global) -> Cursors
        ensures { result ≡ [] }
    {
        Cursors {
            map: IndexMap::new(alloc),
        }
    }

    /// The cursor of a supplier, 0 where there is none.
    pub fn of(&self, supplier: ReplicaId) -> u64
        ensures { result ≡ cursor_of supplier self.now }
    {
        self.map.get(&supplier).copied().unwrap_or(0)
    }

    /// The cursors after one moved to a number.
    ///
    /// # Errors
    /// `OutOfMemory`.
    #[tactic(auto, unfolding(crate::specs::Merge::with_cursor))]
    pub fn with(
        &self,
        alloc: Global,
        supplier: ReplicaId,
        seen: u64,
    ) -> Result<Cursors, OutOfMemory>
        ensures { IfOk result (λ moved. moved ≡ with_cursor supplier seen self.now) }
    {
        let mut moved = self.copy(alloc)?;
        // A cursor that stays is left out of the map if it isn't there, so that the state stays too.
        if self.of(supplier) == seen {
            return Ok(moved);
        }
        moved.map.insert(supplier, seen)?;
        Ok(moved)
    }
}

impl Duplicate for Cursors {
    fn copy(&self, _alloc: Global) -> Result<Self, OutOfMemory> {
        Ok(Cursors {
            map: self.map.clone()?,
        })
    }
}
