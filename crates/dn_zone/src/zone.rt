ghost use Rattle.std.specs.Prelude.{◌≡◌, ◌+◌, ◌≤◌, length, IfOk, IsTrue, option_copied};
ghost use Rattle.std.specs.List.{AllByRecursion};
ghost use Rattle.dn_io.specs.Stepping.{StepsOrStays};
ghost use Rattle.dn_store.specs.Table.{KeysDiffer, change_limit};
ghost use Rattle.dn_store.specs.Value.{fits};
ghost use Rattle.dn_zone.specs.Creation.{created, joined_zone};
ghost use Rattle.dn_zone.specs.Merge.{cursor_of};
ghost use Rattle.dn_zone.specs.Zone.{swept_zone, zstep};
ghost use Rattle.dn_zone.specs.Zone.Preparing.{Prepares};

use crate::creation::{first_properties, first_rows};
use crate::cursors::Cursors;
use crate::event::{Answer, Event};
use dn_io::{Duplicate, List, Moment, OutOfMemory};
use dn_name::Name;
use dn_pass::Pass;
use dn_stamp::{ReplicaId, Stamp};
use dn_store::{Table, UnitKey, UnitValue, Write};
use std::alloc::Global;
use std::marker::Model;

/// A zone on one replica.
#[derive(Drop)]
pub struct Zone {
    pub(crate) id: ReplicaId,
    // The replica's own name, the primary server of the SOA that is answered.
    pub(crate) host: Name,
    // The name of the zone, in lower case.
    pub(crate) apex: Name,
    pub(crate) table: Table,
    // Up to which number of each supplier's changes it has taken.
    pub(crate) cursors: Cursors,
    // The pass that runs.
    pub(crate) pass: Option<Pass>,
}

impl Model for Zone {
    ghost use Rattle.dn_zone.specs.State.{ZoneState};

    ghost Value = { ZoneState };

    ghost view = { λ it. record { id = it.id; host = it.host; apex = it.apex; table = it.table; cursors = it.cursors; pass = it.pass } };
}

/// What an event is about to make of a zone: it stays the same, or becomes another. Either way the event is answered.
#[derive(Drop)]
pub enum Prepared {
    Same(Answer),
    Became(Zone, Answer),
}

impl Zone {
    /// A new zone: its properties, and the NS and SOA records at its apex.
    ///
    /// # Errors
    /// `OutOfMemory`.
    #[tactic(auto, unfolding(crate::specs::Creation::created, crate::specs::Creation::first_writes))]
    pub fn create(
        alloc: Global,
        id: ReplicaId,
        host: Name,
        apex: Name,
        mailbox: Name,
        moment: Moment,
    ) -> Result<Zone, OutOfMemory>
        ensures { IfOk result (λ zone. zone ≡ created id host apex mailbox moment) }
    {
        let apex = apex.lower();
        let stamp = Stamp::first(id, moment.seconds());
        let mut batch = List::new(alloc);
        batch.push(Write {
            key: UnitKey::Props,
            stamp,
            value: UnitValue::Props(first_properties(alloc)?),
        })?;
        batch.push(Write {
            key: UnitKey::Node(apex),
            stamp,
            value: UnitValue::Live(first_rows(alloc, &host, &mailbox)?),
        })?;
        let table = Table::empty(alloc)?.put(&batch)?;
        Ok(Zone {
            id,
            host,
            apex,
            table,
            cursors: Cursors::new(alloc),
            pass: None,
        })
    }

    /// A zone that is copied from another replica: nothing is here yet.
    ///
    /// # Errors
    /// `OutOfMemory`.
    #[tactic(auto, unfolding(crate::specs::Creation::joined_zone))]
    pub fn join(alloc: Global, id: ReplicaId, host: Name, apex: Name) -> Result<Zone, OutOfMemory>
        ensures { IfOk result (λ zone. zone ≡ joined_zone id host apex) }
    {
        Ok(Zone {
            id,
            host,
            apex: apex.lower(),
            table: Table::empty(alloc)?,
            cursors: Cursors::new(alloc),
            pass: None,
        })
    }

    /// The name of the zone, in lower case.
    pub fn apex(&self) -> &Name
        ensures { result.now ≡ self.now.apex }
    {
        &self.apex
    }

    /// The replica's own name.
    pub fn host(&self) -> &Name
        ensures { result.now ≡ self.now.host }
    {
        &self.host
    }

    /// The identity of the replica.
    pub fn id(&self) -> ReplicaId
        ensures { result ≡ self.now.id }
    {
        self.id
    }

    /// The units of the zone.
    pub fn table(&self) -> &Table
        ensures { result.now ≡ self.now.table }
    {
        &self.table
    }

    /// Up to which number of a supplier's changes the zone has taken them, 0 where it took none.
    pub fn cursor(&self, supplier: &ReplicaId) -> u64
        ensures { result ≡ cursor_of supplier.now self.now.cursors }
    {
        self.cursors.of(*supplier)
    }

    /// The pass that runs.
    pub fn pass(&self) -> Option<&Pass>
        ensures { option_copied result ≡ self.now.pass }
    {
        self.pass.as_ref()
    }

    // The zone after these writes, with this pass.
    pub(crate) fn after(
        &self,
        alloc: Global,
        writes: &List<Write>,
        pass: Option<Pass>,
    ) -> Result<Zone, OutOfMemory>
        requires keys { KeysDiffer writes.now }
        requires values { AllByRecursion (λ write. IsTrue (fits write.value)) writes.now }
        requires count { self.now.table.1 + length writes.now ≤ change_limit }
        ensures { IfOk result (λ zone. zone ≡ swept_zone self.now writes.now pass) }
    {
        Ok(Zone {
            id: self.id,
            host: self.host,
            apex: self.apex,
            table: self.table.put(writes)?,
            cursors: self.cursors.copy(alloc)?,
            pass,
        })
    }

    /// What an event is about to make of the zone, which stays as it is.
    ///
    /// # Errors
    /// `OutOfMemory`.
    #[tactic(auto, unfolding(crate::specs::Zone::zstep))]
    pub fn prepare(&self, alloc: Global, event: &Event) -> Result<Prepared, OutOfMemory>
        ensures { IfOk result (λ made. Prepares made self.now (zstep self.now event.now)) }
    {
        match event {
            Event::Admin { cmd, moment } => self.admin(alloc, cmd, *moment),
            Event::Begin { moment } => self.begin(alloc, *moment),
            Event::Step { most } => self.step(alloc, *most),
            Event::Merge { changes } => self.merge(alloc, changes),
        }
    }

    /// Puts in place what an event makes of the zone, and gives its answer.
    pub fn commit(&mut self, made: Prepared) -> Answer
        ensures { Prepares made self.old (self.new, result) }
    {
        match made {
            Prepared::Same(answer) => answer,
            Prepared::Became(zone, answer) => {
                *self = zone;
                answer
            }
        }
    }

    /// What an event makes of the zone, and its answer.
    ///
    /// # Errors
    /// `OutOfMemory`; the zone is then as before.
    pub fn act(&mut self, alloc: Global, event: &Event) -> Result<Answer, OutOfMemory>
        ensures { StepsOrStays result self.old self.new (zstep self.old event.now) }
    {
        let made = self.prepare(alloc, event)?;
        Ok(self.commit(made))
    }
}
