ghost use Rattle.std.specs.Prelude.{◌≡◌, IfOk};

use crate::unit::Unit;
use dn_io::{Duplicate, OutOfMemory};
use std::alloc::Global;
use std::marker::Model;
use std::sync::Arc;

// A unit that pages share, as contracts see it the unit. A copy is one owner more.
#[derive(Drop)]
pub struct Held {
    unit: Arc<Unit, Global>,
}

impl Model for Held {
    ghost use Rattle.dn_store.specs.declared.unit.Unit as one;

    ghost Value = { one.Unit };

    ghost view = { λ held. held.unit.value };
}

impl Held {
    pub fn of(alloc: Global, unit: Unit) -> Result<Held, OutOfMemory>
        ensures { IfOk result (λ held. held ≡ unit) }
    {
        Ok(Held {
            unit: Arc::new(alloc, unit)?,
        })
    }

    pub fn unit(&self) -> &Unit
        ensures { result.now ≡ self.now }
    {
        &self.unit
    }
}

impl Duplicate for Held {
    fn copy(&self, _alloc: Global) -> Result<Self, OutOfMemory> {
        Ok(Held {
            unit: Arc::try_clone(&self.unit)?,
        })
    }
}
