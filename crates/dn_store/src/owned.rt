use dn_io::{Duplicate, OutOfMemory};
use dn_name::Name;
use dn_rdata::Record;
use std::alloc::Global;

/// A record under the name of its node: a row of the zone.
#[derive(Drop)]
pub struct Owned {
    pub name: Name,
    pub row: Record,
}

impl Duplicate for Owned {
    fn copy(&self, alloc: Global) -> Result<Self, OutOfMemory> {
        Ok(Owned {
            name: self.name,
            row: self.row.copy(alloc)?,
        })
    }
}
