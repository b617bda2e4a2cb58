use dn_io::{Duplicate, List, OutOfMemory};
use dn_name::Name;
use dn_property::Property;
use dn_rdata::Record;
use dn_stamp::Stamp;
use std::alloc::Global;

/// What a unit of a zone is about: the zone's property list, or a node by its name in lower case.
#[derive(Clone, Copy)]
pub enum UnitKey {
    Props,
    Node(Name),
}

/// The value of a unit.
#[derive(Drop)]
pub enum UnitValue {
    /// The zone's properties, by growing ids.
    Props(List<Property>),
    /// The records of a node, in order.
    Live(List<Record>),
    /// A node without records, since this moment in ticks of 100 ns since 1601-01-01 (MS-DNSP 2.2.2.2.4.23).
    Tombstone(u64),
    /// A node of which nothing is left but its stamp.
    Gone,
}

/// A write of a unit.
#[derive(Drop)]
pub struct Write {
    pub key: UnitKey,
    pub stamp: Stamp,
    pub value: UnitValue,
}

/// A unit under the number of its newest change on a replica.
#[derive(Drop)]
pub struct Unit {
    pub usn: u64,
    pub key: UnitKey,
    pub stamp: Stamp,
    pub value: UnitValue,
}

impl Duplicate for UnitValue {
    fn copy(&self, alloc: Global) -> Result<Self, OutOfMemory> {
        match self {
            UnitValue::Props(list) => Ok(UnitValue::Props(list.copy(alloc)?)),
            UnitValue::Live(rows) => Ok(UnitValue::Live(rows.copy(alloc)?)),
            UnitValue::Tombstone(ticks) => Ok(UnitValue::Tombstone(*ticks)),
            UnitValue::Gone => Ok(UnitValue::Gone),
        }
    }
}

impl Duplicate for Write {
    fn copy(&self, alloc: Global) -> Result<Self, OutOfMemory> {
        let key = self.key;
        Ok(Write {
            key,
            stamp: self.stamp,
            value: self.value.copy(alloc)?,
        })
    }
}

impl Duplicate for Unit {
    fn copy(&self, alloc: Global) -> Result<Self, OutOfMemory> {
        let key = self.key;
        Ok(Unit {
            usn: self.usn,
            key,
            stamp: self.stamp,
            value: self.value.copy(alloc)?,
        })
    }
}
