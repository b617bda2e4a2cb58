use dn_io::{Duplicate, List, OutOfMemory};
use std::alloc::Global;

/// A property of a zone, as dnsProperty keeps it (MS-DNSP 2.3.2.1).
#[derive(Drop)]
pub struct Property {
    /// Kept, and not acted on.
    pub name_length: u32,
    /// Kept, and not acted on.
    pub flag: u32,
    /// What the property is about: one of [`ids`](crate::ids), or any other number.
    pub id: u32,
    pub content: List<u8>,
    /// In this project's profile 1 to 4 bytes behind the content, kept and not acted on.
    pub tail: List<u8>,
}

impl Duplicate for Property {
    fn copy(&self, alloc: Global) -> Result<Self, OutOfMemory> {
        Ok(Property {
            name_length: self.name_length,
            flag: self.flag,
            id: self.id,
            content: self.content.copy(alloc)?,
            tail: self.tail.copy(alloc)?,
        })
    }
}
