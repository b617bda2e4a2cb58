ghost use Rattle.std.specs.Prelude.{◌≡◌, IfOk};
ghost use Rattle.dn_rdata.specs.Layout.{IsData};
ghost use Rattle.dn_rdata.specs.Record.{made};

use dn_io::{Duplicate, List, OutOfMemory};
use std::alloc::Global;

// In this project's profile the rank of every record that a server makes.
const MADE_RANK: u8 = 240;

/// A record of a node, as dnsRecord keeps it (MS-DNSP 2.3.2.2), with its owner's name left out.
#[derive(Drop)]
pub struct Record {
    /// The type (RFC 1035 3.2.2).
    pub rtype: u16,
    /// How far the record is trusted (MS-DNSP 2.3.2.2).
    pub rank: u8,
    /// Kept, and not acted on.
    pub flags: u16,
    /// The serial number of the zone when the record was written (MS-DNSP 2.3.2.2).
    pub serial: u32,
    /// The time to live, in seconds.
    pub ttl: u32,
    /// Kept, and not acted on.
    pub reserved: u32,
    /// The time stamp in hours since 1601-01-01 00:00 UTC, 0 for a record that never ages.
    pub hour: u32,
    /// The data on the wire (RFC 1035 3.3), names without pointers.
    pub rdata: List<u8>,
}

impl Record {
    /// A record as a server makes it in this project's profile: rank 240, serial 1, flags and reserved field 0. The data are valid for their type, as
    /// [`check_rdata`](crate::check_rdata) tells.
    ///
    /// # Errors
    /// `OutOfMemory`.
    pub fn make(
        alloc: Global,
        rtype: u16,
        ttl: u32,
        hour: u32,
        rdata: &[u8],
    ) -> Result<Record, OutOfMemory>
        requires { IsData rtype rdata.now }
        ensures { IfOk result (λ row. row ≡ made rtype ttl hour rdata.now) }
    {
        Record::with_any_data(alloc, rtype, ttl, hour, rdata)
    }

    /// The same of any bytes as data, for a caller that doesn't know them to be valid.
    ///
    /// # Errors
    /// `OutOfMemory`.
    pub fn with_any_data(
        alloc: Global,
        rtype: u16,
        ttl: u32,
        hour: u32,
        rdata: &[u8],
    ) -> Result<Record, OutOfMemory>
        ensures { IfOk result (λ row. row ≡ made rtype ttl hour rdata.now) }
    {
        Ok(Record {
            rtype,
            rank: MADE_RANK,
            flags: 0,
            serial: 1,
            ttl,
            reserved: 0,
            hour,
            rdata: List::from_slice(alloc, rdata)?,
        })
    }
}

impl Duplicate for Record {
    fn copy(&self, alloc: Global) -> Result<Self, OutOfMemory> {
        Ok(Record {
            rtype: self.rtype,
            rank: self.rank,
            flags: self.flags,
            serial: self.serial,
            ttl: self.ttl,
            reserved: self.reserved,
            hour: self.hour,
            rdata: self.rdata.copy(alloc)?,
        })
    }
}
