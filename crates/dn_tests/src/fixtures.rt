//! What several tests make their values with.

use dn_io::List;
use dn_name::Name;
use dn_rdata::{Record, check_rdata};
use dn_stamp::{ReplicaId, Stamp};
use dn_store::UnitValue;
use std::alloc::Global;
use std::process::Abort;

/// The type of a text (RFC 1035 3.3.14).
pub const TXT: u16 = 16;

/// The list of these bytes.
pub fn list_of(rt: &impl Abort, alloc: Global, bytes: &[u8]) -> List<u8> {
    let mut list = List::new(alloc);
    list.extend(bytes).expect(rt, "memory");
    list
}

/// The name that a text spells.
pub fn name(rt: &impl Abort, text: &str) -> Name {
    Name::from_text(text.as_bytes())
        .ok()
        .expect(rt, "the text is a name")
}

/// So many zero bytes.
pub fn zeros(rt: &impl Abort, alloc: Global, len: usize) -> Vec<u8> {
    vec![in alloc; 0; len].expect(rt, "memory")
}

/// The record of this type, time to live, hour and data, which are valid for the type.
pub fn record(
    rt: &impl Abort,
    alloc: Global,
    rtype: u16,
    ttl: u32,
    hour: u32,
    rdata: &[u8],
) -> Record {
    assert!(rt; check_rdata(rtype, rdata).is_ok(), "data of type {rtype}");
    Record::make(alloc, rtype, ttl, hour, rdata).expect(rt, "memory")
}

/// The records of these types, hours and data, each with a time to live of 300 seconds.
pub fn live(rt: &impl Abort, alloc: Global, rows: &[(u16, u32, &[u8])]) -> UnitValue {
    let mut list = List::new(alloc);
    for (rtype, hour, rdata) in rows {
        list.push(record(rt, alloc, *rtype, 300, *hour, rdata))
            .expect(rt, "memory");
    }
    UnitValue::Live(list)
}

/// A stamp of this version, written in second 7.
pub fn stamp(version: u32) -> Stamp {
    Stamp {
        version,
        seconds: 7,
        id: ReplicaId([9; 16]),
    }
}

/// The list of one call's number.
pub fn fails_at(rt: &impl Abort, alloc: Global, call: u64) -> List<u64> {
    let mut fails = List::new(alloc);
    fails.push(call).expect(rt, "memory");
    fails
}

/// The bytes are these, in the case that `of` names.
pub fn check_bytes(rt: &impl Abort, found: &[u8], want: &[u8], of: &str) {
    assert_eq!(rt; found, want, "of {of:?}");
}
