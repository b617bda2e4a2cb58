//! Keys, records and values by their words. A key is `properties` or a name; a record `TYPE/TTL/HOUR/DATA`, as a server makes
//! it, whether or not its data are valid; a value `gone`, `tombstone TICKS`, `live RECORD ..` or `properties ID=NUMBER ..`.

use crate::reading::{bytes_of, number16, number32};
use dn_io::List;
use dn_property::Property;
use dn_rdata::{Record, check_rdata};
use dn_stamp::{ReplicaId, Stamp};
use dn_store::{UnitKey, UnitValue};
use dn_word::{cut, is_word, name_of, number_within, parts_between};
use std::alloc::Global;

/// The replica that writes.
pub const OWN: ReplicaId = ReplicaId([1; 16]);

/// A stamp of this version, written by another in second 7.
pub fn stamp(version: u32) -> Stamp {
    Stamp {
        version,
        seconds: 7,
        id: ReplicaId([9; 16]),
    }
}

/// The key that a word is.
pub fn key_of(word: &[u8]) -> Option<UnitKey> {
    if is_word(word, b"properties") {
        Some(UnitKey::Props)
    } else {
        name_of(word).map(UnitKey::Node)
    }
}

fn made(alloc: Global, rtype: &[u8], ttl: &[u8], hour: &[u8], rdata: &[u8]) -> Option<Record> {
    let rdata = bytes_of(alloc, rdata)?;
    let (rtype, ttl, hour) = (number16(rtype)?, number32(ttl)?, number32(hour)?);
    if check_rdata(rtype, rdata.as_slice()).is_ok() {
        Record::make(alloc, rtype, ttl, hour, rdata.as_slice()).ok()
    } else {
        Record::with_any_data(alloc, rtype, ttl, hour, rdata.as_slice()).ok()
    }
}

/// The record that a word is.
pub fn row_of(alloc: Global, word: &[u8]) -> Option<Record> {
    let parts = parts_between(alloc, word, b'/').ok()?;
    match parts.as_slice() {
        [rtype, ttl, hour, rdata] => made(alloc, rtype, ttl, hour, rdata),
        _ => None,
    }
}

/// The records that words are.
pub fn rows_of(alloc: Global, words: &[&[u8]]) -> Option<List<Record>> {
    let mut rows = List::new(alloc);
    for word in words {
        rows.push(row_of(alloc, word)?).ok()?;
    }
    Some(rows)
}

// The property of four bytes that a word `ID=NUMBER` is.
fn property_of(alloc: Global, word: &[u8]) -> Option<Property> {
    let (id, number) = cut(word, b'=')?;
    let number = number32(number)?;
    Some(Property {
        name_length: 1,
        flag: 0,
        id: number32(id)?,
        content: List::from_slice(alloc, &number.to_le_bytes()).ok()?,
        tail: List::from_slice(alloc, &[0]).ok()?,
    })
}

fn properties_of(alloc: Global, words: &[&[u8]]) -> Option<List<Property>> {
    let mut list = List::new(alloc);
    for word in words {
        list.push(property_of(alloc, word)?).ok()?;
    }
    Some(list)
}

/// The value that words are.
pub fn value_of(alloc: Global, words: &[&[u8]]) -> Option<UnitValue> {
    let (kind, rest) = words.split_first()?;
    if is_word(kind, b"gone") {
        Some(UnitValue::Gone)
    } else if is_word(kind, b"tombstone") {
        let ticks = rest.first()?;
        number_within(u64::MAX, ticks).map(UnitValue::Tombstone)
    } else if is_word(kind, b"live") {
        rows_of(alloc, rest).map(UnitValue::Live)
    } else {
        properties_of(alloc, rest).map(UnitValue::Props)
    }
}
