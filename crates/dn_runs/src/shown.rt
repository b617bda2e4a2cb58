//! Records, values, units and writes as text.

use crate::reading::push_bytes;
use dn_io::{List, OutOfMemory};
use dn_property::{Property, ZoneRules};
use dn_rdata::Record;
use dn_stamp::Stamp;
use dn_store::{Unit, UnitKey, UnitValue, Write};
use dn_word::{push_count, push_name};
use std::alloc::Global;

/// Adds records, each as ` TYPE/TTL/HOUR/DATA`.
pub fn push_rows(alloc: Global, rows: &[Record], out: &mut List<u8>) -> Result<(), OutOfMemory> {
    for row in rows {
        push_count(alloc, out, b" ", u64::from(row.rtype))?;
        push_count(alloc, out, b"/", u64::from(row.ttl))?;
        push_count(alloc, out, b"/", u64::from(row.hour))?;
        out.extend(b"/")?;
        push_bytes(alloc, out, row.rdata.as_slice())?;
    }
    Ok(())
}

/// Adds properties, each as ` NAME/FLAG/ID/CONTENT/TAIL`.
pub fn push_properties(
    alloc: Global,
    list: &[Property],
    out: &mut List<u8>,
) -> Result<(), OutOfMemory> {
    for item in list {
        push_count(alloc, out, b" ", u64::from(item.name_length))?;
        push_count(alloc, out, b"/", u64::from(item.flag))?;
        push_count(alloc, out, b"/", u64::from(item.id))?;
        out.extend(b"/")?;
        push_bytes(alloc, out, item.content.as_slice())?;
        out.extend(b"/")?;
        push_bytes(alloc, out, item.tail.as_slice())?;
    }
    Ok(())
}

/// Adds a value, behind a space.
pub fn push_value(alloc: Global, value: &UnitValue, out: &mut List<u8>) -> Result<(), OutOfMemory> {
    match value {
        UnitValue::Props(list) => {
            out.extend(b" properties")?;
            push_properties(alloc, list.as_slice(), out)
        }
        UnitValue::Live(rows) => {
            out.extend(b" live")?;
            push_rows(alloc, rows.as_slice(), out)
        }
        UnitValue::Tombstone(ticks) => push_count(alloc, out, b" tombstone ", *ticks),
        UnitValue::Gone => out.extend(b" gone"),
    }
}

/// Adds the version, the second and the replica of a stamp.
pub fn push_stamp(alloc: Global, stamp: Stamp, out: &mut List<u8>) -> Result<(), OutOfMemory> {
    push_count(alloc, out, b" version ", u64::from(stamp.version))?;
    push_count(alloc, out, b" second ", stamp.seconds)?;
    push_count(alloc, out, b" by ", u64::from(stamp.id.0[0]))
}

/// Adds a key.
pub fn push_key(key: &UnitKey, out: &mut List<u8>) -> Result<(), OutOfMemory> {
    match key {
        UnitKey::Props => out.extend(b"properties"),
        UnitKey::Node(name) => push_name(out, name),
    }
}

/// Adds a unit without its key.
pub fn push_unit(alloc: Global, unit: &Unit, out: &mut List<u8>) -> Result<(), OutOfMemory> {
    push_count(alloc, out, b"number ", unit.usn)?;
    push_stamp(alloc, unit.stamp, out)?;
    push_value(alloc, &unit.value, out)
}

/// Adds a write.
pub fn push_write(alloc: Global, write: &Write, out: &mut List<u8>) -> Result<(), OutOfMemory> {
    push_key(&write.key, out)?;
    push_stamp(alloc, write.stamp, out)?;
    push_value(alloc, &write.value, out)
}

/// Adds writes, with a bar behind each.
pub fn push_writes(alloc: Global, writes: &[Write], out: &mut List<u8>) -> Result<(), OutOfMemory> {
    for write in writes {
        push_write(alloc, write, out)?;
        out.extend(b" | ")?;
    }
    Ok(())
}

/// Adds the rules of a zone.
pub fn push_rules(alloc: Global, rules: ZoneRules, out: &mut List<u8>) -> Result<(), OutOfMemory> {
    push_count(alloc, out, b"allow ", u64::from(rules.allow))?;
    out.extend(if rules.aging {
        b" aging yes"
    } else {
        b" aging no"
    })?;
    push_count(alloc, out, b" norefresh ", u64::from(rules.norefresh))?;
    push_count(alloc, out, b" refresh ", u64::from(rules.refresh))?;
    push_count(alloc, out, b" available ", u64::from(rules.available))
}
