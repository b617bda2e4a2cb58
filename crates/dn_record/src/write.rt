//! Stored records as bytes.

ghost use Rattle.std.specs.Prelude.{◌≡◌, ◌+◌, ◌<◌, ◌^◌, ◌++◌, IfOk, OnOk};
ghost use Rattle.dn_name.specs.Counted.{counted_of};
ghost use Rattle.dn_name.specs.Name.{IsName};
ghost use Rattle.dn_rdata.specs.Layout.{IsData};
ghost use Rattle.dn_rdata.specs.Record.{stored_size};
ghost use Rattle.dn_rdata.specs.Stored.{IsStored, counteds_of};
ghost use Rattle.dn_record.specs.Layout.{IsRecord, header_of};
ghost use Rattle.dn_record.specs.Fields.{four_big, four_little, two_little};
ghost use Rattle.dn_record.specs.Names.{name_or_none};
ghost use Rattle.dn_record.specs.Parts.{stored_of_parts};

use crate::header::VERSION;
use crate::number;
use crate::parts::{DataParts, parts_of_wire};
use crate::view::DATA_PLACE;
use dn_io::{List, OutOfMemory};
use dn_name::{Name, NoRoom};
use dn_rdata::{Record, stored_len};
use std::alloc::Global;

/// The bytes of a stored record (MS-DNSP 2.3.2.2). Its data are valid for its type, as
/// [`check_rdata`](dn_rdata::check_rdata) tells, and have at most 65,535 bytes as they are stored.
///
/// # Errors
/// `OutOfMemory`.
pub fn write_record(alloc: Global, item: &Record) -> Result<List<u8>, OutOfMemory>
    requires valid { IsData item.now.rtype item.now.rdata }
    requires len { stored_size item.now < 24 + 2 ^ 16 }
    ensures { IfOk result (λ bytes. IsRecord bytes item.now) }
{
    let mut out = List::new(alloc);
    add_header(&mut out, item, (stored_len(item) - DATA_PLACE) as u16)?;
    match parts_of_wire(item.rtype, item.rdata.as_slice()) {
        Some(parts) => add_stored(&mut out, &parts)?,
        None => unreachable!(),
    }
    Ok(out)
}

// Adds the header of a record whose stored data have so many bytes.
fn add_header(out: &mut List<u8>, item: &Record, len: u16) -> Result<(), OutOfMemory>
    ensures { OnOk result (out.new ≡ out.old ++ header_of item.now len) }
{
    out.extend(&number::two_little(len))?;
    out.extend(&number::two_little(item.rtype))?;
    out.extend(&[VERSION, item.rank])?;
    out.extend(&number::two_little(item.flags))?;
    add_numbers(out, item)
}

fn add_numbers(out: &mut List<u8>, item: &Record) -> Result<(), OutOfMemory>
    ensures { OnOk result (out.new ≡ out.old ++ (four_little item.now.serial ++ (four_big item.now.ttl ++ (four_little item.now.reserved ++ four_little item.now.hour)))) }
{
    out.extend(&number::four_little(item.serial))?;
    out.extend(&number::four_big(item.ttl))?;
    out.extend(&number::four_little(item.reserved))?;
    out.extend(&number::four_little(item.hour))
}

fn add_stored(out: &mut List<u8>, parts: &DataParts<'_>) -> Result<(), OutOfMemory>
    ensures { OnOk result (out.new ≡ out.old ++ stored_of_parts parts.now) }
{
    out.extend(parts.before)?;
    out.extend(parts.behind)?;
    add_count(out, &parts.first)?;
    add_count(out, &parts.second)
}

fn add_count(out: &mut List<u8>, name: &Option<Name>) -> Result<(), OutOfMemory>
    ensures { OnOk result (out.new ≡ out.old ++ counteds_of (name_or_none name.now)) }
{
    match name {
        Some(name) => push_count(out, name),
        None => Ok(()),
    }
}

fn push_count(out: &mut List<u8>, name: &Name) -> Result<(), OutOfMemory>
    ensures bytes { OnOk result (out.new ≡ out.old ++ counted_of name.now) }
    ensures named { IsName name.now }
{
    let mut counted = [0u8; 257];
    match name.write_count(&mut counted, 0) {
        Ok(len) => out.extend(&counted[..len]),
        Err(NoRoom) => unreachable!(),
    }
}
