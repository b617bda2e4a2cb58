//! Stored records as values.

ghost use Rattle.std.specs.Prelude.{◌≡◌, ◌++◌, IfOk, OnOk, Option};
ghost use Rattle.dn_rdata.specs.Stored.{wires_of};
ghost use Rattle.dn_record.specs.Names.{name_or_none};
ghost use Rattle.dn_record.specs.Parts.{wire_of_parts};
ghost use Rattle.dn_record.specs.Reads.{ReadsRecord};

use crate::error::{RecordError, RecordFault, RecordReadError};
use crate::header::read_header;
use crate::parts::{DataParts, parts_of_stored};
use crate::view::DATA_PLACE;
use dn_io::{List, OutOfMemory};
use dn_name::Name;
use dn_rdata::{Record, push_wire};
use std::alloc::Global;

/// Reads a stored record from all of the bytes (MS-DNSP 2.3.2.2).
///
/// # Errors
/// `Bad` where they are none, with the kind and the place of what is wrong first: the header is cut, it says another number of
/// bytes of data than stand behind it, the version isn't 5, the data aren't of their type's stored form. `OutOfMemory`.
pub fn read_record(alloc: Global, bytes: &[u8]) -> Result<Record, RecordReadError>
    ensures exact { ReadsRecord bytes.now result }
{
    let view = read_header(bytes)?;
    let Some(parts) = parts_of_stored(view.rtype, view.stored) else {
        return Err(RecordReadError::Bad(RecordError {
            place: DATA_PLACE,
            kind: RecordFault::BadData,
        }));
    };
    let rdata = wire_of(alloc, &parts)?;
    Ok(Record {
        rtype: view.rtype,
        rank: view.rank,
        flags: view.flags,
        serial: view.serial,
        ttl: view.ttl,
        reserved: view.reserved,
        hour: view.hour,
        rdata,
    })
}

fn wire_of(alloc: Global, parts: &DataParts<'_>) -> Result<List<u8>, OutOfMemory>
    ensures { IfOk result (λ rdata. rdata ≡ wire_of_parts parts.now) }
{
    let mut rdata = List::new(alloc);
    rdata.extend(parts.before)?;
    add_name(&mut rdata, &parts.first)?;
    add_name(&mut rdata, &parts.second)?;
    rdata.extend(parts.behind)?;
    Ok(rdata)
}

fn add_name(out: &mut List<u8>, name: &Option<Name>) -> Result<(), OutOfMemory>
    ensures { OnOk result (out.new ≡ out.old ++ wires_of (name_or_none name.now)) }
{
    match name {
        Some(name) => push_wire(out, name),
        None => Ok(()),
    }
}
