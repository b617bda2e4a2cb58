ghost use Rattle.std.specs.Prelude.{◌≡◌, ◌≤◌, [], ◌∷◌, ◌++◌, IfOk, IsTrue, OnOk};
ghost use Rattle.dn_name.specs.Name.{wire_of};
ghost use Rattle.dn_rdata.specs.Record.{made};
ghost use Rattle.dn_rdata.specs.Types.{NS, SOA};
ghost use Rattle.dn_store.specs.Value.{fits, row_size};
ghost use Rattle.dn_store.specs.declared.unit.UnitValue.TheVariants as values;
ghost use Rattle.dn_zone.specs.Creation.{first_numbers, first_properties, first_rows};
ghost use Rattle.dn_zone.specs.Settings.{property};

use crate::settings::property;
use dn_io::{List, OutOfMemory};
use dn_name::Name;
use dn_property::{Property, ids};
use dn_rdata::{NS, Record, SOA, push_wire};
use std::alloc::Global;

// Serial 1, refresh 900, retry 600, expire 86400 and minimum 3600 of a new zone's SOA (RFC 1035 3.3.13).
const FIRST_NUMBERS: [u8; 20] = [
    0, 0, 0, 1, 0, 0, 3, 132, 0, 0, 2, 88, 0, 1, 81, 128, 0, 0, 14, 16,
];

// Adds a property as a server makes it.
fn push_property(
    alloc: Global,
    list: &mut List<Property>,
    id: u32,
    content: &[u8],
) -> Result<(), OutOfMemory>
    ensures { OnOk result (list.new ≡ list.old ++ property id content.now ∷ []) }
{
    list.push(property(alloc, id, content)?)
}

// The properties of a new zone.
#[tactic(auto, unfolding(crate::specs::Creation::first_properties))]
pub fn first_properties(alloc: Global) -> Result<List<Property>, OutOfMemory>
    ensures { IfOk result (λ list. list ≡ first_properties) }
{
    let mut list = List::new(alloc);
    push_property(alloc, &mut list, ids::ZONE_TYPE, &[1, 0, 0, 0])?;
    push_property(alloc, &mut list, ids::ALLOW_UPDATE, &[1])?;
    push_property(alloc, &mut list, ids::NOREFRESH_INTERVAL, &[168, 0, 0, 0])?;
    push_property(alloc, &mut list, ids::AGING_ENABLED_TIME, &[0, 0, 0, 0])?;
    push_property(alloc, &mut list, ids::REFRESH_INTERVAL, &[168, 0, 0, 0])?;
    push_property(alloc, &mut list, ids::AGING_STATE, &[0, 0, 0, 0])?;
    Ok(list)
}

// The NS record of a new zone: its server is the replica itself.
fn server_record(alloc: Global, host: &Name) -> Result<Record, OutOfMemory>
    ensures row { IfOk result (λ row. row ≡ made NS 3600 0 (wire_of host.now)) }
    ensures most { IfOk result (λ row. row_size row ≤ 300) }
{
    let mut rdata = List::new(alloc);
    push_wire(&mut rdata, host)?;
    Record::make(alloc, NS, 3600, 0, rdata.as_slice())
}

// The SOA record of a new zone.
#[tactic(auto, unfolding(crate::specs::Creation::first_numbers))]
fn start_record(alloc: Global, host: &Name, mailbox: &Name) -> Result<Record, OutOfMemory>
    ensures row { IfOk result (λ row. row ≡ made SOA 3600 0 (wire_of host.now ++ wire_of mailbox.now ++ first_numbers)) }
    ensures most { IfOk result (λ row. row_size row ≤ 600) }
{
    let mut rdata = List::new(alloc);
    push_wire(&mut rdata, host)?;
    push_wire(&mut rdata, mailbox)?;
    rdata.extend(&FIRST_NUMBERS)?;
    Record::make(alloc, SOA, 3600, 0, rdata.as_slice())
}

// The records at the apex of a new zone.
#[tactic(auto, unfolding(crate::specs::Creation::first_rows))]
pub fn first_rows(alloc: Global, host: &Name, mailbox: &Name) -> Result<List<Record>, OutOfMemory>
    ensures rows { IfOk result (λ rows. rows ≡ first_rows host.now mailbox.now) }
    ensures fits { IfOk result (λ rows. IsTrue (fits (values.Live rows))) }
{
    let mut rows = List::new(alloc);
    rows.push(server_record(alloc, host)?)?;
    rows.push(start_record(alloc, host, mailbox)?)?;
    Ok(rows)
}
