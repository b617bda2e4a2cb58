ghost use Rattle.std.specs.Prelude.{◌≡◌, map, IfOk};
ghost use Rattle.dn_store.specs.Table.{write_of};
ghost use Rattle.dn_zone.specs.Merge.{changes_of};

use dn_io::{Duplicate, List, OutOfMemory};
use dn_link::{CHANGES_ROOM, Changes, Packet};
use dn_name::Name;
use dn_stamp::ReplicaId;
use dn_store::{Table, Unit, Write};
use std::alloc::Global;

// The units as writes, in memory of their own.
fn writes_of(alloc: Global, units: &[Unit]) -> Result<List<Write>, OutOfMemory>
    ensures { IfOk result (λ writes. writes ≡ map write_of units.now) }
{
    let mut writes = List::new(alloc);
    for unit in units {
        writes.push(Write {
            key: unit.key,
            stamp: unit.stamp,
            value: unit.value.copy(alloc)?,
        })?;
    }
    Ok(writes)
}

// The changes of a table above a number, as many as there is room for.
#[tactic(auto, unfolding(crate::specs::Merge::changes_of))]
fn run_of(
    alloc: Global,
    table: &Table,
    apex: Name,
    supplier: ReplicaId,
    after: u64,
) -> Result<Changes, OutOfMemory>
    ensures { IfOk result (λ changes. changes ≡ changes_of table.now apex supplier after) }
{
    let from = after.min(table.top());
    let run = table.changes_after(from, CHANGES_ROOM)?;
    let units = writes_of(alloc, run.units.as_slice())?;
    Ok(Changes {
        zone: apex,
        supplier,
        from,
        to: run.to,
        units,
    })
}

/// The changes of a zone's table above a number, or above its change count where that is smaller, as a packet of the replica.
/// `apex` is the zone's name in lower case.
///
/// # Errors
/// `OutOfMemory`.
pub fn changes_of(
    alloc: Global,
    table: &Table,
    apex: &Name,
    id: ReplicaId,
    after: u64,
) -> Result<Packet, OutOfMemory>
    ensures { IfOk result (λ packet. packet ≡ Packet.Changes (changes_of table.now apex.now id after)) }
{
    Ok(Packet::Changes(run_of(alloc, table, *apex, id, after)?))
}
