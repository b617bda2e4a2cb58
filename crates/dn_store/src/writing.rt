ghost use Rattle.std.specs.Prelude.{◌≡◌, ◌+◌, ◌≤◌, IfOk, is_some, length, slice_get};
ghost use Rattle.dn_pages.specs.Pages.{IsInside, IsSettled, items, rank};
ghost use Rattle.dn_store.specs.Numbers.{IsKept};
ghost use Rattle.dn_store.specs.Places.{picked, place_among};
ghost use Rattle.dn_store.specs.Table.{change_limit, numbered, placed, units_after};

use crate::finding::number_with;
use crate::held::Held;
use crate::numbers::renumber;
use crate::unit::{Unit, Write};
use dn_io::{Duplicate, OutOfMemory};
use dn_pages::{Draft, Place};
use std::alloc::Global;

// A table that changes: its units in the order of their keys, and the same units in the order of their numbers.
#[derive(Drop)]
pub struct Drafts {
    pub units: Draft<Held>,
    pub changes: Draft<Held>,
}

// Puts a unit into the place of its key.
fn put_at(
    units: Draft<Held>,
    place: Place,
    replaces: bool,
    unit: Held,
) -> Result<Draft<Held>, OutOfMemory>
    requires at { rank units place ≡ place_among unit.key (items units) }
    requires inside { IsInside units place }
    requires settled { IsSettled units place }
    requires there { replaces ≡ is_some (picked unit.key (slice_get (items units) (rank units place))) }
    ensures { IfOk result (λ later. items later ≡ placed unit (items units)) }
{
    if replaces {
        units.set(place, unit)
    } else {
        units.insert(place, unit)
    }
}

// Puts a unit into the place of its key, and behind all others by its number.
fn take_unit(alloc: Global, drafts: Drafts, unit: Unit, top: u64) -> Result<Drafts, OutOfMemory>
    requires next { unit.usn ≡ top + 1 }
    requires kept { IsKept (items drafts.units) (items drafts.changes) top }
    ensures placed { IfOk result (λ later. items later.units ≡ placed unit (items drafts.units)) }
    ensures kept { IfOk result (λ later. IsKept (items later.units) (items later.changes) (top + 1)) }
{
    let Drafts { units, changes } = drafts;
    let place = units.place_of(&unit.key);
    let old = number_with(units.item_at(place), &unit.key);
    let held = Held::of(alloc, unit)?;
    let again = held.copy(alloc)?;
    let changes = renumber(changes, old, again)?;
    let units = put_at(units, place, old.is_some(), held)?;
    Ok(Drafts { units, changes })
}

// A copy of what the write brings, under its number.
fn numbered(alloc: Global, number: u64, write: &Write) -> Result<Unit, OutOfMemory>
    ensures { IfOk result (λ unit. unit ≡ numbered number write.now) }
{
    let key = write.key;
    Ok(Unit {
        usn: number,
        key,
        stamp: write.stamp,
        value: write.value.copy(alloc)?,
    })
}

// Puts each write into its place, the first under the number behind `top`.
pub fn take_writes(
    alloc: Global,
    start: Drafts,
    top: u64,
    batch: &[Write],
) -> Result<Drafts, OutOfMemory>
    requires most { top + length batch.now ≤ change_limit }
    requires kept { IsKept (items start.units) (items start.changes) top }
    ensures taken { IfOk result (λ later. items later.units ≡ units_after (items start.units) top batch.now) }
    ensures kept { IfOk result (λ later. IsKept (items later.units) (items later.changes) (top + length batch.now)) }
{
    let mut drafts = start;
    let mut number = top;
    for write in batch {
        let unit = numbered(alloc, number + 1, write)?;
        drafts = take_unit(alloc, drafts, unit, number)?;
        number += 1;
    }
    Ok(drafts)
}
