ghost use Rattle.std.specs.Prelude.{◌≡◌, ◌-◌, ◌≤◌, drop, nat_le, if◌then◌else◌, Some, None, IfOk};
ghost use Rattle.dn_pages.specs.Pages.{IsSettled, items, rank};
ghost use Rattle.dn_store.specs.Fronts.{IsFront, above, added, run_above};
ghost use Rattle.dn_store.specs.Numbers.{Rising};
ghost use Rattle.dn_store.specs.Table.{form_size, key_size, last_number};

use crate::held::Held;
use crate::marks::After;
use crate::{ChangeRun, Unit, UnitKey, value_len};
use dn_io::{Duplicate, List, OutOfMemory};
use dn_pages::{Pages, Place};
use std::alloc::Global;

// The bytes of a stamp in a packet.
const STAMP_LEN: usize = 28;

// How many bytes a key takes in a packet.
fn key_len(key: &UnitKey) -> usize
    ensures len { result ≡ key_size key.now }
    ensures most { result ≤ 256 }
{
    match key {
        UnitKey::Props => 1,
        UnitKey::Node(name) => 1 + name.wire_len(),
    }
}

// The room that is left behind a unit; none where there is too little.
fn room_after(room: usize, unit: &Unit) -> Option<usize>
    ensures { result ≡ (if nat_le (form_size unit.now) room then Some (room - form_size unit.now) else None) }
{
    let rest = room.checked_sub(key_len(&unit.key) + STAMP_LEN)?;
    rest.checked_sub(value_len(&unit.value))
}

// Adds a copy of a unit where there is room, and answers the room that is left; none where there is too little.
fn add_unit(
    alloc: Global,
    unit: &Unit,
    room: usize,
    front: &mut List<Unit>,
) -> Result<Option<usize>, OutOfMemory>
    ensures { IfOk result (λ left. added unit.now room front.old ≡ (front.new, left)) }
{
    match room_after(room, unit) {
        None => Ok(None),
        Some(left) => {
            front.push(unit.copy(alloc)?)?;
            Ok(Some(left))
        }
    }
}

// The units of a run, and whether none is left over.
#[derive(Drop)]
struct Front {
    units: List<Unit>,
    whole: bool,
}

// The units from a place on, as far as there is room.
fn front_of(
    alloc: Global,
    changes: &Pages<Held>,
    start: Place,
    room: usize,
) -> Result<Front, OutOfMemory>
    requires { IsSettled changes.now start }
    ensures { IfOk result (λ front. IsFront room (drop (rank changes.now start) (items changes.now)) front.units front.whole) }
{
    let mut found = List::new(alloc);
    let mut left = room;
    let mut place = start;
    while let Some(held) = changes.item_at(place) {
        match add_unit(alloc, held.unit(), left, &mut found)? {
            None => {
                return Ok(Front {
                    units: found,
                    whole: false,
                });
            }
            Some(rest) => {
                left = rest;
            }
        }
        place = changes.next(place);
    }
    Ok(Front {
        units: found,
        whole: true,
    })
}

// The units above a number, as far as there is room.
fn newer_front(
    alloc: Global,
    changes: &Pages<Held>,
    usn: u64,
    room: usize,
) -> Result<Front, OutOfMemory>
    requires { Rising (items changes.now) }
    ensures { IfOk result (λ front. IsFront room (above usn (items changes.now)) front.units front.whole) }
{
    let start = changes.place_of(&After { usn });
    front_of(alloc, changes, start, room)
}

// The number of the last unit, `none` where there is none.
fn last_of(none: u64, units: &[Unit]) -> u64
    ensures { result ≡ last_number none units.now }
{
    let mut last = none;
    for unit in units {
        last = unit.usn;
    }
    last
}

// Up to which number a run goes.
fn end_of(whole: bool, top: u64, none: u64, units: &[Unit]) -> u64
    ensures { result ≡ (if whole then top else last_number none units.now) }
{
    if whole { top } else { last_of(none, units) }
}

// The run of changes above a number, of units that are in the order of their numbers, with this change count.
pub fn run_of(
    alloc: Global,
    usn: u64,
    room: usize,
    top: u64,
    changes: &Pages<Held>,
) -> Result<ChangeRun, OutOfMemory>
    requires { Rising (items changes.now) }
    ensures { IfOk result (λ run. run ≡ run_above usn room top (items changes.now)) }
{
    let front = newer_front(alloc, changes, usn, room)?;
    let to = end_of(front.whole, top, usn, front.units.as_slice());
    Ok(ChangeRun {
        to,
        units: front.units,
    })
}
