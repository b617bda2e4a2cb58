ghost use Rattle.std.specs.Prelude.{◌≡◌};
ghost use Rattle.dn_store.specs.Contents.{properties_of, props_number, rows_at, rows_in};

use crate::table::Table;
use crate::unit::{Unit, UnitKey, UnitValue};
use dn_property::Property;
use dn_rdata::Record;

/// The records of a node, none where the value isn't a node's with records.
pub fn rows_in(value: &UnitValue) -> &[Record]
    ensures { result.now ≡ rows_in value.now }
{
    match value {
        UnitValue::Live(rows) => rows.as_slice(),
        _ => &[],
    }
}

/// The records of the node at a key.
#[tactic(auto, unfolding(crate::specs::Contents::rows_at))]
pub fn rows_at<'a>(table: &'a Table, key: &UnitKey) -> &'a [Record]
    ensures { result.now ≡ rows_at key.now table.now.0 }
{
    match table.find(key) {
        Some(unit) => rows_in(&unit.value),
        None => &[],
    }
}

/// The zone's property list.
#[tactic(auto, unfolding(crate::specs::Contents::properties_of))]
pub fn properties_of(table: &Table) -> &[Property]
    ensures { result.now ≡ properties_of table.now.0 }
{
    match table.find(&UnitKey::Props) {
        Some(
            Unit {
                value: UnitValue::Props(list),
                ..
            },
        ) => list.as_slice(),
        _ => &[],
    }
}

/// The change number of the zone's property list, 0 where it has none.
#[tactic(auto, unfolding(crate::specs::Contents::props_number))]
pub fn props_number(table: &Table) -> u64
    ensures { result ≡ props_number table.now.0 }
{
    match table.find(&UnitKey::Props) {
        Some(unit) => unit.usn,
        None => 0,
    }
}
