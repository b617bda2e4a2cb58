ghost use Rattle.std.specs.Prelude.{◌≡◌, ◌++◌, map, IfOk, OnOk};
ghost use Rattle.dn_store.specs.Rows.{of_type, owned_by, rows_of_node};

use dn_io::{Duplicate, List, OutOfMemory};
use dn_name::Name;
use dn_rdata::Record;
use dn_store::{Owned, Unit, UnitKey, UnitValue};
use std::alloc::Global;

// Adds copies of the records of a node at the end, each under the node's name.
fn push_rows(
    alloc: Global,
    list: &mut List<Owned>,
    name: &Name,
    rows: &[Record],
) -> Result<(), OutOfMemory>
    ensures { OnOk result (list.new ≡ list.old ++ map (owned_by name.now) rows.now) }
{
    for row in rows {
        list.push(Owned {
            name: *name,
            row: row.copy(alloc)?,
        })?;
    }
    Ok(())
}

// Adds the rows of a unit at the end.
//
// # Errors
// `OutOfMemory`.
pub fn push_node(alloc: Global, list: &mut List<Owned>, unit: &Unit) -> Result<(), OutOfMemory>
    ensures { OnOk result (list.new ≡ list.old ++ rows_of_node unit.now) }
{
    match (&unit.key, &unit.value) {
        (UnitKey::Node(name), UnitValue::Live(rows)) => {
            push_rows(alloc, list, name, rows.as_slice())
        }
        _ => Ok(()),
    }
}

// The rows of a type.
//
// # Errors
// `OutOfMemory`.
#[tactic(auto, unfolding(dn_store::specs::Rows::of_type))]
pub fn of_type(alloc: Global, rtype: u16, rows: &[Owned]) -> Result<List<Owned>, OutOfMemory>
    ensures { IfOk result (λ found. found ≡ of_type rtype rows.now) }
{
    let mut found = List::new(alloc);
    for one in rows {
        if one.row.rtype == rtype {
            found.push(one.copy(alloc)?)?;
        }
    }
    Ok(found)
}
