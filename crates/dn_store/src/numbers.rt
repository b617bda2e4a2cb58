ghost use Rattle.std.specs.Prelude.{◌≡◌, ◌++◌, ◌∷◌, [], IfOk, option_copied};
ghost use Rattle.dn_pages.specs.Pages.{items};
ghost use Rattle.dn_store.specs.Numbers.{Rising, has_number, without, without_at};

use crate::held::Held;
use crate::marks::From;
use dn_io::OutOfMemory;
use dn_pages::Draft;

fn is_numbered(held: Option<&Held>, usn: u64) -> bool
    ensures { result ≡ has_number usn (option_copied held.entry) }
{
    match held {
        None => false,
        Some(held) => held.unit().usn == usn,
    }
}

// The units without that of a number.
fn forget(changes: Draft<Held>, usn: u64) -> Result<Draft<Held>, OutOfMemory>
    requires { Rising (items changes) }
    ensures { IfOk result (λ rest. items rest ≡ without usn (items changes)) }
{
    let place = changes.place_of(&From { usn });
    if is_numbered(changes.item_at(place), usn) {
        changes.remove(place)
    } else {
        Ok(changes)
    }
}

// The units without that of the old number, if there is one, and with a unit behind all others.
pub fn renumber(
    changes: Draft<Held>,
    old: Option<u64>,
    unit: Held,
) -> Result<Draft<Held>, OutOfMemory>
    requires { Rising (items changes) }
    ensures { IfOk result (λ later. items later ≡ without_at old (items changes) ++ unit ∷ []) }
{
    match old {
        None => changes.push(unit),
        Some(number) => forget(changes, number)?.push(unit),
    }
}
