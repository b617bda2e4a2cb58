ghost use Rattle.std.specs.Prelude.{◌≡◌, Some, option_copied, option_map};
ghost use Rattle.dn_pages.specs.Pages.{items};
ghost use Rattle.dn_store.specs.Places.{picked};
ghost use Rattle.dn_store.specs.Table.{KeysGrow, unit_above, unit_at};

use crate::held::Held;
use crate::marks::Past;
use crate::order::compare_keys;
use crate::unit::{Unit, UnitKey};
use dn_pages::Pages;

fn unit_of(held: Option<&Held>) -> Option<&Unit>
    ensures { option_copied result ≡ option_copied held.entry }
{
    Some(held?.unit())
}

// The unit, where it has the key.
pub fn unit_with<'a>(held: Option<&'a Held>, key: &UnitKey) -> Option<&'a Unit>
    ensures { option_copied result ≡ picked key.now (option_copied held.entry) }
{
    let unit = held?.unit();
    if compare_keys(key, &unit.key).is_eq() {
        Some(unit)
    } else {
        None
    }
}

// The number of the unit, where it has the key.
pub fn number_with(held: Option<&Held>, key: &UnitKey) -> Option<u64>
    ensures { result ≡ option_map (λ unit. unit.usn) (picked key.now (option_copied held.entry)) }
{
    let unit = unit_with(held, key)?;
    Some(unit.usn)
}

// The unit of a key.
pub fn find_key<'a>(units: &'a Pages<Held>, key: &UnitKey) -> Option<&'a Unit>
    requires { KeysGrow (items units.now) }
    ensures { option_copied result ≡ unit_at key.now (items units.now) }
{
    let place = units.place_of(key);
    unit_with(units.item_at(place), key)
}

// The first unit whose key is above the key.
fn find_past<'a>(units: &'a Pages<Held>, key: &UnitKey) -> Option<&'a Unit>
    requires { KeysGrow (items units.now) }
    ensures { option_copied result ≡ unit_above (Some key.now) (items units.now) }
{
    let key = *key;
    let place = units.place_of(&Past { key });
    unit_of(units.item_at(place))
}

// The first unit whose key is above the key, the first of all where no key is given.
pub fn find_above<'a>(units: &'a Pages<Held>, key: Option<&UnitKey>) -> Option<&'a Unit>
    requires { KeysGrow (items units.now) }
    ensures { option_copied result ≡ unit_above (option_copied key.entry) (items units.now) }
{
    match key {
        None => unit_of(units.first()),
        Some(key) => find_past(units, key),
    }
}
