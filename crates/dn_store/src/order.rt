ghost use Rattle.std.specs.Prelude.{◌≡◌};
ghost use Rattle.dn_store.specs.Value.{key_order};

use crate::UnitKey;
use std::cmp::Ordering;

// The key of the property list, then the names in their order.
pub fn compare_keys(left: &UnitKey, right: &UnitKey) -> Ordering
    ensures { result ≡ key_order left.now right.now }
{
    match left {
        UnitKey::Props => match right {
            UnitKey::Props => Ordering::Equal,
            UnitKey::Node(_) => Ordering::Less,
        },
        UnitKey::Node(name) => match right {
            UnitKey::Props => Ordering::Greater,
            UnitKey::Node(other) => name.compare(other),
        },
    }
}
