ghost use Rattle.std.specs.Prelude.{◌≡◌, nat_le, nat_lt, not};
ghost use Rattle.std.specs.Ordering.{is_le, is_lt};
ghost use Rattle.dn_store.specs.Value.{key_order};

use crate::held::Held;
use crate::order::compare_keys;
use crate::unit::UnitKey;
use dn_pages::Mark;

// At the first unit whose key isn't below the key.
impl Mark<Held> for UnitKey {
    ghost below = { λ key unit. not (is_le (key_order key unit.key)) };

    fn is_above(&self, item: &Held) -> bool {
        compare_keys(self, &item.unit().key).is_gt()
    }
}

// The mark at the first unit whose key is above the key.
#[derive(Clone, Copy)]
pub struct Past {
    pub key: UnitKey,
}

impl Mark<Held> for Past {
    ghost below = { λ past unit. not (is_lt (key_order past.key unit.key)) };

    fn is_above(&self, item: &Held) -> bool {
        compare_keys(&self.key, &item.unit().key).is_ge()
    }
}

// The mark at the first unit that has the number or a greater one.
#[derive(Clone, Copy)]
pub struct From {
    pub usn: u64,
}

impl Mark<Held> for From {
    ghost below = { λ mark unit. not (nat_le mark.usn unit.usn) };

    fn is_above(&self, item: &Held) -> bool {
        item.unit().usn < self.usn
    }
}

// The mark at the first unit with a greater number.
#[derive(Clone, Copy)]
pub struct After {
    pub usn: u64,
}

impl Mark<Held> for After {
    ghost below = { λ mark unit. not (nat_lt mark.usn unit.usn) };

    fn is_above(&self, item: &Held) -> bool {
        item.unit().usn <= self.usn
    }
}
