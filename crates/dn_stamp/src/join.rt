ghost use Rattle.std.specs.Prelude.{◌≡◌};
ghost use Rattle.dn_stamp.specs.Join.{Agree, greater};
ghost use Rattle.dn_stamp.specs.Laws.{agree_onward, associates, both_ways, commutes, idempotent, itself};
ghost use Rattle.dn_stamp.specs.Order.{OrderIsFree};

use crate::Stamp;

/// Values of which two are joined into one. Of values that agree, the order in which they come and how often they come
/// make no difference.
pub trait Join: Sized {
    /// Whether two values may stand for versions of one thing.
    ghost agree: { Self → Self → Type 0 };

    ghost joined: { Self → Self → Self };

    fn join(self, other: Self) -> Self
        ensures { result ≡ joined self other };

    ghost commutes: { (left right : Self) → agree left right → joined left right ≡ joined right left };

    ghost associates: { (left mid right : Self) → agree left mid → agree mid right → agree left right → joined (joined left mid) right ≡ joined left (joined mid right) };

    ghost idempotent: { (one : Self) → joined one one ≡ one };

    ghost agrees_with_itself: { (one : Self) → agree one one };

    ghost agrees_both_ways: { (left right : Self) → agree left right → agree right left };

    /// What agrees with two values agrees with their join.
    ghost agrees_onward: { (left right other : Self) → agree left other → agree right other → agree (joined left right) other };
}

/// A value under the stamp of its write. Two agree where equal stamps mean equal values; they are joined by the greater
/// stamp.
#[derive(Drop)]
pub struct Stamped<T> {
    pub stamp: Stamp,
    pub value: T,
}

impl<T: Drop> Join for Stamped<T> {
    ghost agree = { Agree };

    ghost joined = { greater };

    ghost commutes = { commutes };

    ghost associates = { associates };

    ghost idempotent = { idempotent };

    ghost agrees_with_itself = { itself };

    ghost agrees_both_ways = { both_ways };

    ghost agrees_onward = { agree_onward };

    fn join(self, other: Self) -> Self {
        if self.stamp.cmp(&other.stamp).is_lt() {
            other
        } else {
            self
        }
    }
}

/// The law that makes a join of use between servers: of a list of values of which any two agree, joined one after another,
/// the order and the repeats make no difference.
pub fn order_makes_no_difference<J: Join>()
    ensures { OrderIsFree J.agree J.joined }
{}
