//! Names compared: their letters in either case are the same (RFC 4343).

ghost use Rattle.std.specs.Prelude.{◌≡◌, ◌↔◌, IsTrue, length};
ghost use Rattle.std.specs.List.{AllByRecursion};
ghost use Rattle.std.specs.Ordering.{nat_cmp, ordering_then};
ghost use Rattle.std.specs.Cmp.Lexicographic.{slice_cmp};
ghost use Rattle.dn_name.specs.Name.{Labels, IsLabel, IsUnder, is_same, is_under, lower_label, lowered, order, wire_of};
ghost use Rattle.dn_name.specs.Walk.{ends_in, order_of};

use crate::name::Name;
use crate::wire::{skip_labels, split_label};
use std::cmp::Ordering;

impl Name {
    /// Whether the names are equal but for the case of letters.
    pub fn same(&self, other: &Name) -> bool
        ensures test { result ≡ is_same self.now other.now }
        ensures meaning { IsTrue result ↔ (lowered self.now ≡ lowered other.now) }
    {
        // A length is at most 63, so no length byte is a letter.
        self.wire().eq_ignore_ascii_case(other.wire())
    }

    /// Whether the name is the apex or stands below it.
    pub fn is_under(&self, apex: &Name) -> bool
        ensures test { result ≡ is_under self.now apex.now }
        ensures meaning { IsTrue result ↔ IsUnder self.now apex.now }
    {
        let (name, apex) = (self.lower(), apex.lower());
        ends_with(name.wire(), apex.wire())
    }

    /// The order of names by their labels from the last to the first, in lower case (RFC 4034 6.1).
    pub fn compare(&self, other: &Name) -> Ordering
        ensures { result ≡ order self.now other.now }
    {
        let (left_count, right_count) = (self.labels(), other.labels());
        let shared = left_count.min(right_count);
        compare_labels(
            skip_labels(self.wire(), left_count - shared),
            skip_labels(other.wire(), right_count - shared),
            left_count.cmp(&right_count),
        )
    }
}

// Whether the labels of the apex stand at the end of the name's, both on the wire.
fn ends_with(wire: &[u8], apex: &[u8]) -> bool
    ensures { (name above : Labels) → AllByRecursion IsLabel name → AllByRecursion IsLabel above → wire.now ≡ wire_of name → apex.now ≡ wire_of above → result ≡ ends_in name above }
{
    if wire == apex {
        return true;
    }
    match split_label(wire) {
        Some((_, rest)) => ends_with(rest, apex),
        None => false,
    }
}

// The order of names of as many labels, on the wire, by their labels from the last to the first, in lower case; where
// these are equal, the one that is given. Names are compared at each step of a search, so nothing is copied.
fn compare_labels(left: &[u8], right: &[u8], otherwise: Ordering) -> Ordering
    ensures { (name other : Labels) → AllByRecursion IsLabel name → AllByRecursion IsLabel other → length name ≡ length other → left.now ≡ wire_of name → right.now ≡ wire_of other → result ≡ ordering_then (order_of (lowered name) (lowered other)) otherwise }
{
    match (split_label(left), split_label(right)) {
        (Some((label, left)), Some((other, right))) => {
            compare_labels(left, right, compare_folded(label, other).then(otherwise))
        }
        _ => otherwise,
    }
}

fn compare_folded(left: &[u8], right: &[u8]) -> Ordering
    ensures { result ≡ slice_cmp nat_cmp (lower_label left.now) (lower_label right.now) }
{
    let left = left.iter().map(u8::to_ascii_lowercase);
    left.cmp(right.iter().map(u8::to_ascii_lowercase))
}
