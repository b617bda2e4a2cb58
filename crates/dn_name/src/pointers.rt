//! Names in a message, with pointers (RFC 1035 4.1.4).

ghost use Rattle.std.specs.Prelude.{◌≡◌, ℕ, ◌+◌, ◌<◌, ◌≤◌, List, ◌∷◌, length, drop, IfErr, IfOk};
ghost use Rattle.dn_name.specs.Exact.{Exact};
ghost use Rattle.dn_name.specs.FirstFault.{IsFirstFault};
ghost use Rattle.dn_name.specs.Name.{Labels};
ghost use Rattle.dn_name.specs.Spelled.{Spelled};
ghost use Rattle.dn_name.specs.Turning.{IsWithin, Meets, Steps, Turns, blamed};

use crate::error::{NameError, NameFault};
use crate::name::Name;

// How far a name is read: its labels so far, where the segment begins, the place in it, and the place behind the first
// pointer, which is the place behind the name.
#[derive(Drop)]
pub(crate) struct Walk {
    name: Name,
    start: usize,
    place: usize,
    behind: Option<usize>,
}

impl Name {
    /// Reads the name that is spelled at a place of a message, and answers the place behind it, which is that behind the
    /// name's first pointer where it has one (RFC 1035 4.1.4).
    ///
    /// # Errors
    /// Exactly where no name is spelled at the place. The fault is the first one, with its place in the message; of one
    /// behind a pointer it is the place of the name's first pointer.
    pub fn read_wire(bytes: &[u8], at: usize) -> Result<(Name, usize), NameError>
        requires { at ≤ length bytes.now }
        ensures exact { Exact (λ (found : Labels × ℕ). Spelled bytes.now at found.0 found.1) result }
        ensures within { IfOk result (λ found. found.1 ≤ length bytes.now) }
        ensures fault { IfErr result (λ error. IsFirstFault bytes.now at error.kind error.place) }
    {
        let mut walk = Walk {
            name: Name::root(),
            start: at,
            place: at,
            behind: None,
        };
        // A turn takes a label, which uses up some of the 255 bytes, or a pointer, which leads before its segment's
        // start: so there are at most 127 turns for labels, and at most one for each place before the name.
        loop {
            if let Some(next) = turn(bytes, &mut walk)? {
                return Ok((walk.name, next));
            }
        }
    }
}

// Reads one label, a pointer or the end; answers the place behind the name where it ends.
fn turn(bytes: &[u8], walk: &mut Walk) -> Result<Option<usize>, NameError>
    requires { IsWithin bytes.now walk.old }
    ensures { Turns bytes.now walk.old walk.new result }
{
    let (_, rest) = bytes.split_at(walk.place);
    match rest.split_first() {
        Some((&0, _)) => Ok(Some(walk.behind.unwrap_or(walk.place + 1))),
        Some((&len, rest)) if len <= 63 => {
            take_label(bytes, walk, len, rest)?;
            Ok(None)
        }
        Some((&high, rest)) if high >= 192 => {
            follow(bytes, walk, high, rest)?;
            Ok(None)
        }
        Some(_) => Err(fault_at(walk, NameFault::LabelTooLong, walk.place)),
        None => Err(fault_at(walk, NameFault::Short, bytes.len())),
    }
}

// Takes the label whose length byte was read, and whose bytes begin the rest.
fn take_label(bytes: &[u8], walk: &mut Walk, len: u8, rest: &[u8]) -> Result<(), NameError>
    requires within { IsWithin bytes.now walk.old }
    requires at { drop walk.old.place bytes.now ≡ len ∷ rest.now }
    requires len { (1 ≤ len) × (len ≤ 63) }
    ensures { Steps bytes.now walk.old walk.new result }
{
    match rest.split_at_checked(usize::from(len)) {
        Some((label, _)) => match walk.name.pushed(label) {
            Some(name) => {
                walk.name = name;
                walk.place += 1 + usize::from(len);
                Ok(())
            }
            None => Err(fault_at(walk, NameFault::NameTooLong, walk.place)),
        },
        None => Err(fault_of_cut_label(bytes, walk, len)),
    }
}

// Goes to the place that a pointer names, whose first byte was read.
fn follow(bytes: &[u8], walk: &mut Walk, high: u8, rest: &[u8]) -> Result<(), NameError>
    requires within { IsWithin bytes.now walk.old }
    requires at { drop walk.old.place bytes.now ≡ high ∷ rest.now }
    requires high { 192 ≤ high }
    ensures { Steps bytes.now walk.old walk.new result }
{
    let Some((&low, _)) = rest.split_first() else {
        return Err(fault_at(walk, NameFault::Short, bytes.len()));
    };
    let target = 256 * usize::from(high - 192) + usize::from(low);
    if target >= walk.start {
        return Err(fault_at(walk, NameFault::BadPointer, walk.place));
    }
    walk.behind = Some(walk.behind.unwrap_or(walk.place + 2));
    walk.start = target;
    walk.place = target;
    Ok(())
}

// The fault of a label that the message's end cuts: that the name would pass 255 bytes comes first.
fn fault_of_cut_label(bytes: &[u8], walk: &Walk, len: u8) -> NameError
    requires at { (rest : List ℕ) × (drop walk.now.place bytes.now ≡ len ∷ rest) × (length rest < len) }
    requires len { (1 ≤ len) × (len ≤ 63) }
    ensures { Meets bytes.now walk.now result }
{
    if walk.name.wire_len() + usize::from(len) + 1 > 255 {
        fault_at(walk, NameFault::NameTooLong, walk.place)
    } else {
        fault_at(walk, NameFault::Short, bytes.len())
    }
}

// The fault at a place; behind a pointer, at the name's first pointer.
fn fault_at(walk: &Walk, kind: NameFault, place: usize) -> NameError
    ensures { result ≡ record { kind = kind; place = blamed walk.now.behind place } }
{
    NameError {
        kind,
        place: match walk.behind {
            Some(behind) => behind.saturating_sub(2),
            None => place,
        },
    }
}
