//! Names as bytes on the wire.

ghost use Rattle.std.specs.Prelude.{◌≡◌, ◌↔◌, ℕ, ◌+◌, ◌-◌, ◌<◌, ◌≤◌, List, ◌++◌, length, take, drop, option_map, Some, IfOk, IfSome, IsOk, OnErr};
ghost use Rattle.std.specs.List.{AllByRecursion};
ghost use Rattle.dn_name.specs.Name.{Labels, IsLabel, IsName, wire_len, wire_of};
ghost use Rattle.dn_name.specs.PlainFault.{IsPlainFault, NoneStands, PlainFault};
ghost use Rattle.dn_name.specs.Spelled.{Spelled};
ghost use Rattle.dn_name.specs.Walk.{first_label, first_of};
ghost use Rattle.dn_name.specs.Wire.{labels_at, plain_name};

use crate::error::{NameError, NameFault, NoRoom};
use crate::name::Name;

impl Name {
    /// Writes the name without pointers at a place of the buffer, and answers the place after it (RFC 1035 3.1).
    ///
    /// # Errors
    /// `NoRoom` exactly where the name would pass the buffer's end. The buffer is then unchanged.
    pub fn write_wire(&self, out: &mut [u8], at: usize) -> Result<usize, NoRoom>
        ensures room { IsOk result ↔ (at + wire_len self.now ≤ length out.old) }
        ensures ok { IfOk result (λ after. (after ≡ at + wire_len self.now) × (out.new ≡ take at out.old ++ wire_of self.now ++ drop after out.old)) }
        ensures err { OnErr result (out.new ≡ out.old) }
        ensures name { IsName self.now }
        ensures spelled { IfOk result (λ after. Spelled out.new at self.now after) }
    {
        let wire = self.wire();
        let after = at.checked_add(wire.len()).ok_or(NoRoom)?;
        if after > out.len() {
            return Err(NoRoom);
        }
        out[at..after].copy_from_slice(wire);
        Ok(after)
    }

    /// Reads a name without pointers at the front of the bytes, and answers how many bytes it takes; none where the
    /// bytes don't begin with one.
    pub fn read_plain(bytes: &[u8]) -> Option<(Name, usize)>
        ensures plain { option_map (λ found. (found.0, drop found.1 bytes.now)) result ≡ plain_name bytes.now }
        ensures spelled { IfSome result (λ found. bytes.now ≡ wire_of found.0 ++ drop found.1 bytes.now) }
        ensures again { (name : Labels) (rest : List ℕ) → IsName name → bytes.now ≡ wire_of name ++ rest → result ≡ Some (name, wire_len name) }
    {
        let len = plain_len(bytes, 128)?;
        if len > 255 {
            return None;
        }
        Some((Name::from_wire(&bytes[..len]), len))
    }

    /// What is wrong first with the name without pointers at a place where none stands. A length byte of 64 or more is that
    /// of a label that is too long, also where it would begin a pointer; a label with which the name would pass 255 bytes is
    /// found out before it is seen to be cut (RFC 1035 2.3.4 and 3.1).
    pub fn fault_of_plain(bytes: &[u8], at: usize) -> NameError
        requires at { at ≤ length bytes.now }
        requires none { (name : Labels) (rest : List ℕ) → IsName name → drop at bytes.now ≡ wire_of name ++ rest → ⊥ }
        ensures { IsPlainFault bytes.now at result.kind result.place }
    {
        fault_behind(bytes, at, 1)
    }
}

// What is wrong first behind labels that take so many bytes with a zero byte. Each label makes them more, so there are at most
// 127 calls.
fn fault_behind(bytes: &[u8], at: usize, size: usize) -> NameError
    requires at { at ≤ length bytes.now }
    requires size { size ≤ 255 }
    requires none { NoneStands bytes.now at size }
    ensures { PlainFault bytes.now at size result.kind result.place }
{
    let (_, rest) = bytes.split_at(at);
    let short = NameError {
        kind: NameFault::Short,
        place: bytes.len(),
    };
    match rest.split_first() {
        None => short,
        Some((&0, _)) => unreachable!(),
        Some((&len, _)) if len > 63 => NameError {
            kind: NameFault::LabelTooLong,
            place: at,
        },
        Some((&len, _)) if size + usize::from(len) + 1 > 255 => NameError {
            kind: NameFault::NameTooLong,
            place: at,
        },
        Some((&len, rest)) if rest.len() < usize::from(len) => short,
        Some((&len, _)) => {
            let taken = 1 + usize::from(len);
            fault_behind(bytes, at + taken, size + taken)
        }
    }
}

// How many bytes the labels at the front take with the zero byte that ends them; none where a label is cut or too
// long, or where no zero byte stands behind so many labels.
fn plain_len(bytes: &[u8], most: u8) -> Option<usize>
    ensures len { result ≡ option_map (λ found. wire_len found.0) (labels_at most bytes.now) }
    ensures within { IfSome result (λ len. len ≤ length bytes.now) }
{
    if most == 0 {
        return None;
    }
    let (&len, rest) = bytes.split_first()?;
    if len == 0 {
        return Some(1);
    }
    if len > 63 {
        return None;
    }
    let (_, rest) = rest.split_at_checked(usize::from(len))?;
    let behind = plain_len(rest, most - 1)?;
    Some(usize::from(len) + 1 + behind)
}

// The first label of a name on the wire, and the bytes behind it; none at the root.
pub(crate) fn split_label(wire: &[u8]) -> Option<(&[u8], &[u8])>
    ensures bytes { option_map (λ parts. (parts.0.now, parts.1.now)) result ≡ first_label wire.now }
    ensures shorter { IfSome result (λ parts. length parts.1.now < length wire.now) }
    ensures name { (name : Labels) → AllByRecursion IsLabel name → wire.now ≡ wire_of name → option_map (λ parts. (parts.0.now, parts.1.now)) result ≡ first_of name }
{
    let (&len, rest) = wire.split_first()?;
    if len == 0 {
        return None;
    }
    rest.split_at_checked(usize::from(len))
}

// The name on the wire without its first labels, at most so many.
pub(crate) fn skip_labels(wire: &[u8], count: u8) -> &[u8]
    ensures { (name : Labels) → AllByRecursion IsLabel name → wire.now ≡ wire_of name → result.now ≡ wire_of (drop count name) }
{
    let mut rest = wire;
    for _ in 0..count {
        let Some((_, behind)) = split_label(rest) else {
            return rest;
        };
        rest = behind;
    }
    rest
}
