//! Whether bytes are data of a type.

ghost use Rattle.std.specs.Prelude.{◌≡◌, ◌↔◌, ◌≤◌, List as Seq, ℕ, Some, drop, length, option_map, IfErr, IfSome, IsOk};
ghost use Rattle.dn_rdata.specs.Layout.{AreParts, Begins, DataFailsAt, FailsAt, IsData, IsMissing, PartFails, are_fixed};
ghost use Rattle.dn_rdata.specs.declared.parts.Part.TheVariants as kinds;

use crate::parts::{Part, parts_of};
use dn_name::Name;

/// Bytes aren't data of their type.
#[derive(Clone, Copy, Debug, PartialEq, Eq)]
pub struct DataFault {
    /// The place in the bytes, from 0, where they go wrong: 0 where the type's data have one length, which isn't theirs;
    /// otherwise that of a name's fault, the end where it cuts another part, or the first byte behind the last part.
    pub place: usize,
}

/// Whether bytes are the wire form of a type's data: each part of it in its order, names without pointers, and nothing
/// behind them (RFC 1035 3.3 and 3.4.1, RFC 3596 2.2, RFC 2782). It takes no memory.
///
/// # Errors
/// `DataFault` exactly where they aren't.
pub fn check_rdata(rtype: u16, bytes: &[u8]) -> Result<(), DataFault>
    ensures exact { IsOk result ↔ IsData rtype bytes.now }
    ensures place { IfErr result (λ fault. DataFailsAt rtype bytes.now fault.place) }
{
    let parts = parts_of(rtype);
    match check_parts(bytes, 0, parts) {
        Ok(()) => Ok(()),
        Err(_) if are_fixed(parts) => Err(DataFault { place: 0 }),
        Err(fault) => Err(fault),
    }
}

// Data of such parts have one length, so that a wrong one is told at their first byte.
fn are_fixed(parts: &[Part]) -> bool
    ensures { result ≡ are_fixed parts.now }
{
    match parts.split_first() {
        Some((Part::Bytes(_), parts)) => are_fixed(parts),
        Some(_) => false,
        None => true,
    }
}

// Whether the bytes from a place on are these parts. There are three parts at most, so few calls stand in each other.
fn check_parts(bytes: &[u8], at: usize, parts: &[Part]) -> Result<(), DataFault>
    requires { at ≤ length bytes.now }
    ensures exact { IsOk result ↔ AreParts parts.now (drop at bytes.now) }
    ensures place { IfErr result (λ fault. FailsAt bytes.now at parts.now fault.place) }
{
    let (_, rest) = bytes.split_at(at);
    match parts.split_first() {
        None => {
            if rest.is_empty() {
                Ok(())
            } else {
                Err(DataFault { place: at })
            }
        },
        Some((part, parts)) => match behind_part(rest, *part) {
            Some(behind) => check_parts(bytes, bytes.len().saturating_sub(behind.len()), parts),
            None => Err(fault_of_part(bytes, at, *part)),
        },
    }
}

fn fault_of_part(bytes: &[u8], at: usize, part: Part) -> DataFault
    requires at { at ≤ length bytes.now }
    requires missing { IsMissing part (drop at bytes.now) }
    ensures { PartFails bytes.now at part result.place }
{
    let place = match part {
        Part::OneName => Name::fault_of_plain(bytes, at).place,
        Part::Bytes(_) | Part::OneText | Part::Texts | Part::Rest => bytes.len(),
    };
    DataFault { place }
}

fn behind_part(bytes: &[u8], part: Part) -> Option<&[u8]>
    ensures found { IfSome result (λ rest. Begins part bytes.now rest.now) }
    ensures only { (back : Seq ℕ) → Begins part bytes.now back → option_map (λ rest. rest.now) result ≡ Some back }
{
    match part {
        Part::Bytes(count) => behind_bytes(bytes, count),
        Part::OneName => behind_name(bytes),
        Part::OneText => behind_text(bytes),
        Part::Texts => behind_texts(bytes),
        // it takes all that there is
        Part::Rest => {
            let (_, nothing) = bytes.split_at(bytes.len());
            Some(nothing)
        }
    }
}

fn behind_bytes(bytes: &[u8], count: u8) -> Option<&[u8]>
    ensures found { IfSome result (λ rest. Begins (kinds.Bytes count) bytes.now rest.now) }
    ensures only { (back : Seq ℕ) → Begins (kinds.Bytes count) bytes.now back → option_map (λ rest. rest.now) result ≡ Some back }
{
    let (_, rest) = bytes.split_at_checked(usize::from(count))?;
    Some(rest)
}

pub(crate) fn behind_name(bytes: &[u8]) -> Option<&[u8]>
    ensures found { IfSome result (λ rest. Begins kinds.OneName bytes.now rest.now) }
    ensures only { (back : Seq ℕ) → Begins kinds.OneName bytes.now back → option_map (λ rest. rest.now) result ≡ Some back }
{
    let (_, len) = Name::read_plain(bytes)?;
    let (_, rest) = bytes.split_at_checked(len)?;
    Some(rest)
}

fn behind_text(bytes: &[u8]) -> Option<&[u8]>
    ensures found { IfSome result (λ rest. Begins kinds.OneText bytes.now rest.now) }
    ensures only { (back : Seq ℕ) → Begins kinds.OneText bytes.now back → option_map (λ rest. rest.now) result ≡ Some back }
{
    let (&len, rest) = bytes.split_first()?;
    let (_, rest) = rest.split_at_checked(usize::from(len))?;
    Some(rest)
}

// It is a loop, since there can be as many strings as bytes.
fn behind_texts(bytes: &[u8]) -> Option<&[u8]>
    ensures found { IfSome result (λ rest. Begins kinds.Texts bytes.now rest.now) }
    ensures only { (back : Seq ℕ) → Begins kinds.Texts bytes.now back → option_map (λ rest. rest.now) result ≡ Some back }
{
    let mut rest = behind_text(bytes)?;
    while !rest.is_empty() {
        rest = behind_text(rest)?;
    }
    Some(rest)
}
