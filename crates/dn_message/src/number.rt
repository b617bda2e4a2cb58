//! Numbers of two and four bytes, the high byte first (RFC 1035 2.3.2).

ghost use Rattle.std.specs.Prelude.{◌≡◌, ℕ, ◌+◌, ◌<◌, ◌≤◌, List, ◌++◌, length, IfSome, IfNone, OnErr, OnOk};
ghost use Rattle.dn_name.specs.Exact.{Exact};
ghost use Rattle.dn_rdata.specs.Laid.{Stands};
ghost use Rattle.dn_message.specs.Fields.{four_bytes, two_bytes};

use crate::error::{FormError, FormFault, cut};

pub(crate) fn first_u16(bytes: &[u8]) -> Option<(u16, &[u8])>
    ensures found { IfSome result (λ found. bytes.now ≡ two_bytes found.0 ++ found.1.now) }
    ensures none { IfNone result (length bytes.now < 2) }
{
    match bytes {
        [high, low, rest @ ..] => Some((u16::from_be_bytes([*high, *low]), rest)),
        _ => None,
    }
}

pub(crate) fn first_u32(bytes: &[u8]) -> Option<(u32, &[u8])>
    ensures found { IfSome result (λ found. bytes.now ≡ four_bytes found.0 ++ found.1.now) }
    ensures none { IfNone result (length bytes.now < 4) }
{
    let (high, rest) = first_u16(bytes)?;
    let (low, rest) = first_u16(rest)?;
    Some((65536 * u32::from(high) + u32::from(low), rest))
}

pub(crate) fn u16_at(bytes: &[u8], at: usize) -> Result<u16, FormError>
    requires { at ≤ length bytes.now }
    ensures exact { Exact (λ (number : ℕ). Stands bytes.now at (two_bytes number) (at + 2)) result }
    ensures within { OnOk result (at + 2 ≤ length bytes.now) }
{
    let (_, rest) = bytes.split_at(at);
    match first_u16(rest) {
        Some((number, _)) => Ok(number),
        None => Err(cut(bytes)),
    }
}

// Whether the number of two bytes at a place of the message is the wanted one; another is a fault of this kind.
pub(crate) fn check_u16(
    bytes: &[u8],
    at: usize,
    wanted: u16,
    kind: FormFault,
) -> Result<(), FormError>
    requires { at ≤ length bytes.now }
    ensures stands { OnOk result (Stands bytes.now at (two_bytes wanted) (at + 2)) }
    ensures other { OnErr result (Stands bytes.now at (two_bytes wanted) (at + 2) → ⊥) }
    ensures within { OnOk result (at + 2 ≤ length bytes.now) }
{
    match u16_at(bytes, at) {
        Ok(number) if number == wanted => Ok(()),
        Ok(_) => Err(FormError { place: at, kind }),
        Err(error) => Err(error),
    }
}
