//! What stands behind the name of a question (RFC 1035 4.1.2).

ghost use Rattle.std.specs.Prelude.{◌≡◌, ℕ, ◌+◌, ◌<◌, ◌≤◌, List, ◌++◌, length, IfNone, IfSome, OnOk};
ghost use Rattle.dn_name.specs.Exact.{Exact};
ghost use Rattle.dn_message.specs.Fields.{two_bytes};
ghost use Rattle.dn_message.specs.Reading.{IsTypeAndClass};

use crate::error::{FormError, cut};
use crate::number::first_u16;

pub(crate) fn read_type_and_class(bytes: &[u8], at: usize) -> Result<(u16, u16), FormError>
    requires { at ≤ length bytes.now }
    ensures exact { Exact (IsTypeAndClass bytes.now at) result }
    ensures within { OnOk result (at + 4 ≤ length bytes.now) }
{
    let (_, rest) = bytes.split_at(at);
    match first_type_and_class(rest) {
        Some(found) => Ok(found),
        None => Err(cut(bytes)),
    }
}

fn first_type_and_class(bytes: &[u8]) -> Option<(u16, u16)>
    ensures found { IfSome result (λ found. (back : List ℕ) × (bytes.now ≡ (two_bytes found.0 ++ two_bytes found.1) ++ back)) }
    ensures none { IfNone result (length bytes.now < 4) }
{
    let (rtype, rest) = first_u16(bytes)?;
    let (rclass, _) = first_u16(rest)?;
    Some((rtype, rclass))
}
