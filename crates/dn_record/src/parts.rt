//! The parts that a record's data have in both their forms, on the wire and as stored (MS-DNSP 2.2.2.2.4).

ghost use Rattle.std.specs.Prelude.{◌≡◌, List as Seq, ℕ, IfNone, IfSome, Some};
ghost use Rattle.dn_rdata.specs.Layout.{IsData};
ghost use Rattle.dn_rdata.specs.Record.{names_in};
ghost use Rattle.dn_rdata.specs.Stored.{IsStored};
ghost use Rattle.dn_record.specs.Parts.{stored_of_parts, wire_of_parts};

use crate::names::{counted_names, plain_names};
use dn_name::Name;
use dn_rdata::{bytes_before_names, bytes_behind_names, check_rdata, names_in};

// The bytes before the names on the wire, the names, of which there are two at most, and the bytes behind them. Data without
// names are bytes before.
#[derive(Clone, Copy)]
pub(crate) struct DataParts<'a> {
    pub(crate) before: &'a [u8],
    pub(crate) first: Option<Name>,
    pub(crate) second: Option<Name>,
    pub(crate) behind: &'a [u8],
}

// The parts of stored data; none where they aren't of the type's stored form.
pub(crate) fn parts_of_stored(rtype: u16, stored: &[u8]) -> Option<DataParts<'_>>
    ensures found { IfSome result (λ parts. IsStored rtype stored.now (wire_of_parts parts)) }
    ensures none { IfNone result ((rdata : Seq ℕ) → IsStored rtype stored.now rdata → ⊥) }
{
    let count = names_in(rtype);
    if count == 0 {
        return parts_without_names(rtype, stored);
    }
    let (before, rest) = stored.split_at_checked(bytes_before_names(rtype))?;
    let (behind, names) = rest.split_at_checked(bytes_behind_names(rtype))?;
    match counted_names(names, count) {
        Some((first, second, rest)) => {
            if !rest.is_empty() {
                return None;
            }
            Some(with_names(before, first, second, behind))
        }
        None => None,
    }
}

// The parts of data on the wire; none where they aren't of the type's form there.
pub(crate) fn parts_of_wire(rtype: u16, rdata: &[u8]) -> Option<DataParts<'_>>
    ensures found { IfSome result (λ parts. IsStored rtype (stored_of_parts parts) rdata.now) }
    ensures none { IfNone result (IsData rtype rdata.now → ⊥) }
{
    let count = names_in(rtype);
    if count == 0 {
        return parts_without_names(rtype, rdata);
    }
    let (before, rest) = rdata.split_at_checked(bytes_before_names(rtype))?;
    let end = bytes_behind_names(rtype);
    match plain_names(rest, count) {
        Some((first, second, behind)) => {
            if behind.len() != end {
                return None;
            }
            Some(with_names(before, first, second, behind))
        }
        None => None,
    }
}

// The parts of data of a type without names, whose two forms are the same bytes.
fn parts_without_names(rtype: u16, bytes: &[u8]) -> Option<DataParts<'_>>
    requires { names_in rtype ≡ 0 }
    ensures stored { IfSome result (λ parts. IsStored rtype (stored_of_parts parts) bytes.now) }
    ensures wire { IfSome result (λ parts. IsStored rtype bytes.now (wire_of_parts parts)) }
    ensures none { IfNone result (IsData rtype bytes.now → ⊥) }
{
    check_rdata(rtype, bytes).ok()?;
    let (before, behind) = bytes.split_at(bytes.len());
    Some(DataParts {
        before,
        first: None,
        second: None,
        behind,
    })
}

fn with_names<'a>(
    before: &'a [u8],
    first: Name,
    second: Option<Name>,
    behind: &'a [u8],
) -> DataParts<'a>
    ensures before { result.before.now ≡ before.now }
    ensures first { result.first ≡ Some first }
    ensures second { result.second ≡ second }
    ensures behind { result.behind.now ≡ behind.now }
{
    DataParts {
        before,
        first: Some(first),
        second,
        behind,
    }
}
