//! One record of a message (RFC 1035 4.1.3).

ghost use Rattle.std.specs.Prelude.{◌≡◌, ℕ, ◌+◌, ◌<◌, ◌≤◌, List, ◌++◌, length, IfErr, IfOk, IfNone, IfSome, OnErr};
ghost use Rattle.dn_name.specs.Exact.{Exact};
ghost use Rattle.dn_name.specs.Name.{Labels};
ghost use Rattle.dn_name.specs.Spelled.{Spelled};
ghost use Rattle.dn_message.specs.NameFaults.{HasNoName, IsFaultOfName};
ghost use Rattle.dn_message.specs.Record.{fields};
ghost use Rattle.dn_message.specs.Reading.{IsHead, Passes};

use crate::error::{FormError, cut, name_fault};
use crate::number::{first_u16, first_u32};
use dn_name::Name;

// What stands before a record's data, and how many bytes these have.
#[derive(Clone, Copy)]
pub(crate) struct RecordHead {
    pub(crate) name: Name,
    pub(crate) rtype: u16,
    pub(crate) rclass: u16,
    pub(crate) ttl: u32,
    pub(crate) len: u16,
}

// Reads a record whose data may be any bytes, and answers what stands before them and the place behind the record.
pub(crate) fn pass_record(bytes: &[u8], at: usize) -> Result<(RecordHead, usize), FormError>
    requires { at ≤ length bytes.now }
    ensures passes { Passes bytes.now at result }
    ensures within { IfOk result (λ found. found.1 ≤ length bytes.now) }
    ensures fault { IfErr result (λ error. HasNoName bytes.now at → IsFaultOfName bytes.now at error) }
{
    let (head, place) = read_head(bytes, at)?;
    let next = behind_data(bytes, place, head.len)?;
    Ok((head, next))
}

pub(crate) fn behind_data(bytes: &[u8], place: usize, len: u16) -> Result<usize, FormError>
    requires { place ≤ length bytes.now }
    ensures found { IfOk result (λ next. next ≡ place + len) }
    ensures within { IfOk result (λ next. next ≤ length bytes.now) }
    ensures cut { OnErr result (length bytes.now < place + len) }
{
    let len = usize::from(len);
    if len > bytes.len() - place {
        return Err(cut(bytes));
    }
    Ok(place + len)
}

pub(crate) fn read_head(bytes: &[u8], at: usize) -> Result<(RecordHead, usize), FormError>
    requires { at ≤ length bytes.now }
    ensures exact { Exact (λ (found : RecordHead × ℕ). IsHead bytes.now at found.0 found.1) result }
    ensures within { IfOk result (λ found. found.1 ≤ length bytes.now) }
    ensures fault { IfErr result (λ error. HasNoName bytes.now at → IsFaultOfName bytes.now at error) }
{
    let (name, behind) = read_name(bytes, at)?;
    let (_, rest) = bytes.split_at(behind);
    match first_fields(name, rest) {
        Some(head) => Ok((head, behind + 10)),
        None => Err(cut(bytes)),
    }
}

fn first_fields(name: Name, bytes: &[u8]) -> Option<RecordHead>
    ensures found { IfSome result (λ head. ((back : List ℕ) × (bytes.now ≡ fields head.rtype head.rclass head.ttl head.len ++ back)) × (head.name ≡ name)) }
    ensures none { IfNone result (length bytes.now < 10) }
{
    let (rtype, rest) = first_u16(bytes)?;
    let (rclass, rest) = first_u16(rest)?;
    let (ttl, rest) = first_u32(rest)?;
    let (len, _) = first_u16(rest)?;
    Some(RecordHead {
        name,
        rtype,
        rclass,
        ttl,
        len,
    })
}

pub(crate) fn read_name(bytes: &[u8], at: usize) -> Result<(Name, usize), FormError>
    requires { at ≤ length bytes.now }
    ensures exact { Exact (λ (found : Labels × ℕ). Spelled bytes.now at found.0 found.1) result }
    ensures within { IfOk result (λ found. found.1 ≤ length bytes.now) }
    ensures fault { IfErr result (IsFaultOfName bytes.now at) }
{
    match Name::read_wire(bytes, at) {
        Ok(found) => Ok(found),
        Err(error) => Err(name_fault(error)),
    }
}

pub(crate) fn type_at(bytes: &[u8], at: usize) -> Option<u16>
    requires { at ≤ length bytes.now }
{
    match read_name(bytes, at) {
        Ok((_, behind)) => match first_u16(bytes.split_at(behind).1) {
            Some((rtype, _)) => Some(rtype),
            None => None,
        },
        Err(_) => None,
    }
}
