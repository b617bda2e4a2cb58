//! The header of a stored record, and the bytes behind it.

ghost use Rattle.std.specs.Prelude.{◌≡◌, ◌<◌, ◌++◌, length, IfErr, IfNone, IfOk, IfSome, OnOk};
ghost use Rattle.dn_record.specs.Header.{kind_bytes, numbers_bytes};
ghost use Rattle.dn_record.specs.Reads.{IsFaulty, IsFramed, IsWrongFirst};

use crate::error::{RecordError, RecordFault};
use crate::number::{first_big_u32, first_byte, first_u16, first_u32};
use crate::view::RecordView;

// The only version of a stored record.
pub(crate) const VERSION: u8 = 5;

// The first eight bytes of a header: how many bytes of data it says, the type, the version, the rank and the flags.
#[derive(Clone, Copy)]
pub(crate) struct Kind {
    len: u16,
    rtype: u16,
    version: u8,
    rank: u8,
    flags: u16,
}

// The sixteen bytes behind them.
#[derive(Clone, Copy)]
pub(crate) struct Numbers {
    serial: u32,
    ttl: u32,
    reserved: u32,
    hour: u32,
}

// Reads the header, and lends it with the bytes behind it, which aren't judged yet. That they are too few or too many is
// found out before the version is looked at.
pub(crate) fn read_header(bytes: &[u8]) -> Result<RecordView<'_>, RecordError>
    ensures found { IfOk result (IsFramed bytes.now) }
    ensures fault { IfErr result (IsFaulty bytes.now) }
{
    match first_header(bytes) {
        Some((kind, numbers, stored)) => {
            check_kind(kind, stored.len())?;
            Ok(RecordView {
                rtype: kind.rtype,
                rank: kind.rank,
                flags: kind.flags,
                serial: numbers.serial,
                ttl: numbers.ttl,
                reserved: numbers.reserved,
                hour: numbers.hour,
                stored,
            })
        }
        None => Err(RecordError {
            place: bytes.len(),
            kind: RecordFault::Short,
        }),
    }
}

// Whether the header says rightly how many bytes of data there are, and has the version that there is.
#[tactic(auto, using(crate::proofs::FaultLemmas::other_length, crate::proofs::FaultLemmas::other_version))]
fn check_kind(kind: Kind, found: usize) -> Result<(), RecordError>
    ensures right { OnOk result ((kind.len ≡ found) × (kind.version ≡ 5)) }
    ensures fault { IfErr result (IsWrongFirst kind found) }
{
    let said = usize::from(kind.len);
    if said != found {
        return Err(RecordError {
            place: 0,
            kind: RecordFault::LengthDiffers { said, found },
        });
    }
    if kind.version != VERSION {
        return Err(RecordError {
            place: 4,
            kind: RecordFault::BadVersion,
        });
    }
    Ok(())
}

fn first_header(bytes: &[u8]) -> Option<(Kind, Numbers, &[u8])>
    ensures found { IfSome result (λ found. bytes.now ≡ kind_bytes found.0 ++ (numbers_bytes found.1 ++ found.2.now)) }
    ensures none { IfNone result (length bytes.now < 24) }
{
    let (kind, rest) = first_kind(bytes)?;
    let (numbers, rest) = first_numbers(rest)?;
    Some((kind, numbers, rest))
}

fn first_kind(bytes: &[u8]) -> Option<(Kind, &[u8])>
    ensures found { IfSome result (λ found. bytes.now ≡ kind_bytes found.0 ++ found.1.now) }
    ensures none { IfNone result (length bytes.now < 8) }
{
    let (len, rest) = first_u16(bytes)?;
    let (rtype, rest) = first_u16(rest)?;
    let (version, rest) = first_byte(rest)?;
    let (rank, rest) = first_byte(rest)?;
    let (flags, rest) = first_u16(rest)?;
    let kind = Kind {
        len,
        rtype,
        version,
        rank,
        flags,
    };
    Some((kind, rest))
}

fn first_numbers(bytes: &[u8]) -> Option<(Numbers, &[u8])>
    ensures found { IfSome result (λ found. bytes.now ≡ numbers_bytes found.0 ++ found.1.now) }
    ensures none { IfNone result (length bytes.now < 16) }
{
    let (serial, rest) = first_u32(bytes)?;
    let (ttl, rest) = first_big_u32(rest)?;
    let (reserved, rest) = first_u32(rest)?;
    let (hour, rest) = first_u32(rest)?;
    let numbers = Numbers {
        serial,
        ttl,
        reserved,
        hour,
    };
    Some((numbers, rest))
}
