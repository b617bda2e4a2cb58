//! Properties as they are stored (MS-DNSP 2.3.2.1): a head of five numbers, the content, and a tail, which has 1 to 4 bytes in
//! this project's profile.

ghost use Rattle.std.specs.Prelude.{◌≡◌, ◌<◌, ◌≤◌, ◌^◌, ◌++◌, length, IfErr, IfNone, IfOk, IfSome, OnOk};
ghost use Rattle.dn_property.specs.FirstFault.{FirstFault};
ghost use Rattle.dn_property.specs.declared.error.PropertyFault.TheVariants.{Short};
ghost use Rattle.dn_property.specs.Reading.{ReadsProperty};
ghost use Rattle.dn_property.specs.Reading.Parts.{IsSplit, joined};
ghost use Rattle.dn_property.specs.Stored.{IsProperty, head_bytes, head_of};

use crate::error::{PropertyError, PropertyFault, PropertyReadError};
use crate::number::{first_u32, push_u32};
use crate::property::Property;
use dn_io::{List, OutOfMemory};
use std::alloc::Global;

const VERSION: u32 = 1;

// How many bytes the head has, and the place of the version in it.
const HEAD_LEN: usize = 20;

const VERSION_PLACE: usize = 12;

// How many bytes the tail has at least and at most, in this project's profile.
const LEAST_TAIL: usize = 1;

const MOST_TAIL: usize = 4;

// The five numbers at the front.
#[derive(Clone, Copy)]
pub(crate) struct Head {
    pub(crate) data_length: u32,
    pub(crate) name_length: u32,
    pub(crate) flag: u32,
    pub(crate) version: u32,
    pub(crate) id: u32,
}

/// The property that the bytes are, all of them (MS-DNSP 2.3.2.1).
///
/// # Errors
/// `Bad` where they are none, with the kind and the place of what is wrong first: the head is cut, the version isn't 1,
/// the content or the byte behind it is cut, the tail is longer than four bytes. `OutOfMemory`.
pub fn read_property(alloc: Global, bytes: &[u8]) -> Result<Property, PropertyReadError>
    ensures exact { ReadsProperty bytes.now result }
{
    let (head, content, tail) = split_parts(bytes)?;
    Ok(joined(alloc, head, content, tail)?)
}

fn joined(alloc: Global, head: Head, content: &[u8], tail: &[u8]) -> Result<Property, OutOfMemory>
    ensures { IfOk result (λ property. property ≡ joined head content.now tail.now) }
{
    Ok(Property {
        name_length: head.name_length,
        flag: head.flag,
        id: head.id,
        content: List::from_slice(alloc, content)?,
        tail: List::from_slice(alloc, tail)?,
    })
}

fn read_head(bytes: &[u8]) -> Option<(Head, &[u8])>
    ensures found { IfSome result (λ found. bytes.now ≡ head_bytes found.0 ++ found.1.now) }
    ensures none { IfNone result (length bytes.now < 20) }
{
    let (data_length, rest) = first_u32(bytes)?;
    let (name_length, rest) = first_u32(rest)?;
    let (flag, rest) = first_u32(rest)?;
    let (version, rest) = first_u32(rest)?;
    let (id, rest) = first_u32(rest)?;
    let head = Head {
        data_length,
        name_length,
        flag,
        version,
        id,
    };
    Some((head, rest))
}

fn split_parts(bytes: &[u8]) -> Result<(Head, &[u8], &[u8]), PropertyError>
    ensures parts { IfOk result (λ parts. IsSplit bytes.now parts.0 parts.1.now parts.2.now) }
    ensures fault { IfErr result (λ error. FirstFault bytes.now error.kind error.place) }
{
    let Some((head, rest)) = read_head(bytes) else {
        return Err(cut(bytes));
    };
    if head.version != VERSION {
        return Err(PropertyError {
            place: VERSION_PLACE,
            kind: PropertyFault::BadVersion,
        });
    }
    let len = head.data_length as usize;
    let Some((content, tail)) = rest.split_at_checked(len) else {
        return Err(cut(bytes));
    };
    if tail.len() < LEAST_TAIL {
        return Err(cut(bytes));
    }
    if tail.len() > MOST_TAIL {
        return Err(PropertyError {
            place: HEAD_LEN + len + MOST_TAIL,
            kind: PropertyFault::LongTail,
        });
    }
    Ok((head, content, tail))
}

// The fault of a field that the end of the bytes cuts.
fn cut(bytes: &[u8]) -> PropertyError
    ensures { result ≡ record { place = length bytes.now; kind = Short } }
{
    PropertyError {
        place: bytes.len(),
        kind: PropertyFault::Short,
    }
}

/// The bytes that are this property (MS-DNSP 2.3.2.1). Its content has at most 4,294,967,295 bytes, and its tail 1 to 4.
///
/// # Errors
/// `OutOfMemory`.
pub fn write_property(alloc: Global, item: &Property) -> Result<List<u8>, OutOfMemory>
    requires content { length item.now.content < 2 ^ 32 }
    requires tail_least { 1 ≤ length item.now.tail }
    requires tail_most { length item.now.tail ≤ 4 }
    ensures spelled { IfOk result (λ bytes. IsProperty bytes item.now) }
{
    let mut bytes = List::new(alloc);
    push_head(&mut bytes, item)?;
    bytes.extend(item.content.as_slice())?;
    bytes.extend(item.tail.as_slice())?;
    Ok(bytes)
}

fn push_head(bytes: &mut List<u8>, item: &Property) -> Result<(), OutOfMemory>
    requires content { length item.now.content < 2 ^ 32 }
    ensures { OnOk result (bytes.new ≡ bytes.old ++ head_bytes (head_of item.now)) }
{
    push_u32(bytes, item.content.len() as u32)?;
    push_u32(bytes, item.name_length)?;
    push_u32(bytes, item.flag)?;
    push_u32(bytes, VERSION)?;
    push_u32(bytes, item.id)?;
    Ok(())
}
