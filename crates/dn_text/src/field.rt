ghost use Rattle.std.specs.Prelude.{◌≡◌, ◌++◌, drop, take, slice_index, OnOk};
ghost use Rattle.std.specs.Int.{w16, w64, from_be_bytes, from_le_bytes};
ghost use Rattle.dn_name.specs.Wire.{plain_name};
ghost use Rattle.dn_text.specs.Fields.{behind_field, behind_found, digits_text, field_text, fields_behind, fields_text, name_text};

use crate::long_address::push_groups;
use crate::table::Field;
use dn_io::{List, OutOfMemory};
use dn_name::Name;
use dn_rdata::number_of_bytes;
use dn_word::{push_dotted, push_hex, push_name, push_number};
use std::alloc::Global;

fn front(count: usize, bytes: &[u8]) -> &[u8]
    ensures { result.now ≡ take count bytes.now }
{
    &bytes[..bytes.len().min(count)]
}

fn behind(count: usize, bytes: &[u8]) -> &[u8]
    ensures { result.now ≡ drop count bytes.now }
{
    &bytes[bytes.len().min(count)..]
}

// A byte, 0 behind the end.
fn byte_at(bytes: &[u8], at: usize) -> u8
    ensures { result ≡ slice_index bytes.now at }
{
    match bytes.get(at) {
        Some(byte) => *byte,
        None => 0,
    }
}

// The number that the first two bytes are, the greatest first.
fn short_of_bytes(bytes: &[u8]) -> u16
    ensures { result ≡ from_be_bytes w16 bytes.now }
{
    u16::from_be_bytes([byte_at(bytes, 0), byte_at(bytes, 1)])
}

// The number that the first eight bytes are, the least first.
fn ticks_of_bytes(bytes: &[u8]) -> u64
    ensures { result ≡ from_le_bytes w64 bytes.now }
{
    u64::from_le_bytes([
        byte_at(bytes, 0),
        byte_at(bytes, 1),
        byte_at(bytes, 2),
        byte_at(bytes, 3),
        byte_at(bytes, 4),
        byte_at(bytes, 5),
        byte_at(bytes, 6),
        byte_at(bytes, 7),
    ])
}

// The name at the front of bytes; nothing where none stands there.
#[tactic(auto, unfolding(crate::specs::Fields::name_text))]
fn push_name_of(out: &mut List<u8>, bytes: &[u8]) -> Result<(), OutOfMemory>
    ensures { OnOk result (out.new ≡ out.old ++ name_text bytes.now) }
{
    match Name::read_plain(bytes) {
        Some((name, _)) => push_name(out, &name),
        None => Ok(()),
    }
}

/// Prints bytes as hex digits, and `-` where there are none.
#[tactic(auto, unfolding(crate::specs::Fields::digits_text))]
pub(crate) fn push_digits(
    alloc: Global,
    out: &mut List<u8>,
    bytes: &[u8],
) -> Result<(), OutOfMemory>
    ensures { OnOk result (out.new ≡ out.old ++ digits_text bytes.now) }
{
    if bytes.is_empty() {
        out.extend(b"-")
    } else {
        push_hex(alloc, out, bytes)
    }
}

// The word of a field at the front of bytes.
#[tactic(auto, unfolding(crate::specs::Fields::field_text))]
fn push_field(
    alloc: Global,
    out: &mut List<u8>,
    field: Field,
    bytes: &[u8],
) -> Result<(), OutOfMemory>
    ensures { OnOk result (out.new ≡ out.old ++ field_text field bytes.now) }
{
    match field {
        Field::Ticks => push_number(alloc, out, ticks_of_bytes(bytes)),
        Field::FourBytes => push_dotted(alloc, out, front(4, bytes)),
        Field::Groups => push_groups(alloc, out, front(16, bytes)),
        Field::OneName => push_name_of(out, bytes),
        Field::Short => push_number(alloc, out, u64::from(short_of_bytes(bytes))),
        Field::Long => push_number(alloc, out, u64::from(number_of_bytes(bytes))),
        Field::Digits => push_digits(alloc, out, bytes),
    }
}

// The bytes behind a field.
#[tactic(auto, unfolding(crate::specs::Fields::behind_field))]
fn behind_field(field: Field, bytes: &[u8]) -> &[u8]
    ensures { result.now ≡ behind_field field bytes.now }
{
    match field {
        Field::Ticks => behind(8, bytes),
        Field::FourBytes | Field::Long => behind(4, bytes),
        Field::Groups => behind(16, bytes),
        Field::OneName => behind_name(bytes),
        Field::Short => behind(2, bytes),
        Field::Digits => behind(bytes.len(), bytes),
    }
}

// The bytes behind the name at the front; none where none stands there.
fn behind_name(bytes: &[u8]) -> &[u8]
    ensures { result.now ≡ behind_found (plain_name bytes.now) }
{
    match Name::read_plain(bytes) {
        Some((_, len)) => &bytes[len..],
        None => behind(bytes.len(), bytes),
    }
}

// The words of fields, each behind a space.
#[tactic(auto, unfolding(crate::specs::Fields::fields_behind))]
fn push_fields_behind(
    alloc: Global,
    out: &mut List<u8>,
    fields: &[Field],
    bytes: &[u8],
) -> Result<(), OutOfMemory>
    ensures { OnOk result (out.new ≡ out.old ++ fields_behind fields.now bytes.now) }
{
    let mut rest = bytes;
    for field in fields {
        out.extend(b" ")?;
        push_field(alloc, out, *field, rest)?;
        rest = behind_field(*field, rest);
    }
    Ok(())
}

/// Prints the words of fields, with a space between each two.
#[tactic(auto, unfolding(crate::specs::Fields::fields_text))]
pub(crate) fn push_fields(
    alloc: Global,
    out: &mut List<u8>,
    fields: &[Field],
    bytes: &[u8],
) -> Result<(), OutOfMemory>
    ensures { OnOk result (out.new ≡ out.old ++ fields_text fields.now bytes.now) }
{
    let Some((field, fields)) = fields.split_first() else {
        return Ok(());
    };
    push_field(alloc, out, *field, bytes)?;
    push_fields_behind(alloc, out, fields, behind_field(*field, bytes))
}
