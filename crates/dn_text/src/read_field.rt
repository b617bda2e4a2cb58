ghost use Rattle.std.specs.Prelude.{◌≡◌, [], map};
ghost use Rattle.dn_word.specs.Addresses.{address_of};
ghost use Rattle.dn_text.specs.Fields.{digits_of, field_of, fields_from, fields_of, long_of, short_of, ticks_of, wire_word};
ghost use Rattle.dn_text.specs.LongAddresses.{long_address_of};
ghost use Rattle.dn_word.specs.Reading.{Adds, Reads};

use crate::long_address::long_address_of;
use crate::table::Field;
use dn_io::List;
use dn_rdata::push_wire;
use dn_word::{
    TextError, bytes_of_hex, ip_of, is_word, name_of, number_of, number_within, parts_between,
};
use std::alloc::Global;

// Adds the bytes of an address of IPv4.
fn read_address(out: &mut List<u8>, word: &[u8]) -> Result<(), TextError>
    ensures { Adds result (address_of word.now) out.old out.new }
{
    match ip_of(word) {
        Some(address) => Ok(out.extend(&address)?),
        None => Err(TextError::BadText),
    }
}

// Adds a number of 64 bits, its least byte first.
#[tactic(auto, unfolding(crate::specs::Fields::ticks_of))]
fn read_ticks(out: &mut List<u8>, word: &[u8]) -> Result<(), TextError>
    ensures { Adds result (ticks_of word.now) out.old out.new }
{
    match number_within(u64::MAX, word) {
        Some(ticks) => Ok(out.extend(&ticks.to_le_bytes())?),
        None => Err(TextError::BadText),
    }
}

// Adds a number of 16 bits.
#[tactic(auto, unfolding(crate::specs::Fields::short_of))]
fn read_short(out: &mut List<u8>, word: &[u8]) -> Result<(), TextError>
    ensures { Adds result (short_of word.now) out.old out.new }
{
    match number_within(65535, word) {
        Some(number) => Ok(out.extend(&(number as u16).to_be_bytes())?),
        None => Err(TextError::BadText),
    }
}

// Adds a number of 32 bits.
#[tactic(auto, unfolding(crate::specs::Fields::long_of))]
fn read_long(out: &mut List<u8>, word: &[u8]) -> Result<(), TextError>
    ensures { Adds result (long_of word.now) out.old out.new }
{
    match number_of(u32::MAX, word) {
        Some(number) => Ok(out.extend(&number.to_be_bytes())?),
        None => Err(TextError::BadText),
    }
}

// Adds the bytes of a name.
#[tactic(auto, unfolding(crate::specs::Fields::wire_word))]
fn read_name(out: &mut List<u8>, word: &[u8]) -> Result<(), TextError>
    ensures { Adds result (wire_word word.now) out.old out.new }
{
    match name_of(word) {
        Some(name) => Ok(push_wire(out, &name)?),
        None => Err(TextError::BadText),
    }
}

// Adds the bytes of an address of IPv6.
fn read_groups(alloc: Global, out: &mut List<u8>, word: &[u8]) -> Result<(), TextError>
    ensures { Adds result (long_address_of word.now) out.old out.new }
{
    let bytes = long_address_of(alloc, word)?;
    out.extend(bytes.as_slice())?;
    Ok(())
}

/// The bytes that hex digits are; `-` is none.
#[tactic(auto, unfolding(crate::specs::Fields::digits_of))]
pub(crate) fn digits_of(alloc: Global, word: &[u8]) -> Result<List<u8>, TextError>
    ensures { Reads result (digits_of word.now) }
{
    if is_word(word, b"-") {
        return Ok(List::new(alloc));
    }
    if word.is_empty() {
        return Err(TextError::BadText);
    }
    bytes_of_hex(alloc, word)
}

// Adds the bytes of hex digits.
fn read_digits(alloc: Global, out: &mut List<u8>, word: &[u8]) -> Result<(), TextError>
    ensures { Adds result (digits_of word.now) out.old out.new }
{
    let bytes = digits_of(alloc, word)?;
    out.extend(bytes.as_slice())?;
    Ok(())
}

// Adds the bytes of a field that a word is.
#[tactic(auto, unfolding(crate::specs::Fields::field_of))]
fn read_field(alloc: Global, out: &mut List<u8>, field: Field, word: &[u8]) -> Result<(), TextError>
    ensures { Adds result (field_of field word.now) out.old out.new }
{
    match field {
        Field::Ticks => read_ticks(out, word),
        Field::FourBytes => read_address(out, word),
        Field::Groups => read_groups(alloc, out, word),
        Field::OneName => read_name(out, word),
        Field::Short => read_short(out, word),
        Field::Long => read_long(out, word),
        Field::Digits => read_digits(alloc, out, word),
    }
}

// The bytes of fields, a word each.
#[tactic(auto, unfolding(crate::specs::Fields::fields_from))]
fn fields_of_words(alloc: Global, fields: &[Field], words: &[&[u8]]) -> Result<List<u8>, TextError>
    ensures { Reads result (fields_from [] fields.now (map (λ word. word.now) words.now)) }
{
    let mut out = List::new(alloc);
    let mut left = fields;
    for word in words {
        let Some((field, behind)) = left.split_first() else {
            return Err(TextError::BadText);
        };
        read_field(alloc, &mut out, *field, word)?;
        left = behind;
    }
    if left.is_empty() {
        Ok(out)
    } else {
        Err(TextError::BadText)
    }
}

/// The bytes of the fields that a text has, with one space between each two.
///
/// # Errors
/// `BadText` exactly where it isn't that, `OutOfMemory`.
#[tactic(auto, unfolding(crate::specs::Fields::fields_of))]
pub(crate) fn fields_of(alloc: Global, fields: &[Field], text: &[u8]) -> Result<List<u8>, TextError>
    ensures { Reads result (fields_of fields.now text.now) }
{
    let words = parts_between(alloc, text, b' ')?;
    fields_of_words(alloc, fields, &words)
}
