ghost use Rattle.std.specs.Prelude.{◌≡◌, IfOk};
ghost use Rattle.dn_rdata.specs.Layout.{IsData};
ghost use Rattle.dn_text.specs.ReadData.{are_two_strings, formed_data, is_one_string, rdata_of_text, two_strings_of};
ghost use Rattle.dn_word.specs.Reading.{Reads};
ghost use Rattle.dn_text.specs.Shapes.{shape};

use crate::quoted::strings_of;
use crate::read_field::fields_of;
use crate::table::{Form, form_of};
use dn_io::List;
use dn_word::TextError;
use std::alloc::Global;

// Whether bytes are one string behind its length byte.
fn is_one_string(bytes: &[u8]) -> bool
    ensures { result ≡ is_one_string bytes.now }
{
    match bytes.split_first() {
        Some((len, rest)) => usize::from(*len) == rest.len(),
        None => false,
    }
}

// Whether bytes are two strings, each behind its length byte.
fn are_two_strings(bytes: &[u8]) -> bool
    ensures { result ≡ are_two_strings bytes.now }
{
    match bytes.split_first() {
        Some((len, rest)) => is_one_string(&rest[rest.len().min(usize::from(*len))..]),
        None => false,
    }
}

// The two strings that a text spells.
#[tactic(auto, unfolding(crate::specs::ReadData::two_strings_of))]
fn two_strings_of(alloc: Global, text: &[u8]) -> Result<List<u8>, TextError>
    ensures { Reads result (two_strings_of text.now) }
{
    let bytes = strings_of(alloc, text)?;
    if are_two_strings(bytes.as_slice()) {
        Ok(bytes)
    } else {
        Err(TextError::BadText)
    }
}

// The data of this form that a text spells.
#[tactic(auto, unfolding(crate::specs::ReadData::formed_data))]
fn formed_data(alloc: Global, form: Form, text: &[u8]) -> Result<List<u8>, TextError>
    ensures { Reads result (formed_data (shape form) text.now) }
{
    match form {
        Form::Words(fields) => fields_of(alloc, fields, text),
        Form::Texts => strings_of(alloc, text),
        Form::TwoTexts => two_strings_of(alloc, text),
    }
}

/// The data of a type that a text spells, as a row's line has them (RFC 1035 5.1): words with one space between each two, or
/// strings in double quotes. Data of a type without a form of its own are hex digits, or `-` for no bytes.
///
/// # Errors
/// `BadText` exactly where the text spells no data of the type, `OutOfMemory`.
#[tactic(auto, unfolding(crate::specs::ReadData::rdata_of_text), using(crate::proofs::ValidDataLemmas::read_is_data))]
pub fn read_rdata(alloc: Global, rtype: u16, text: &[u8]) -> Result<List<u8>, TextError>
    ensures reads { Reads result (rdata_of_text rtype text.now) }
    ensures valid { IfOk result (λ rdata. IsData rtype rdata) }
{
    formed_data(alloc, form_of(rtype), text)
}
