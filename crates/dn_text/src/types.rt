ghost use Rattle.std.specs.Prelude.{◌≡◌, ◌++◌, [], drop, take, OnOk};
ghost use Rattle.dn_text.specs.Table.{name_in, type_named, type_text};
ghost use Rattle.dn_text.specs.Types.{is_type_a, question_type, type_numbered, type_of};

use crate::table::{known_types, with_name, with_number};
use dn_io::{List, OutOfMemory};
use dn_rdata::{ANY, AXFR};
use dn_word::{is_word, number_within, push_number};
use std::alloc::Global;

// Prints `TYPE` and a number.
fn push_type_number(alloc: Global, out: &mut List<u8>, rtype: u16) -> Result<(), OutOfMemory>
    ensures { OnOk result (out.new ≡ out.old ++ name_in [] rtype) }
{
    out.extend(b"TYPE")?;
    push_number(alloc, out, u64::from(rtype))
}

/// Prints a type: its name, or `TYPE` and the number of one that has none (RFC 3597 5).
pub(crate) fn push_type(alloc: Global, out: &mut List<u8>, rtype: u16) -> Result<(), OutOfMemory>
    ensures { OnOk result (out.new ≡ out.old ++ type_text rtype) }
{
    match with_number(known_types(), rtype) {
        Some(known) => out.extend(known.name),
        None => push_type_number(alloc, out, rtype),
    }
}

// The type of this name.
fn type_named(word: &[u8]) -> Option<u16>
    ensures { result ≡ type_named word.now }
{
    with_name(known_types(), word).map(|known| known.number)
}

// The number behind `TYPE`.
#[tactic(auto, unfolding(crate::specs::Types::type_numbered))]
fn type_numbered(word: &[u8]) -> Option<u16>
    ensures { result ≡ type_numbered word.now }
{
    let (label, digits) = word.split_at(word.len().min(4));
    if !is_word(label, b"TYPE") {
        return None;
    }
    let number = number_within(65535, digits)?;
    Some(number as u16)
}

// The type of a question that no record has.
#[tactic(auto, unfolding(crate::specs::Types::question_type))]
fn question_type(word: &[u8]) -> Option<u16>
    ensures { result ≡ question_type word.now }
{
    if is_word(word, b"ANY") {
        Some(ANY)
    } else if is_word(word, b"AXFR") {
        Some(AXFR)
    } else {
        type_numbered(word)
    }
}

/// The type that a word stands for: by its name, `ANY` or `AXFR`, or by `TYPE` and its number (RFC 1035 3.2.2 and 3.2.3, RFC
/// 3597 5).
#[tactic(auto, unfolding(crate::specs::Types::type_of))]
pub fn type_of(word: &[u8]) -> Option<u16>
    ensures { result ≡ type_of word.now }
{
    match type_named(word) {
        Some(rtype) => Some(rtype),
        None => question_type(word),
    }
}

/// Whether a word is the type A, by its name or its number.
#[tactic(auto, unfolding(crate::specs::Types::is_type_a))]
pub fn is_type_a(word: &[u8]) -> bool
    ensures { result ≡ is_type_a word.now }
{
    is_word(word, b"A") || is_word(word, b"TYPE1")
}
