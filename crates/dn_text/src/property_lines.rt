ghost use Rattle.std.specs.Prelude.{◌≡◌, ◌≤◌, length, None, Some, IfOk, MatchOption};
ghost use Rattle.dn_text.specs.PropertyLines.{id_behind, is_tail, labels_of, property_of_text, property_text, property_with, tail_of, texts_of};
ghost use Rattle.dn_word.specs.Reading.{Reads};

use crate::field::push_digits;
use crate::labelled::{behind_label, number_behind, word_behind};
use crate::property_table::{id_of_word, push_id};
use crate::read_field::digits_of;
use dn_io::{List, OutOfMemory};
use dn_property::Property;
use dn_word::{TextError, bytes_of_hex, push_count, push_hex};
use std::alloc::Global;

// How many bytes a tail has.
const LEAST_TAIL: usize = 1;

const MOST_TAIL: usize = 4;

/// The line of a stored property: `property ID name_length=N flag=N content=HEX tail=HEX`, with the name of the property or its
/// number, and `-` where there is no content.
///
/// # Errors
/// `OutOfMemory`.
#[tactic(auto, unfolding(crate::specs::PropertyLines::property_text))]
pub fn property_line(alloc: Global, item: &Property) -> Result<List<u8>, OutOfMemory>
    ensures { IfOk result (λ line. line ≡ property_text item.now) }
{
    let mut line = List::new(alloc);
    line.extend(b"property ")?;
    push_id(alloc, &mut line, item.id)?;
    push_count(
        alloc,
        &mut line,
        b" name_length=",
        u64::from(item.name_length),
    )?;
    push_count(alloc, &mut line, b" flag=", u64::from(item.flag))?;
    line.extend(b" content=")?;
    push_digits(alloc, &mut line, item.content.as_slice())?;
    line.extend(b" tail=")?;
    push_hex(alloc, &mut line, item.tail.as_slice())?;
    Ok(line)
}

// What a property's line says before its content.
#[derive(Clone, Copy)]
pub(crate) struct Labels {
    pub(crate) id: u32,
    pub(crate) name_length: u32,
    pub(crate) flag: u32,
}

// The property that a line is about, and what stands behind it.
#[tactic(auto, unfolding(crate::specs::PropertyLines::id_behind))]
fn id_behind(line: &[u8]) -> Option<(u32, &[u8])>
    ensures { let there = id_behind line.now in
        MatchOption result (there ≡ None) (λ found. there ≡ Some (found.0, found.1.now)) }
{
    let (word, rest) = word_behind(b"property ", line)?;
    let id = id_of_word(word)?;
    Some((id, rest))
}

#[tactic(auto, unfolding(crate::specs::PropertyLines::labels_of))]
fn labels_of(line: &[u8]) -> Option<(Labels, &[u8])>
    ensures { let there = labels_of line.now in
        MatchOption result (there ≡ None) (λ found. there ≡ Some (found.0, found.1.now)) }
{
    let (id, rest) = id_behind(line)?;
    let (name_length, rest) = number_behind(b"name_length=", u32::MAX, rest)?;
    let (flag, rest) = number_behind(b"flag=", u32::MAX, rest)?;
    Some((
        Labels {
            id,
            name_length,
            flag,
        },
        rest,
    ))
}

// What a property's line says before its content, the word of the content, and the digits of the tail.
#[tactic(auto, unfolding(crate::specs::PropertyLines::texts_of))]
fn texts_of(line: &[u8]) -> Option<(Labels, &[u8], &[u8])>
    ensures { let there = texts_of line.now in
        MatchOption result (there ≡ None) (λ found. there ≡ Some (found.0, found.1.now, found.2.now)) }
{
    let (labels, rest) = labels_of(line)?;
    let (content, rest) = word_behind(b"content=", rest)?;
    let tail = behind_label(b"tail=", rest)?;
    Some((labels, content, tail))
}

fn is_tail(bytes: &[u8]) -> bool
    ensures { result ≡ is_tail bytes.now }
{
    (LEAST_TAIL..=MOST_TAIL).contains(&bytes.len())
}

// The bytes of a tail.
#[tactic(auto, unfolding(crate::specs::PropertyLines::tail_of))]
fn tail_of(alloc: Global, digits: &[u8]) -> Result<List<u8>, TextError>
    ensures reads { Reads result (tail_of digits.now) }
    ensures few { IfOk result (λ tail. (1 ≤ length tail) × (length tail ≤ 4)) }
{
    let tail = bytes_of_hex(alloc, digits)?;
    if is_tail(tail.as_slice()) {
        Ok(tail)
    } else {
        Err(TextError::BadText)
    }
}

// The property with this content and tail.
fn property_with(labels: Labels, content: List<u8>, tail: List<u8>) -> Property
    ensures { result ≡ property_with labels content tail }
{
    Property {
        name_length: labels.name_length,
        flag: labels.flag,
        id: labels.id,
        content,
        tail,
    }
}

/// The property that a line is, in exactly the form that [`property_line`] prints, with one space between each two words. The
/// tail has 1 to 4 bytes.
///
/// # Errors
/// `BadText` exactly where the line isn't that, `OutOfMemory`.
#[tactic(auto, unfolding(crate::specs::PropertyLines::property_of_text))]
pub fn read_property_line(alloc: Global, line: &[u8]) -> Result<Property, TextError>
    ensures reads { Reads result (property_of_text line.now) }
    ensures tail { IfOk result (λ item. (1 ≤ length item.tail) × (length item.tail ≤ 4)) }
{
    match texts_of(line) {
        Some((labels, content, tail)) => {
            let content = digits_of(alloc, content)?;
            let tail = tail_of(alloc, tail)?;
            Ok(property_with(labels, content, tail))
        }
        None => Err(TextError::BadText),
    }
}
