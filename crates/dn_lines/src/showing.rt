//! What `show` writes of a line: the value that its bytes are, or what is wrong first with them.

ghost use Rattle.std.specs.Prelude.{◌≡◌, IfOk, map};
ghost use Rattle.dn_lines.specs.LineOutput.{Outputs, ShowsWords};
ghost use Rattle.dn_lines.specs.Values.{IsShownAs, stored_of, stored_of_kind};
ghost use Rattle.dn_word.specs.Reading.{Reads};

use crate::bad::Bad;
use crate::faults::{property_fault_text, record_fault_text};
use crate::value::Stored;
use dn_io::{List, OutOfMemory};
use dn_property::{PropertyReadError, read_property};
use dn_record::{RecordReadError, read_record};
use dn_text::{property_line, record_line};
use dn_word::{TextError, bytes_of_hex, is_word};
use std::alloc::Global;

// The bytes of a value of the kind that a word names.
#[tactic(auto, unfolding(crate::specs::Values::stored_of_kind))]
fn stored_of_kind(kind: &[u8], bytes: List<u8>) -> Option<Stored>
    ensures { result ≡ stored_of_kind kind.now bytes }
{
    if is_word(kind, b"record") {
        Some(Stored::Record(bytes))
    } else if is_word(kind, b"property") {
        Some(Stored::Property(bytes))
    } else {
        None
    }
}

// `record HEX` or `property HEX`
#[tactic(auto, unfolding(crate::specs::Values::stored_of))]
fn stored_of(alloc: Global, words: &[&[u8]]) -> Result<Stored, TextError>
    ensures { Reads result (stored_of (map (λ word. word.now) words.now)) }
{
    let [kind, digits] = words else {
        return Err(TextError::BadText);
    };
    let bytes = bytes_of_hex(alloc, digits)?;
    match stored_of_kind(kind, bytes) {
        Some(stored) => Ok(stored),
        None => Err(TextError::BadText),
    }
}

fn record_shown(alloc: Global, bytes: &[u8]) -> Result<List<u8>, OutOfMemory>
    ensures { IfOk result (λ text. IsShownAs (Stored.Record bytes.now) text) }
{
    match read_record(alloc, bytes) {
        Ok(item) => record_line(alloc, &item),
        Err(RecordReadError::Bad(fault)) => record_fault_text(alloc, fault),
        Err(RecordReadError::OutOfMemory) => Err(OutOfMemory),
    }
}

fn property_shown(alloc: Global, bytes: &[u8]) -> Result<List<u8>, OutOfMemory>
    ensures { IfOk result (λ text. IsShownAs (Stored.Property bytes.now) text) }
{
    match read_property(alloc, bytes) {
        Ok(item) => property_line(alloc, &item),
        Err(PropertyReadError::Bad(fault)) => property_fault_text(alloc, fault),
        Err(PropertyReadError::OutOfMemory) => Err(OutOfMemory),
    }
}

// The text of the value that the bytes are, or of what is wrong first where they are none.
fn shown_text(alloc: Global, bytes: &Stored) -> Result<List<u8>, OutOfMemory>
    ensures { IfOk result (λ text. IsShownAs bytes.now text) }
{
    match bytes {
        Stored::Record(bytes) => record_shown(alloc, bytes.as_slice()),
        Stored::Property(bytes) => property_shown(alloc, bytes.as_slice()),
    }
}

// The line that `show` writes of the words of a line.
//
// # Errors
// `Line` exactly where the words aren't the bytes of a value, `Memory` where memory wasn't to be had.
pub fn shown_line(alloc: Global, words: &[&[u8]]) -> Result<List<u8>, Bad>
    ensures { Outputs (ShowsWords (map (λ word. word.now) words.now)) result }
{
    match stored_of(alloc, words) {
        Ok(bytes) => {
            let mut line = shown_text(alloc, &bytes)?;
            line.extend(b"\n")?;
            Ok(line)
        }
        Err(TextError::BadText) => Err(Bad::Line),
        Err(TextError::OutOfMemory) => Err(Bad::Memory),
    }
}
