//! What `pack` writes of a line: the bytes of the value that it is.

ghost use Rattle.std.specs.Prelude.{◌≡◌, ◌++◌, IfOk};
ghost use Rattle.dn_lines.specs.LineOutput.{CanBeWritten, Outputs, PacksLine};
ghost use Rattle.dn_lines.specs.Values.{IsValue, fitting_property, fitting_record, stored_text, value_of};
ghost use Rattle.dn_word.specs.Hex.{hex_text};
ghost use Rattle.dn_word.specs.Print.{as_line};
ghost use Rattle.dn_word.specs.Reading.{Reads};

use crate::bad::Bad;
use crate::value::{Stored, Value};
use dn_io::{List, OutOfMemory};
use dn_property::write_property;
use dn_rdata::stored_len;
use dn_record::write_record;
use dn_text::{read_property_line, read_record_line};
use dn_word::{TextError, push_hex};
use std::alloc::Global;

// How many bytes a stored record has less than: a header of 24, and data whose length stands in two bytes.
const RECORD_LEN: usize = 24 + (1 << 16);

// How many bytes the content of a property has less than, whose length stands in four.
const CONTENT_LEN: usize = 1 << 32;

// The record that a line is. One whose data are longer than a header can say is none.
#[tactic(auto, unfolding(crate::specs::Values::fitting_record))]
fn fitting_record(alloc: Global, line: &[u8]) -> Result<Value, TextError>
    ensures reads { Reads result (fitting_record line.now) }
    ensures fits { IfOk result CanBeWritten }
{
    let item = read_record_line(alloc, line)?;
    if stored_len(&item) < RECORD_LEN {
        Ok(Value::Record(item))
    } else {
        Err(TextError::BadText)
    }
}

// The property that a line is. One whose content is longer than its head can say is none.
#[tactic(auto, unfolding(crate::specs::Values::fitting_property))]
fn fitting_property(alloc: Global, line: &[u8]) -> Result<Value, TextError>
    ensures reads { Reads result (fitting_property line.now) }
    ensures fits { IfOk result CanBeWritten }
{
    let item = read_property_line(alloc, line)?;
    if item.content.len() < CONTENT_LEN {
        Ok(Value::Property(item))
    } else {
        Err(TextError::BadText)
    }
}

// The value that a line is: a record or a property that fits.
#[tactic(auto, unfolding(crate::specs::Values::value_of))]
fn value_of(alloc: Global, line: &[u8]) -> Result<Value, TextError>
    ensures reads { Reads result (value_of line.now) }
    ensures fits { IfOk result CanBeWritten }
{
    match fitting_record(alloc, line) {
        Ok(value) => Ok(value),
        Err(TextError::BadText) => fitting_property(alloc, line),
        Err(TextError::OutOfMemory) => Err(TextError::OutOfMemory),
    }
}

// The bytes of a value.
fn bytes_of(alloc: Global, value: &Value) -> Result<Stored, OutOfMemory>
    requires { CanBeWritten value.now }
    ensures { IfOk result (λ bytes. IsValue bytes value.now) }
{
    match value {
        Value::Record(item) => Ok(Stored::Record(write_record(alloc, item)?)),
        Value::Property(item) => Ok(Stored::Property(write_property(alloc, item)?)),
    }
}

fn labelled(alloc: Global, label: &[u8], bytes: &[u8]) -> Result<List<u8>, OutOfMemory>
    ensures { IfOk result (λ line. line ≡ as_line (label.now ++ hex_text bytes.now)) }
{
    let mut line = List::from_slice(alloc, label)?;
    push_hex(alloc, &mut line, bytes)?;
    line.extend(b"\n")?;
    Ok(line)
}

// The line of a value's bytes.
#[tactic(auto, unfolding(crate::specs::Values::stored_text))]
fn stored_line(alloc: Global, bytes: &Stored) -> Result<List<u8>, OutOfMemory>
    ensures { IfOk result (λ line. line ≡ as_line (stored_text bytes.now)) }
{
    match bytes {
        Stored::Record(bytes) => labelled(alloc, b"record ", bytes.as_slice()),
        Stored::Property(bytes) => labelled(alloc, b"property ", bytes.as_slice()),
    }
}

// The line that `pack` writes of a line.
//
// # Errors
// `Line` exactly where the line is no value, `Memory` where memory wasn't to be had.
pub fn packed_line(alloc: Global, line: &[u8]) -> Result<List<u8>, Bad>
    ensures { Outputs (PacksLine line.now) result }
{
    match value_of(alloc, line) {
        Ok(value) => {
            let bytes = bytes_of(alloc, &value)?;
            Ok(stored_line(alloc, &bytes)?)
        }
        Err(TextError::BadText) => Err(Bad::Line),
        Err(TextError::OutOfMemory) => Err(Bad::Memory),
    }
}
