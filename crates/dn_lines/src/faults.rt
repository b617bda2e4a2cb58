//! What is wrong first with bytes that are no stored value, as text.

ghost use Rattle.std.specs.Prelude.{◌≡◌, ◌++◌, codes, IfOk, OnOk};
ghost use Rattle.dn_lines.specs.Values.{lengths_text, property_fault_name, property_fault_text, record_fault_name, record_fault_text};
ghost use Rattle.dn_word.specs.Print.{count_text};

use dn_io::{List, OutOfMemory};
use dn_property::{PropertyError, PropertyFault};
use dn_record::{RecordError, RecordFault};
use dn_word::push_count;
use std::alloc::Global;

// A fault by its name, and its place.
fn fault_at(alloc: Global, name: &[u8], place: usize) -> Result<List<u8>, OutOfMemory>
    ensures { IfOk result (λ text. text ≡ codes "fault " ++ name.now ++ count_text (codes " at ") place) }
{
    let mut text = List::from_slice(alloc, b"fault ")?;
    text.extend(name)?;
    push_count(alloc, &mut text, b" at ", place as u64)?;
    Ok(text)
}

fn record_fault_name(kind: RecordFault) -> &'static [u8]
    ensures { result.now ≡ record_fault_name kind }
{
    match kind {
        RecordFault::Short => b"Short",
        RecordFault::LengthDiffers { .. } => b"LengthDiffers",
        RecordFault::BadVersion => b"BadVersion",
        RecordFault::BadData => b"BadData",
    }
}

// Where two lengths differ, both are told.
fn push_lengths(alloc: Global, out: &mut List<u8>, kind: RecordFault) -> Result<(), OutOfMemory>
    ensures { OnOk result (out.new ≡ out.old ++ lengths_text kind) }
{
    match kind {
        RecordFault::LengthDiffers { said, found } => {
            push_count(alloc, out, b" said ", said as u64)?;
            push_count(alloc, out, b" found ", found as u64)
        }
        RecordFault::Short | RecordFault::BadVersion | RecordFault::BadData => Ok(()),
    }
}

// The text of what is wrong first with the bytes of a record: its kind and its place, from 0.
//
// # Errors
// `OutOfMemory`.
#[tactic(auto, unfolding(crate::specs::Values::record_fault_text))]
pub fn record_fault_text(alloc: Global, fault: RecordError) -> Result<List<u8>, OutOfMemory>
    ensures { IfOk result (λ text. text ≡ record_fault_text fault.kind fault.place) }
{
    let mut text = fault_at(alloc, record_fault_name(fault.kind), fault.place)?;
    push_lengths(alloc, &mut text, fault.kind)?;
    Ok(text)
}

fn property_fault_name(kind: PropertyFault) -> &'static [u8]
    ensures { result.now ≡ property_fault_name kind }
{
    match kind {
        PropertyFault::Short => b"Short",
        PropertyFault::BadVersion => b"BadVersion",
        PropertyFault::LongTail => b"LongTail",
    }
}

// The text of what is wrong first with the bytes of a property: its kind and its place, from 0.
//
// # Errors
// `OutOfMemory`.
#[tactic(auto, unfolding(crate::specs::Values::property_fault_text))]
pub fn property_fault_text(alloc: Global, fault: PropertyError) -> Result<List<u8>, OutOfMemory>
    ensures { IfOk result (λ text. text ≡ property_fault_text fault.kind fault.place) }
{
    fault_at(alloc, property_fault_name(fault.kind), fault.place)
}
