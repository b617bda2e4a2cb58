//! The data of a record in memory, part by part, with each name in them written out (RFC 1035 3.3 and 4.1.4).

ghost use Rattle.std.specs.Prelude.{ℕ, ◌≤◌, List as Seq, length, IfOk};
ghost use Rattle.dn_rdata.specs.Laid.{Laid, Lies};
ghost use Rattle.dn_rdata.specs.declared.parts.Part.TheVariants as kinds;
ghost use Rattle.dn_message.specs.Reads.{Reads};
ghost use Rattle.dn_message.specs.ReplyReading.{Grows};

use crate::error::{FormError, FormFault, ReadError};
use crate::record::read_name;
use dn_io::{List, OutOfMemory};
use dn_rdata::{Part, check_rdata, push_wire};
use std::alloc::Global;

// The type whose data are strings (RFC 1035 3.3.14).
const TXT: u16 = 16;

#[derive(Clone, Copy)]
enum PartError {
    // It doesn't lie there.
    Missing,
    OutOfMemory,
}

impl From<OutOfMemory> for PartError {
    ghost use Rattle.std.specs.Prelude.{◌≡◌};
    ghost use Rattle.dn_message.specs.declared.rdata.PartError.TheVariants as errors;

    ghost from_gives = { λ _ error. error ≡ errors.OutOfMemory };

    fn from(_refused: OutOfMemory) -> Self {
        PartError::OutOfMemory
    }
}

// Reads data that lie between two places and consist of these parts. Whichever part is at fault, the place is that of the
// data.
pub(crate) fn read_data(
    alloc: Global,
    bytes: &[u8],
    at: usize,
    end: usize,
    parts: &[Part],
) -> Result<List<u8>, ReadError>
    requires at { at ≤ length bytes.now }
    requires end { end ≤ length bytes.now }
    ensures { Reads (Laid bytes.now at end parts.now) result }
{
    let mut data = List::new(alloc);
    match add_parts(bytes, at, end, parts, &mut data) {
        Ok(()) => Ok(data),
        Err(PartError::Missing) => Err(ReadError::Form(FormError {
            place: at,
            kind: FormFault::BadRdata,
        })),
        Err(PartError::OutOfMemory) => Err(ReadError::OutOfMemory),
    }
}

// Adds the parts one behind another up to the end. There are three at most, so few calls stand in each other. A part that
// reaches past the end is found out there, since no later part leads back to it.
fn add_parts(
    bytes: &[u8],
    at: usize,
    end: usize,
    parts: &[Part],
    out: &mut List<u8>,
) -> Result<(), PartError>
    requires at { at ≤ length bytes.now }
    requires end { end ≤ length bytes.now }
    ensures { Grows (λ piece _. piece) (Laid bytes.now at end parts.now) out.old out.new result }
{
    match parts.split_first() {
        None => {
            if at == end {
                Ok(())
            } else {
                Err(PartError::Missing)
            }
        }
        Some((part, parts)) => {
            let next = add_part(bytes, at, end, *part, out)?;
            add_parts(bytes, next, end, parts, out)
        }
    }
}

fn add_part(
    bytes: &[u8],
    at: usize,
    end: usize,
    part: Part,
    out: &mut List<u8>,
) -> Result<usize, PartError>
    requires at { at ≤ length bytes.now }
    requires end { end ≤ length bytes.now }
    ensures grows { Grows (λ piece next. (piece, next)) (λ (found : Seq ℕ × ℕ). Lies bytes.now at end part found.0 found.1) out.old out.new result }
    ensures within { IfOk result (λ next. next ≤ length bytes.now) }
{
    match part {
        Part::Bytes(count) => add_bytes(bytes, at, usize::from(count), out),
        Part::OneName => add_name(bytes, at, out),
        Part::OneText => add_text(bytes, at, out),
        Part::Texts => add_texts(bytes, at, end, out),
        Part::Rest => add_rest(bytes, at, end, out),
    }
}

fn add_bytes(bytes: &[u8], at: usize, count: usize, out: &mut List<u8>) -> Result<usize, PartError>
    requires { at ≤ length bytes.now }
    ensures grows { (end : ℕ) → Grows (λ piece next. (piece, next)) (λ (found : Seq ℕ × ℕ). Lies bytes.now at end (kinds.Bytes count) found.0 found.1) out.old out.new result }
    ensures within { IfOk result (λ next. next ≤ length bytes.now) }
{
    let (_, rest) = bytes.split_at(at);
    match rest.split_at_checked(count) {
        Some((piece, _)) => {
            out.extend(piece)?;
            Ok(at + count)
        }
        None => Err(PartError::Missing),
    }
}

// Adds a name, written out.
fn add_name(bytes: &[u8], at: usize, out: &mut List<u8>) -> Result<usize, PartError>
    requires { at ≤ length bytes.now }
    ensures grows { (end : ℕ) → Grows (λ piece next. (piece, next)) (λ (found : Seq ℕ × ℕ). Lies bytes.now at end kinds.OneName found.0 found.1) out.old out.new result }
    ensures within { IfOk result (λ next. next ≤ length bytes.now) }
{
    match read_name(bytes, at) {
        Ok((name, next)) => {
            push_wire(out, &name)?;
            Ok(next)
        }
        Err(_) => Err(PartError::Missing),
    }
}

fn add_text(bytes: &[u8], at: usize, out: &mut List<u8>) -> Result<usize, PartError>
    requires { at ≤ length bytes.now }
    ensures grows { (end : ℕ) → Grows (λ piece next. (piece, next)) (λ (found : Seq ℕ × ℕ). Lies bytes.now at end kinds.OneText found.0 found.1) out.old out.new result }
    ensures within { IfOk result (λ next. next ≤ length bytes.now) }
{
    let (_, rest) = bytes.split_at(at);
    match rest.split_first() {
        Some((&len, _)) => add_bytes(bytes, at, 1 + usize::from(len), out),
        None => Err(PartError::Missing),
    }
}

// Adds one or more strings, up to the end.
fn add_texts(bytes: &[u8], at: usize, end: usize, out: &mut List<u8>) -> Result<usize, PartError>
    requires at { at ≤ length bytes.now }
    requires end { end ≤ length bytes.now }
    ensures grows { Grows (λ piece next. (piece, next)) (λ (found : Seq ℕ × ℕ). Lies bytes.now at end kinds.Texts found.0 found.1) out.old out.new result }
    ensures within { IfOk result (λ next. next ≤ length bytes.now) }
{
    let (front, _) = bytes.split_at(end);
    match front.split_at_checked(at) {
        Some((_, rest)) => match check_rdata(TXT, rest) {
            Ok(()) => add_rest(bytes, at, end, out),
            Err(_) => Err(PartError::Missing),
        },
        None => Err(PartError::Missing),
    }
}

fn add_rest(bytes: &[u8], at: usize, end: usize, out: &mut List<u8>) -> Result<usize, PartError>
    requires at { at ≤ length bytes.now }
    requires end { end ≤ length bytes.now }
    ensures grows { Grows (λ piece next. (piece, next)) (λ (found : Seq ℕ × ℕ). Lies bytes.now at end kinds.Rest found.0 found.1) out.old out.new result }
    ensures within { IfOk result (λ next. next ≤ length bytes.now) }
{
    if end < at {
        return Err(PartError::Missing);
    }
    add_bytes(bytes, at, end - at, out)
}
