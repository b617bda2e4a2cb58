//! Types and their data (RFC 1035 3.3), a type by its number and data as hex digits.

use crate::reading::{bad_line, bytes_of, number16, push_bytes, push_truth, wire_name};
use dn_io::{List, OutOfMemory};
use dn_rdata::{
    A, AAAA, ANY, AXFR, CNAME, IN, MX, NS, PTR, Part, SOA, SRV, answerable, check_rdata,
    minimum_of, names_in, number_of_bytes, parts_of, push_wire, same_rdata,
};
use dn_word::{is_word, push_count, words_of};
use std::alloc::Global;

// The numbers of the types and of the class that have names.
fn numbers(alloc: Global, out: &mut List<u8>) -> Result<(), OutOfMemory> {
    let cases: [(&[u8], u16); 11] = [
        (b"A ", A),
        (b" NS ", NS),
        (b" CNAME ", CNAME),
        (b" SOA ", SOA),
        (b" PTR ", PTR),
        (b" MX ", MX),
        (b" AAAA ", AAAA),
        (b" SRV ", SRV),
        (b" AXFR ", AXFR),
        (b" ANY ", ANY),
        (b" IN ", IN),
    ];
    for (label, number) in cases {
        push_count(alloc, out, label, u64::from(number))?;
    }
    Ok(())
}

// How many names are in the data of a type, and whether it is answered.
fn kind(alloc: Global, rtype: u16, out: &mut List<u8>) -> Result<(), OutOfMemory> {
    push_count(alloc, out, b"names ", names_in(rtype) as u64)?;
    push_truth(out, b" answered ", answerable(rtype))
}

fn push_part(alloc: Global, part: &Part, out: &mut List<u8>) -> Result<(), OutOfMemory> {
    match part {
        Part::Bytes(count) => push_count(alloc, out, b"bytes ", u64::from(*count))?,
        Part::OneName => out.extend(b"name")?,
        Part::OneText => out.extend(b"text")?,
        Part::Texts => out.extend(b"texts")?,
        Part::Rest => out.extend(b"rest")?,
    }
    out.extend(b"|")
}

// The parts of which data of a type consist.
fn parts(alloc: Global, rtype: u16, out: &mut List<u8>) -> Result<(), OutOfMemory> {
    for part in parts_of(rtype) {
        push_part(alloc, part, out)?;
    }
    Ok(())
}

// Whether bytes are data of a type, and where they go wrong.
fn check(alloc: Global, rtype: u16, bytes: &[u8], out: &mut List<u8>) -> Result<(), OutOfMemory> {
    match check_rdata(rtype, bytes) {
        Ok(()) => out.extend(b"valid"),
        Err(fault) => push_count(alloc, out, b"wrong at ", fault.place as u64),
    }
}

// The numbers at the front and at the end of bytes.
fn ends(alloc: Global, bytes: &[u8], out: &mut List<u8>) -> Result<(), OutOfMemory> {
    push_count(alloc, out, b"front ", u64::from(number_of_bytes(bytes)))?;
    push_count(alloc, out, b" end ", u64::from(minimum_of(bytes)))
}

// A name behind bytes.
fn behind(
    alloc: Global,
    front: List<u8>,
    name: &[u8],
    out: &mut List<u8>,
) -> Result<(), OutOfMemory> {
    let mut bytes = front;
    match wire_name(alloc, name) {
        Some(name) => {
            push_wire(&mut bytes, &name)?;
            push_bytes(alloc, out, bytes.as_slice())
        }
        None => bad_line(out),
    }
}

fn of_word(alloc: Global, call: &[u8], word: &[u8], out: &mut List<u8>) -> Result<(), OutOfMemory> {
    if is_word(call, b"numbers") {
        return match bytes_of(alloc, word) {
            Some(bytes) => ends(alloc, bytes.as_slice(), out),
            None => bad_line(out),
        };
    }
    match number16(word) {
        Some(rtype) if is_word(call, b"type") => kind(alloc, rtype, out),
        Some(rtype) => parts(alloc, rtype, out),
        None => bad_line(out),
    }
}

fn of_two(
    alloc: Global,
    call: &[u8],
    first: &[u8],
    second: &[u8],
    out: &mut List<u8>,
) -> Result<(), OutOfMemory> {
    if is_word(call, b"behind") {
        return match bytes_of(alloc, first) {
            Some(front) => behind(alloc, front, second, out),
            None => bad_line(out),
        };
    }
    match (number16(first), bytes_of(alloc, second)) {
        (Some(rtype), Some(bytes)) => check(alloc, rtype, bytes.as_slice(), out),
        _ => bad_line(out),
    }
}

// Whether two data of a type are the same, from both sides.
fn same(
    alloc: Global,
    rtype: &[u8],
    left: &[u8],
    right: &[u8],
    out: &mut List<u8>,
) -> Result<(), OutOfMemory> {
    let (Some(left), Some(right)) = (bytes_of(alloc, left), bytes_of(alloc, right)) else {
        return bad_line(out);
    };
    let Some(rtype) = number16(rtype) else {
        return bad_line(out);
    };
    push_truth(
        out,
        b"",
        same_rdata(rtype, left.as_slice(), right.as_slice()),
    )?;
    push_truth(
        out,
        b" ",
        same_rdata(rtype, right.as_slice(), left.as_slice()),
    )
}

/// The answer to a call.
pub fn answer(
    alloc: Global,
    call: &[u8],
    text: &[u8],
    out: &mut List<u8>,
) -> Result<(), OutOfMemory> {
    let words = words_of(alloc, text)?;
    match words.as_slice() {
        [] => numbers(alloc, out),
        [word] => of_word(alloc, call, word, out),
        [first, second] => of_two(alloc, call, first, second, out),
        [rtype, left, right] => same(alloc, rtype, left, right, out),
        _ => bad_line(out),
    }
}
