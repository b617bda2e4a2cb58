//! Records as they are stored (MS-DNSP 2.3.2.2).

use crate::reading::{bad_line, bytes_of, push_bytes};
use dn_io::{List, OutOfMemory};
use dn_rdata::{Record, check_rdata, stored_len};
use dn_record::{RecordError, RecordFault, RecordReadError, RecordView, read_record, write_record};
use dn_word::{is_word, push_count};
use std::alloc::Global;

/// Adds a record's fields.
pub fn push_record(alloc: Global, item: &Record, out: &mut List<u8>) -> Result<(), OutOfMemory> {
    push_count(alloc, out, b"type ", u64::from(item.rtype))?;
    push_count(alloc, out, b" rank ", u64::from(item.rank))?;
    push_count(alloc, out, b" flags ", u64::from(item.flags))?;
    push_count(alloc, out, b" serial ", u64::from(item.serial))?;
    push_times(alloc, item, out)?;
    out.extend(b" data ")?;
    push_bytes(alloc, out, item.rdata.as_slice())
}

fn push_times(alloc: Global, item: &Record, out: &mut List<u8>) -> Result<(), OutOfMemory> {
    push_count(alloc, out, b" ttl ", u64::from(item.ttl))?;
    push_count(alloc, out, b" reserved ", u64::from(item.reserved))?;
    push_count(alloc, out, b" hour ", u64::from(item.hour))
}

fn push_view(alloc: Global, view: &RecordView<'_>, out: &mut List<u8>) -> Result<(), OutOfMemory> {
    push_count(alloc, out, b"type ", u64::from(view.rtype()))?;
    push_count(alloc, out, b" rank ", u64::from(view.rank()))?;
    push_count(alloc, out, b" flags ", u64::from(view.flags()))?;
    push_count(alloc, out, b" serial ", u64::from(view.serial()))?;
    push_view_times(alloc, view, out)?;
    out.extend(b" stored ")?;
    push_bytes(alloc, out, view.stored())
}

fn push_view_times(
    alloc: Global,
    view: &RecordView<'_>,
    out: &mut List<u8>,
) -> Result<(), OutOfMemory> {
    push_count(alloc, out, b" ttl ", u64::from(view.ttl()))?;
    push_count(alloc, out, b" reserved ", u64::from(view.reserved()))?;
    push_count(alloc, out, b" hour ", u64::from(view.hour()))
}

fn push_length_fault(
    alloc: Global,
    said: usize,
    found: usize,
    out: &mut List<u8>,
) -> Result<(), OutOfMemory> {
    push_count(alloc, out, b"LengthDiffers said ", said as u64)?;
    push_count(alloc, out, b" found ", found as u64)
}

fn push_fault(alloc: Global, error: RecordError, out: &mut List<u8>) -> Result<(), OutOfMemory> {
    match error.kind {
        RecordFault::Short => out.extend(b"Short")?,
        RecordFault::LengthDiffers { said, found } => push_length_fault(alloc, said, found, out)?,
        RecordFault::BadVersion => out.extend(b"BadVersion")?,
        RecordFault::BadData => out.extend(b"BadData")?,
    }
    push_count(alloc, out, b" at ", error.place as u64)
}

// Adds how many bytes a record is written as, and whether they are these.
fn push_written(
    alloc: Global,
    item: &Record,
    bytes: &[u8],
    out: &mut List<u8>,
) -> Result<(), OutOfMemory> {
    let len = stored_len(item);
    push_count(alloc, out, b" length ", len as u64)?;
    if len >= 65536 || check_rdata(item.rtype, item.rdata.as_slice()).is_err() {
        return out.extend(b" not written");
    }
    let written = write_record(alloc, item)?;
    if written.as_slice() == bytes {
        return out.extend(b" back");
    }
    out.extend(b" then ")?;
    push_bytes(alloc, out, written.as_slice())
}

// The record that bytes are, and its bytes.
fn read(alloc: Global, bytes: &[u8], out: &mut List<u8>) -> Result<(), OutOfMemory> {
    match read_record(alloc, bytes) {
        Ok(item) => {
            push_record(alloc, &item, out)?;
            push_written(alloc, &item, bytes, out)
        }
        Err(RecordReadError::Bad(error)) => push_fault(alloc, error, out),
        Err(RecordReadError::OutOfMemory) => Err(OutOfMemory),
    }
}

// What bytes lend as a record.
fn lent(alloc: Global, bytes: &[u8], out: &mut List<u8>) -> Result<(), OutOfMemory> {
    match RecordView::read(bytes) {
        Ok(view) => push_view(alloc, &view, out),
        Err(error) => push_fault(alloc, error, out),
    }
}

/// The answer to a call.
pub fn answer(
    alloc: Global,
    call: &[u8],
    text: &[u8],
    out: &mut List<u8>,
) -> Result<(), OutOfMemory> {
    match bytes_of(alloc, text) {
        Some(bytes) if is_word(call, b"read") => read(alloc, bytes.as_slice(), out),
        Some(bytes) if is_word(call, b"lent") => lent(alloc, bytes.as_slice(), out),
        _ => bad_line(out),
    }
}
