//! The parts of a record's data.

use crate::reading::push_bytes;
use dn_io::{List, OutOfMemory};
use dn_rdata::{DataView, Record, check_rdata};
use dn_word::push_count;
use std::alloc::Global;

fn push_part(
    alloc: Global,
    label: &[u8],
    bytes: &[u8],
    out: &mut List<u8>,
) -> Result<(), OutOfMemory> {
    out.extend(label)?;
    push_bytes(alloc, out, bytes)
}

fn push_soa(
    alloc: Global,
    primary: &[u8],
    mailbox: &[u8],
    numbers: &[u8],
    out: &mut List<u8>,
) -> Result<(), OutOfMemory> {
    push_part(alloc, b"Soa primary ", primary, out)?;
    push_part(alloc, b" mailbox ", mailbox, out)?;
    push_part(alloc, b" numbers ", numbers, out)
}

fn push_mx(
    alloc: Global,
    preference: u16,
    exchange: &[u8],
    out: &mut List<u8>,
) -> Result<(), OutOfMemory> {
    push_count(alloc, out, b"Mx preference ", u64::from(preference))?;
    push_part(alloc, b" exchange ", exchange, out)
}

fn push_srv(
    alloc: Global,
    numbers: (u16, u16, u16),
    target: &[u8],
    out: &mut List<u8>,
) -> Result<(), OutOfMemory> {
    push_count(alloc, out, b"Srv priority ", u64::from(numbers.0))?;
    push_count(alloc, out, b" weight ", u64::from(numbers.1))?;
    push_count(alloc, out, b" port ", u64::from(numbers.2))?;
    push_part(alloc, b" target ", target, out)
}

fn push_view(alloc: Global, seen: DataView<'_>, out: &mut List<u8>) -> Result<(), OutOfMemory> {
    match seen {
        DataView::Address(bytes) => push_part(alloc, b"Address ", bytes, out),
        DataView::OneName(bytes) => push_part(alloc, b"OneName ", bytes, out),
        DataView::Soa {
            primary,
            mailbox,
            numbers,
        } => push_soa(alloc, primary, mailbox, numbers, out),
        DataView::Mx {
            preference,
            exchange,
        } => push_mx(alloc, preference, exchange, out),
        DataView::Srv {
            priority,
            weight,
            port,
            target,
        } => push_srv(alloc, (priority, weight, port), target, out),
        DataView::Strings(bytes) => push_part(alloc, b"Strings ", bytes, out),
        DataView::Other(bytes) => push_part(alloc, b"Other ", bytes, out),
    }
}

/// What is seen of a record's data.
pub fn view(alloc: Global, row: &Record, out: &mut List<u8>) -> Result<(), OutOfMemory> {
    if check_rdata(row.rtype, row.rdata.as_slice()).is_ok() {
        push_view(alloc, row.view(), out)
    } else {
        out.extend(b"not valid")
    }
}
