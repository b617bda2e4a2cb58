//! Records in memory, whose data are of their type's form (RFC 1035 4.1.3).

ghost use Rattle.std.specs.Prelude.{◌≡◌, ℕ, ◌≤◌, List as Seq, length, IfOk};
ghost use Rattle.dn_message.specs.Reads.{Reads};
ghost use Rattle.dn_message.specs.Record.{IsRr, typed_data};
ghost use Rattle.dn_message.specs.ReplyReading.{AreEntries};
ghost use Rattle.dn_message.specs.declared.rr.Rr.{Rr as Row};

use crate::error::ReadError;
use crate::rdata::read_data;
use crate::record::{behind_data, read_head};
use crate::rr::Rr;
use dn_io::List;
use dn_rdata::{IN, Part, parts_of};
use std::alloc::Global;

pub(crate) fn read_rows(
    alloc: Global,
    bytes: &[u8],
    at: usize,
    count: u16,
) -> Result<(List<Rr>, usize), ReadError>
    requires { at ≤ length bytes.now }
    ensures exact { Reads (λ (found : Seq Row × ℕ). AreEntries (IsRr typed_data bytes.now) count at found.0 found.1) result }
    ensures within { IfOk result (λ found. found.1 ≤ length bytes.now) }
{
    let mut rows = List::new(alloc);
    let mut place = at;
    for _ in 0..count {
        let (row, next) = read_row(alloc, bytes, place)?;
        rows.push(row)?;
        place = next;
    }
    Ok((rows, place))
}

fn read_row(alloc: Global, bytes: &[u8], at: usize) -> Result<(Rr, usize), ReadError>
    requires { at ≤ length bytes.now }
    ensures exact { Reads (λ (found : Row × ℕ). IsRr typed_data bytes.now at found.0 found.1) result }
    ensures within { IfOk result (λ found. found.1 ≤ length bytes.now) }
{
    let (head, place) = read_head(bytes, at)?;
    let next = behind_data(bytes, place, head.len)?;
    let rdata = read_data(
        alloc,
        bytes,
        place,
        next,
        typed_data(head.rtype, head.rclass),
    )?;
    let row = Rr {
        name: head.name,
        rtype: head.rtype,
        rclass: head.rclass,
        ttl: head.ttl,
        rdata,
    };
    Ok((row, next))
}

// Of which parts the data consist: those of the type in class IN, any bytes else.
fn typed_data(rtype: u16, rclass: u16) -> &'static [Part]
    ensures { result.now ≡ typed_data rtype rclass }
{
    if rclass == IN && rtype != 0 {
        parts_of(rtype)
    } else {
        &[Part::Rest]
    }
}
