ghost use Rattle.std.specs.Prelude.{◌≡◌, ◌-◌, drop, length, map, take, IfOk};
ghost use Rattle.dn_answer.specs.Answer.{answer_of, answered_data, refused, reply_of_rows, reply_of_walk, rr_of, serial_of, soa_data};

use crate::glue::{glue, owner_of};
use crate::lookups::Rows;
use crate::reply::AnswerValue;
use crate::size::{behind, fitted};
use crate::walk::{Walk, walk_from};
use dn_io::{List, OutOfMemory};
use dn_message::{Rcode, Rr};
use dn_name::Name;
use dn_rdata::{AXFR, IN, SOA, push_wire};
use dn_store::{Owned, Table};
use std::alloc::Global;

// How many serials there are (RFC 1982).
const SERIALS: u64 = 1 << 32;

// The bytes of an SOA's five numbers (RFC 1035 3.3.13).
const NUMBERS: usize = 20;

// How many aliases are followed at most.
const MAX_LINKS: u8 = 16;

// The first bytes, up to so many from the end.
fn up_to_end(rest: &[u8], tail: usize) -> &[u8]
    ensures { result.now ≡ take (length rest.now - tail) rest.now }
{
    &rest[..rest.len().saturating_sub(tail)]
}

// The last bytes, at most so many.
fn at_end(rest: &[u8], tail: usize) -> &[u8]
    ensures { result.now ≡ drop (length rest.now - tail) rest.now }
{
    &rest[rest.len().saturating_sub(tail)..]
}

// An SOA's data with this primary server and this serial (RFC 1035 3.3.13). Data that is too short for an SOA's five
// numbers stays.
#[tactic(auto, unfolding(crate::specs::Answer::soa_data))]
fn soa_data(alloc: Global, host: &Name, serial: u32, rdata: &[u8]) -> Result<List<u8>, OutOfMemory>
    ensures { IfOk result (λ bytes. bytes ≡ soa_data host.now serial rdata.now) }
{
    let Some((_, len)) = Name::read_plain(rdata) else {
        return List::from_slice(alloc, rdata);
    };
    let rest = behind(len, rdata);
    if rest.len() < NUMBERS {
        return List::from_slice(alloc, rdata);
    }
    let mut data = List::new(alloc);
    push_wire(&mut data, host)?;
    data.extend(up_to_end(rest, NUMBERS))?;
    data.extend(&serial.to_be_bytes())?;
    data.extend(at_end(rest, 16))?;
    Ok(data)
}

// The data of a row as it is answered: the apex's SOA names the replica that answers.
fn answered_data(
    alloc: Global,
    apex: &Name,
    host: &Name,
    serial: u32,
    one: &Owned,
) -> Result<List<u8>, OutOfMemory>
    ensures { IfOk result (λ bytes. bytes ≡ answered_data apex.now host.now serial one.now) }
{
    let rdata = one.row.rdata.as_slice();
    if one.row.rtype == SOA && one.name.same(apex) {
        soa_data(alloc, host, serial, rdata)
    } else {
        List::from_slice(alloc, rdata)
    }
}

// A row in a reply.
#[tactic(auto, unfolding(crate::specs::Answer::rr_of))]
fn rr_of(
    alloc: Global,
    spelled: &[Name],
    apex: &Name,
    host: &Name,
    serial: u32,
    one: &Owned,
) -> Result<Rr, OutOfMemory>
    ensures { IfOk result (λ row. row ≡ rr_of spelled.now apex.now host.now serial one.now) }
{
    Ok(Rr {
        name: owner_of(spelled, &one.name),
        rtype: one.row.rtype,
        rclass: IN,
        ttl: one.row.ttl,
        rdata: answered_data(alloc, apex, host, serial, one)?,
    })
}

fn rrs_of(
    alloc: Global,
    spelled: &[Name],
    apex: &Name,
    host: &Name,
    serial: u32,
    rows: &[Owned],
) -> Result<List<Rr>, OutOfMemory>
    ensures { IfOk result (λ list. list ≡ map (rr_of spelled.now apex.now host.now serial) rows.now) }
{
    let mut list = List::new(alloc);
    for one in rows {
        list.push(rr_of(alloc, spelled, apex, host, serial, one)?)?;
    }
    Ok(list)
}

// The reply that a walk gives, of any size.
#[tactic(auto, unfolding(crate::specs::Answer::reply_of_walk))]
fn reply_of_walk(
    alloc: Global,
    rows: &Rows,
    apex: &Name,
    host: &Name,
    serial: u32,
    walked: &Walk,
) -> Result<AnswerValue, OutOfMemory>
    ensures { IfOk result (λ reply. reply ≡ reply_of_walk rows.now apex.now host.now serial walked.now) }
{
    let spelled = walked.spelled.as_slice();
    let (found, beside) = (walked.answer.as_slice(), walked.authority.as_slice());
    let mut put = List::from_slice(alloc, found)?;
    put.extend_copies(alloc, beside)?;
    Ok(AnswerValue {
        rcode: walked.rcode,
        aa: !(walked.refers && found.is_empty()),
        tc: false,
        answer: rrs_of(alloc, spelled, apex, host, serial, found)?,
        authority: rrs_of(alloc, spelled, apex, host, serial, beside)?,
        additional: glue(alloc, spelled, rows, apex, put.as_slice())?,
    })
}

/// The reply REFUSED, which has no rows (RFC 1035 4.1.1).
pub fn refused(alloc: Global) -> AnswerValue
    ensures { result ≡ refused }
{
    AnswerValue {
        rcode: Rcode::Refused,
        aa: false,
        tc: false,
        answer: List::new(alloc),
        authority: List::new(alloc),
        additional: List::new(alloc),
    }
}

// The reply of a zone with these rows. The SOA of its apex is answered with this serial and this primary server.
#[tactic(auto, unfolding(crate::specs::Answer::reply_of_rows))]
fn reply_of_rows(
    alloc: Global,
    rows: &Rows,
    apex: &Name,
    serial: u32,
    host: &Name,
    name: &Name,
    qtype: u16,
) -> Result<AnswerValue, OutOfMemory>
    ensures { IfOk result (λ reply. reply ≡ reply_of_rows rows.now apex.now serial host.now name.now qtype) }
{
    if qtype == AXFR || !rows.has_type(SOA, apex) {
        return Ok(refused(alloc));
    }
    let mut spelled = List::new(alloc);
    spelled.push(*name)?;
    let walked = walk_from(alloc, MAX_LINKS, rows, apex, qtype, spelled, name)?;
    let reply = reply_of_walk(alloc, rows, apex, host, serial, &walked)?;
    Ok(fitted(alloc, name, reply))
}

// The serial that a zone's SOA is answered with: one above its change count, in 32 bits.
fn serial_of(count: u64) -> u32
    ensures { result ≡ serial_of count }
{
    ((count % SERIALS + 1) % SERIALS) as u32
}

/// The reply of a zone to a question of class IN (RFC 1034 4.3.2): REFUSED where it has no SOA at its apex, or for a
/// transfer. `apex` is the zone's name, `host` the replica's own, which is the primary server of the SOA that is answered.
///
/// # Errors
/// `OutOfMemory`.
#[tactic(auto, unfolding(crate::specs::Answer::answer_of))]
pub fn answer(
    alloc: Global,
    table: &Table,
    apex: &Name,
    host: &Name,
    name: &Name,
    qtype: u16,
) -> Result<AnswerValue, OutOfMemory>
    ensures { IfOk result (λ reply. reply ≡ answer_of table.now apex.now host.now name.now qtype) }
{
    let serial = serial_of(table.top());
    reply_of_rows(alloc, &Rows::of(table), apex, serial, host, name, qtype)
}
