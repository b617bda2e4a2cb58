ghost use Rattle.std.specs.Prelude.{◌≡◌, ◌-◌, ◌^◌, min, drop, sum_by};
ghost use Rattle.dn_answer.specs.Size.{data_size, fitted, reply_size, rr_size};

use crate::reply::AnswerValue;
use dn_io::List;
use dn_message::Rr;
use dn_name::Name;
use dn_rdata::SOA;
use std::alloc::Global;

// The most bytes of a reply over UDP (RFC 1035 4.2.1).
const UDP_LIMIT: usize = 512;

// The bytes of the header, and those of the question behind its name.
const HEADER_LEN: usize = 12;

const QUESTION_TAIL: usize = 4;

// The bytes of a row's type, class, time to live and length.
const ROW_HEAD: usize = 10;

// What an SOA's primary server counts for: the most bytes of a name, so that no replica's own name decides.
const PRIMARY_LEN: usize = 255;

// The bytes behind the first ones.
pub fn behind(len: usize, bytes: &[u8]) -> &[u8]
    ensures { result.now ≡ drop len bytes.now }
{
    match bytes.split_at_checked(len) {
        Some((_, rest)) => rest,
        None => &[],
    }
}

// How many bytes data counts for, 2^64 - 1 where it would pass that.
fn data_size(rtype: u16, rdata: &[u8]) -> usize
    ensures { result ≡ min (data_size rtype rdata.now) (2 ^ 64 - 1) }
{
    if rtype != SOA {
        return rdata.len();
    }
    match Name::read_plain(rdata) {
        Some((_, len)) => PRIMARY_LEN.saturating_add(behind(len, rdata).len()),
        None => rdata.len(),
    }
}

// How many bytes a row counts for, 2^64 - 1 where it would pass that.
#[tactic(auto, unfolding(crate::specs::Size::rr_size))]
fn rr_size(one: &Rr) -> usize
    ensures { result ≡ min (rr_size one.now) (2 ^ 64 - 1) }
{
    (one.name.wire_len() + ROW_HEAD).saturating_add(data_size(one.rtype, one.rdata.as_slice()))
}

fn rows_size(rows: &[Rr]) -> usize
    ensures { result ≡ min (sum_by rr_size rows.now) (2 ^ 64 - 1) }
{
    let mut sum: usize = 0;
    for one in rows {
        sum = sum.saturating_add(rr_size(one));
    }
    sum
}

// How many bytes a reply counts for, 2^64 - 1 where it would pass that.
#[tactic(auto, unfolding(crate::specs::Size::reply_size))]
fn reply_size(question: &Name, reply: &AnswerValue) -> usize
    ensures { result ≡ min (reply_size question.now reply.now) (2 ^ 64 - 1) }
{
    (HEADER_LEN + question.wire_len() + QUESTION_TAIL)
        .saturating_add(rows_size(reply.answer.as_slice()))
        .saturating_add(rows_size(reply.authority.as_slice()))
        .saturating_add(rows_size(reply.additional.as_slice()))
}

// The reply that goes over UDP: where it passes 512 bytes without its additional rows, and where it still passes that
// it is truncated (RFC 1035 4.1.1).
#[tactic(auto, unfolding(crate::specs::Size::fitted))]
pub fn fitted(alloc: Global, question: &Name, reply: AnswerValue) -> AnswerValue
    ensures { result ≡ fitted question.now reply }
{
    let mut reply = reply;
    if reply_size(question, &reply) <= UDP_LIMIT {
        return reply;
    }
    reply.additional = List::new(alloc);
    if reply_size(question, &reply) <= UDP_LIMIT {
        return reply;
    }
    reply.tc = true;
    reply.answer = List::new(alloc);
    reply.authority = List::new(alloc);
    reply
}
