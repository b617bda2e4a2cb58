//! The pieces of a reply, each written behind the one before it.

ghost use Rattle.std.specs.Prelude.{◌≡◌, ℕ, ◌+◌, ◌<◌, ◌≤◌, ◌^◌, length};
ghost use Rattle.dn_name.specs.Name.{IsName};
ghost use Rattle.dn_rdata.specs.Types.{IN};
ghost use Rattle.dn_message.specs.Pieces.{begun, flags_of, header_with, question_bytes, row_bytes};
ghost use Rattle.dn_message.specs.Record.{fields};
ghost use Rattle.dn_message.specs.Writing.{Appends};

use crate::counts::Counts;
use crate::writer::ReplyHead;
use crate::writing::{bytes_of_kind, put, put_name};
use dn_name::Name;
use dn_rdata::IN;

pub(crate) fn question_len(name: &Name) -> usize
    ensures len { (qtype qclass : ℕ) → result ≡ length (question_bytes (record { name = name.now; qtype = qtype; qclass = qclass })) }
    ensures named { IsName name.now }
{
    name.wire_len() + 4
}

pub(crate) fn row_len(owner: &Name, rdata: &[u8]) -> usize
    requires { length rdata.now < 2 ^ 16 }
    ensures len { (rtype rclass ttl : ℕ) → result ≡ length (row_bytes (record { name = owner.now; rtype = rtype; rclass = rclass; ttl = ttl; rdata = rdata.now })) }
    ensures named { IsName owner.now }
{
    owner.wire_len() + 10 + rdata.len()
}

pub(crate) fn put_question(out: &mut [u8], at: usize, name: &Name, qtype: u16) -> usize
    requires { at + length (question_bytes (record { name = name.now; qtype = qtype; qclass = IN })) ≤ length out.old }
    ensures appends { Appends at out.old (question_bytes (record { name = name.now; qtype = qtype; qclass = IN })) result out.new }
    ensures len { length out.new ≡ length out.old }
{
    let at = put_name(out, at, name);
    put(out, at, &bytes_of_kind(qtype, IN))
}

pub(crate) fn put_row(
    out: &mut [u8],
    at: usize,
    owner: &Name,
    ttl: u32,
    rtype: u16,
    rdata: &[u8],
) -> usize
    requires room { at + length (row_bytes (record { name = owner.now; rtype = rtype; rclass = IN; ttl = ttl; rdata = rdata.now })) ≤ length out.old }
    requires len { length rdata.now < 2 ^ 16 }
    ensures appends { Appends at out.old (row_bytes (record { name = owner.now; rtype = rtype; rclass = IN; ttl = ttl; rdata = rdata.now })) result out.new }
    ensures len { length out.new ≡ length out.old }
{
    let at = put_name(out, at, owner);
    let at = put(out, at, &bytes_of_fields(rtype, ttl, rdata.len() as u16));
    put(out, at, rdata)
}

// What stands between the name and the data of a row of class IN.
fn bytes_of_fields(rtype: u16, ttl: u32, len: u16) -> [u8; 10]
    ensures { result ≡ fields rtype IN ttl len }
{
    let [type_high, type_low] = rtype.to_be_bytes();
    let [class_high, class_low] = IN.to_be_bytes();
    let [ttl_first, ttl_second, ttl_third, ttl_last] = ttl.to_be_bytes();
    let [len_high, len_low] = len.to_be_bytes();
    [
        type_high, type_low, class_high, class_low, ttl_first, ttl_second, ttl_third, ttl_last,
        len_high, len_low,
    ]
}

// The flags of a reply. The rest of them are 0.
fn flags_of(head: ReplyHead) -> u16
    ensures { result ≡ flags_of (begun head) }
{
    let answer = 32768 + 1024 * u16::from(head.aa) + 512 * u16::from(head.tc);
    answer + 256 * u16::from(head.rd) + u16::from(head.rcode.number())
}

pub(crate) fn bytes_of_header(head: ReplyHead, counts: Counts) -> [u8; 12]
    ensures { result ≡ header_with head.id (flags_of (begun head)) counts }
{
    let [id_high, id_low] = head.id.to_be_bytes();
    let [flags_high, flags_low] = flags_of(head).to_be_bytes();
    let [questions_high, questions_low] = counts.questions.to_be_bytes();
    let [answer_high, answer_low] = counts.answer.to_be_bytes();
    let [authority_high, authority_low] = counts.authority.to_be_bytes();
    let [additional_high, additional_low] = counts.additional.to_be_bytes();
    [
        id_high,
        id_low,
        flags_high,
        flags_low,
        questions_high,
        questions_low,
        answer_high,
        answer_low,
        authority_high,
        authority_low,
        additional_high,
        additional_low,
    ]
}
