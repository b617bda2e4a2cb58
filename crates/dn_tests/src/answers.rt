//! Answers in bytes.

ghost use Rattle.std.specs.Prelude.{◌≡◌, ◌≤◌, sum_by};
ghost use Rattle.std.specs.List.{AllByRecursion};
ghost use Rattle.dn_rdata.specs.Types.{IN};
ghost use Rattle.dn_answer.specs.Sendable.{IsSendable, IsSendableRow, rr_len};

use crate::fixtures::{check_bytes, name};
use dn_answer::{AnswerValue, refused, write_answer};
use dn_io::List;
use dn_message::{Query, Rcode, Rr};
use dn_rdata::{A, CNAME, IN, SOA, check_rdata};
use std::alloc::Global;
use std::process::Abort;

/// An SOA of primary server h. and mailbox r., serial 36 and minimum 3600.
const ANSWERED_START: &[u8] =
    b"\x01h\0\x01r\0\0\0\0\x24\0\0\x03\x84\0\0\x02\x58\0\x01\x51\x80\0\0\x0e\x10";

/// A query for the addresses of `w.x`.
fn query(rt: &impl Abort, rd: bool) -> Query
    ensures { result.qclass ≡ IN }
{
    Query {
        id: 0x1234,
        rd,
        name: name(rt, "w.x"),
        qtype: A,
        qclass: IN,
        opt: None,
        signed: false,
    }
}

/// A section of one row, whose data are valid and which takes 80 bytes at most.
fn section(
    rt: &impl Abort,
    alloc: Global,
    owner: &str,
    rtype: u16,
    ttl: u32,
    rdata: &[u8],
) -> List<Rr>
    ensures valid { AllByRecursion IsSendableRow result }
    ensures len { sum_by rr_len result ≤ 80 }
{
    assert!(rt; check_rdata(rtype, rdata).is_ok());
    let owner = name(rt, owner);
    assert!(rt; owner.wire_len() <= 10 && rdata.len() <= 60);
    let mut rows = List::new(alloc);
    rows.push(Rr {
        name: owner,
        rtype,
        rclass: IN,
        ttl,
        rdata: List::from_slice(alloc, rdata).expect(rt, "memory"),
    })
    .expect(rt, "memory");
    rows
}

/// The reply goes to the query in exactly these bytes.
fn check_written(rt: &impl Abort, query: &Query, reply: &AnswerValue, want: &[u8])
    requires class { query.now.qclass ≡ IN }
    requires sendable { IsSendable query.now.name reply.now }
{
    let mut out = [9; 520];
    let len = write_answer(query, reply, &mut out);
    let (front, rest) = out.split_at_checked(len).expect(rt, "it is inside");
    check_bytes(rt, front, want, "the reply");
    assert!(rt; rest.iter().all(|byte| *byte == 9));
}

/// The reply NXDOMAIN, with AA, an alias from `w.x` to `v.x`, the SOA of `x`, and an address of `ns.x`.
const WRITTEN: &[u8] = b"\x12\x34\x85\x03\0\x01\0\x01\0\x01\0\x01\x01w\x01x\0\0\x01\0\x01\
\x01w\x01x\0\0\x05\0\x01\0\0\x1c\x20\0\x05\x01v\x01x\0\
\x01x\0\0\x06\0\x01\0\0\x0e\x10\0\x1a\x01h\0\x01r\0\0\0\0\x24\0\0\x03\x84\0\0\x02\x58\0\x01\x51\x80\0\0\x0e\x10\
\x02ns\x01x\0\0\x01\0\x01\xff\xff\xff\xff\0\x041234";

#[test]
fn a_reply_with_rows_in_bytes(rt: HostRuntime) {
    let alloc = rt.alloc();
    let reply = AnswerValue {
        rcode: Rcode::NxDomain,
        aa: true,
        tc: false,
        answer: section(&rt, alloc, "w.x", CNAME, 7200, b"\x01v\x01x\0"),
        authority: section(&rt, alloc, "x", SOA, 3600, ANSWERED_START),
        additional: section(&rt, alloc, "ns.x", A, 4294967295, b"1234"),
    };
    check_written(&rt, &query(&rt, true), &reply, WRITTEN);
}

#[test]
fn a_refusal_in_bytes(rt: HostRuntime) {
    let want = b"\x12\x34\x80\x05\0\x01\0\0\0\0\0\0\x01w\x01x\0\0\x01\0\x01";
    check_written(&rt, &query(&rt, false), &refused(rt.alloc()), want);
}
