ghost use Rattle.std.specs.Prelude.{◌≡◌, ◌++◌, flat_map, IfOk, OnOk};
ghost use Rattle.dn_script.specs.PrintReply.{bit, counts_text, flags_text, rcode_text, reply_text, row_line, status_text};
ghost use Rattle.dn_word.specs.Print.{as_line};

use dn_answer::AnswerValue;
use dn_io::{List, OutOfMemory};
use dn_message::{Rcode, Rr};
use dn_text::row_line;
use dn_word::push_count;
use std::alloc::Global;

// The code of a reply by name.
fn rcode_name(rcode: Rcode) -> &'static [u8]
    ensures { result.now ≡ rcode_text rcode }
{
    match rcode {
        Rcode::NoError => b"NOERROR",
        Rcode::FormErr => b"FORMERR",
        Rcode::ServFail => b"SERVFAIL",
        Rcode::NxDomain => b"NXDOMAIN",
        Rcode::NotImp => b"NOTIMP",
        Rcode::Refused => b"REFUSED",
        Rcode::YxDomain => b"YXDOMAIN",
        Rcode::YxRrset => b"YXRRSET",
        Rcode::NxRrset => b"NXRRSET",
        Rcode::NotAuth => b"NOTAUTH",
        Rcode::NotZone => b"NOTZONE",
    }
}

fn bit(set: bool) -> &'static [u8]
    ensures { result.now ≡ bit set }
{
    if set { b"1" } else { b"0" }
}

// The line of a row.
#[tactic(auto, unfolding(crate::specs::PrintReply::row_line))]
fn push_row(alloc: Global, out: &mut List<u8>, row: &Rr) -> Result<(), OutOfMemory>
    ensures { OnOk result (out.new ≡ out.old ++ row_line row.now) }
{
    let line = row_line(alloc, &row.name, row.ttl, row.rtype, row.rdata.as_slice())?;
    out.extend(line.as_slice())?;
    out.extend(b"\n")
}

fn push_rows(alloc: Global, out: &mut List<u8>, rows: &[Rr]) -> Result<(), OutOfMemory>
    ensures { OnOk result (out.new ≡ out.old ++ flat_map row_line rows.now) }
{
    for row in rows {
        push_row(alloc, out, row)?;
    }
    Ok(())
}

// The code and the flags of a reply.
#[tactic(auto, unfolding(crate::specs::PrintReply::flags_text))]
fn push_flags(out: &mut List<u8>, reply: &AnswerValue) -> Result<(), OutOfMemory>
    ensures { OnOk result (out.new ≡ out.old ++ flags_text reply.now) }
{
    out.extend(b"status ")?;
    out.extend(rcode_name(reply.rcode))?;
    out.extend(b" aa ")?;
    out.extend(bit(reply.aa))?;
    out.extend(b" tc ")?;
    out.extend(bit(reply.tc))
}

// How many rows a reply has.
#[tactic(auto, unfolding(crate::specs::PrintReply::counts_text))]
fn push_counts(alloc: Global, out: &mut List<u8>, reply: &AnswerValue) -> Result<(), OutOfMemory>
    ensures { OnOk result (out.new ≡ out.old ++ counts_text reply.now) }
{
    push_count(alloc, out, b" answer ", reply.answer.len() as u64)?;
    push_count(alloc, out, b" authority ", reply.authority.len() as u64)?;
    push_count(alloc, out, b" additional ", reply.additional.len() as u64)
}

// The line that says what a reply is.
#[tactic(auto, unfolding(crate::specs::PrintReply::status_text))]
fn push_status(alloc: Global, out: &mut List<u8>, reply: &AnswerValue) -> Result<(), OutOfMemory>
    ensures { OnOk result (out.new ≡ out.old ++ as_line (status_text reply.now)) }
{
    push_flags(out, reply)?;
    push_counts(alloc, out, reply)?;
    out.extend(b"\n")
}

// The lines that a script prints of a reply: what it is, and its rows.
//
// # Errors
// `OutOfMemory`.
#[tactic(auto, unfolding(crate::specs::PrintReply::reply_text))]
pub fn reply_text(alloc: Global, reply: &AnswerValue) -> Result<List<u8>, OutOfMemory>
    ensures { IfOk result (λ text. text ≡ reply_text reply.now) }
{
    let mut text = List::new(alloc);
    push_status(alloc, &mut text, reply)?;
    push_rows(alloc, &mut text, reply.answer.as_slice())?;
    push_rows(alloc, &mut text, reply.authority.as_slice())?;
    push_rows(alloc, &mut text, reply.additional.as_slice())?;
    Ok(text)
}
