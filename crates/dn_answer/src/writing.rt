//! Answers as bytes.

ghost use Rattle.std.specs.Prelude.{◌≡◌, ℕ, ◌≤◌, List, [], length, take, drop};
ghost use Rattle.dn_rdata.specs.Types.{IN};
ghost use Rattle.dn_message.specs.Pieces.{bytes_of};
ghost use Rattle.dn_message.specs.Reply.{IsReply};
ghost use Rattle.dn_message.specs.Writer.{Holds, KeepsRest, size};
ghost use Rattle.dn_answer.specs.Sendable.{IsSendable, sent};
ghost use Rattle.dn_answer.specs.Written.{Fits, Writes, sent_with};

use crate::reply::AnswerValue;
use dn_message::{Query, ReplyHead, ReplyWriter, Rr, Section};

/// Writes the reply to a query of class IN at the front of the buffer, and answers how many bytes it takes, which are 512
/// at most; the bytes behind stay. Number, RD and question are the query's; no name has a pointer. It takes no memory.
pub fn write_answer(query: &Query, reply: &AnswerValue, out: &mut [u8]) -> usize
    requires class { query.now.qclass ≡ IN }
    requires sendable { IsSendable query.now.name reply.now }
    requires room { 512 ≤ length out.old }
    ensures bytes { take result out.new ≡ bytes_of (sent query.now reply.now) }
    ensures read { IsReply (take result out.new) (sent query.now reply.now) }
    ensures len { (12 ≤ result) × (result ≤ 512) }
    ensures kept { length out.new ≡ length out.old }
    ensures rest { drop result out.new ≡ drop result out.old }
{
    let mut writer = begin_answer(query, reply, out);
    write_rows(&mut writer, Section::Answer, reply.answer.as_slice());
    write_rows(&mut writer, Section::Authority, reply.authority.as_slice());
    write_rows(
        &mut writer,
        Section::Additional,
        reply.additional.as_slice(),
    );
    writer.finish()
}

// A writer that has the header and the question.
fn begin_answer<'b>(query: &Query, reply: &AnswerValue, out: &'b mut [u8]) -> ReplyWriter<'b>
    requires class { query.now.qclass ≡ IN }
    requires sendable { IsSendable query.now.name reply.now }
    requires room { 512 ≤ length out.old }
    ensures same_reference { result.out.ghost_name ≡ out.entry.ghost_name }
    ensures size { size result ≡ length out.old }
    ensures keeps { KeepsRest out.old result }
    ensures holds { Holds result (sent_with query.now reply.now [] [] []) }
{
    let head = ReplyHead {
        id: query.id,
        aa: reply.aa,
        tc: reply.tc,
        rd: query.rd,
        rcode: reply.rcode,
    };
    let mut writer = ReplyWriter::begin(out, head);
    match writer.question(&query.name, query.qtype) {
        Ok(()) => writer,
        Err(_) => unreachable!(),
    }
}

fn write_rows(writer: &mut ReplyWriter<'_>, section: Section, rows: &[Rr])
    requires { Fits writer.old section rows.now }
    ensures same_reference { writer.new.out.ghost_name ≡ writer.old.out.ghost_name }
    ensures size { size writer.new ≡ size writer.old }
    ensures keeps { (before : List ℕ) → KeepsRest before writer.old → KeepsRest before writer.new }
    ensures writes { Writes writer.old section rows.now writer.new }
{
    for row in rows {
        match writer.row(section, &row.name, row.ttl, row.rtype, row.rdata.as_slice()) {
            Ok(()) => {}
            Err(_) => unreachable!(),
        }
    }
}
