//! Questions as a client puts them, in bytes.

ghost use Rattle.std.specs.Prelude.{◌≡◌, ◌≤◌, false, length, take, IfOk, None, Some};
ghost use Rattle.dn_message.specs.declared.kind.Kind.TheVariants as kinds;
ghost use Rattle.dn_message.specs.declared.reply.Reply.{Reply};
ghost use Rattle.dn_message.specs.Kind.{kind_of};
ghost use Rattle.dn_message.specs.Query.{IsQuery};
ghost use Rattle.dn_message.specs.Reply.{IsReply};
ghost use Rattle.dn_rdata.specs.Types.{IN};
ghost use Rattle.dn_answer.specs.declared.reply.AnswerValue.{AnswerValue};
ghost use Rattle.dn_answer.specs.Told.{value_of};
ghost use Rattle.dn_script.specs.Asking.{question_of};

use dn_answer::{AnswerValue, value_of};
use dn_io::OutOfMemory;
use dn_message::{Query, ReadError, read_reply, write_query};
use dn_name::{Name, NoRoom};
use dn_rdata::IN;
use std::alloc::Global;

// Writes a question of class IN, with number 0 and recursion not desired, and answers how many bytes it takes.
pub fn write_question(name: &Name, qtype: u16, out: &mut [u8]) -> usize
    requires { 512 ≤ length out.old }
    ensures query { IsQuery (take result out.new) (question_of name.now qtype) }
    ensures kind { kind_of (take result out.new) ≡ kinds.Query }
    ensures within { result ≤ length out.new }
{
    let query = Query {
        id: 0,
        rd: false,
        name: *name,
        qtype,
        qclass: IN,
        opt: None,
        signed: false,
    };
    match write_query(&query, out) {
        Ok(len) => len,
        Err(NoRoom) => unreachable!(),
    }
}

// What the bytes of a reply say, which are read as one.
//
// # Errors
// `OutOfMemory`.
pub fn value_in(alloc: Global, bytes: &[u8]) -> Result<AnswerValue, OutOfMemory>
    requires { (reply : Reply) × (value : AnswerValue) × IsReply bytes.now reply × (value_of reply ≡ Some value) }
    ensures { IfOk result (λ value. (reply : Reply) → IsReply bytes.now reply → value_of reply ≡ Some value) }
{
    match read_reply(alloc, bytes) {
        Ok(reply) => match value_of(reply) {
            Some(value) => Ok(value),
            None => unreachable!(),
        },
        Err(ReadError::OutOfMemory) => Err(OutOfMemory),
        Err(ReadError::Form(_)) => unreachable!(),
    }
}
