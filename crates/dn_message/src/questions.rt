//! Questions, one behind the other (RFC 1035 4.1.2).

ghost use Rattle.std.specs.Prelude.{ℕ, ◌≤◌, List as Seq, length, IfErr, IfOk};
ghost use Rattle.dn_name.specs.Exact.{Exact};
ghost use Rattle.dn_message.specs.NameFaults.{HasNoName, IsFaultOfName};
ghost use Rattle.dn_message.specs.Reads.{Reads};
ghost use Rattle.dn_message.specs.Reply.{IsQuestion};
ghost use Rattle.dn_message.specs.ReplyReading.{AreEntries};
ghost use Rattle.dn_message.specs.declared.reply.Question.{Question as Asked};

use crate::error::{FormError, ReadError};
use crate::question::read_type_and_class;
use crate::record::read_name;
use crate::reply::Question;
use dn_io::List;
use std::alloc::Global;

pub(crate) fn read_questions(
    alloc: Global,
    bytes: &[u8],
    at: usize,
    count: u16,
) -> Result<(List<Question>, usize), ReadError>
    requires { at ≤ length bytes.now }
    ensures exact { Reads (λ (found : Seq Asked × ℕ). AreEntries (IsQuestion bytes.now) count at found.0 found.1) result }
    ensures within { IfOk result (λ found. found.1 ≤ length bytes.now) }
{
    let mut questions = List::new(alloc);
    let mut place = at;
    for _ in 0..count {
        let (question, next) = read_question(bytes, place)?;
        questions.push(question)?;
        place = next;
    }
    Ok((questions, place))
}

fn read_question(bytes: &[u8], at: usize) -> Result<(Question, usize), FormError>
    requires { at ≤ length bytes.now }
    ensures exact { Exact (λ (found : Asked × ℕ). IsQuestion bytes.now at found.0 found.1) result }
    ensures within { IfOk result (λ found. found.1 ≤ length bytes.now) }
    ensures fault { IfErr result (λ error. HasNoName bytes.now at → IsFaultOfName bytes.now at error) }
{
    let (name, behind) = read_name(bytes, at)?;
    let (qtype, qclass) = read_type_and_class(bytes, behind)?;
    let question = Question {
        name,
        qtype,
        qclass,
    };
    Ok((question, behind + 4))
}
