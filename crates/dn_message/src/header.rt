//! The header of a message (RFC 1035 4.1.1).

ghost use Rattle.std.specs.Prelude.{◌≤◌, length, OnErr, OnOk};
ghost use Rattle.dn_name.specs.Exact.{Exact};
ghost use Rattle.dn_message.specs.Reading.{IsQueryHeader, IsQueryCounts};
ghost use Rattle.dn_message.specs.ReplyReading.{AreCounts, AreReplyFlags, IsReplyHeader};

use crate::counts::Counts;
use crate::error::{FormError, FormFault};
use crate::number::{check_u16, u16_at};

#[derive(Clone, Copy)]
pub(crate) struct QueryHeader {
    pub(crate) id: u16,
    pub(crate) flags: u16,
    pub(crate) additional: u16,
}

// Each number is read and judged before the next: so a wrong count is answered also where the message ends behind it.
pub(crate) fn read_query_header(bytes: &[u8]) -> Result<QueryHeader, FormError>
    ensures exact { Exact (IsQueryHeader bytes.now) result }
    ensures within { OnOk result (12 ≤ length bytes.now) }
{
    let id = u16_at(bytes, 0)?;
    let flags = u16_at(bytes, 2)?;
    check_query_counts(bytes)?;
    let additional = u16_at(bytes, 10)?;
    Ok(QueryHeader {
        id,
        flags,
        additional,
    })
}

fn check_query_counts(bytes: &[u8]) -> Result<(), FormError>
    requires { 4 ≤ length bytes.now }
    ensures stand { OnOk result (IsQueryCounts bytes.now) }
    ensures other { OnErr result (IsQueryCounts bytes.now → ⊥) }
    ensures within { OnOk result (10 ≤ length bytes.now) }
{
    check_u16(bytes, 4, 1, FormFault::QuestionCount)?;
    check_u16(bytes, 6, 0, FormFault::SectionCount)?;
    check_u16(bytes, 8, 0, FormFault::SectionCount)
}

#[derive(Clone, Copy)]
pub(crate) struct ReplyHeader {
    pub(crate) id: u16,
    pub(crate) flags: u16,
    pub(crate) counts: Counts,
}

// That the message is no reply is answered also where it ends behind the flags.
pub(crate) fn read_reply_header(bytes: &[u8]) -> Result<ReplyHeader, FormError>
    ensures exact { Exact (IsReplyHeader bytes.now) result }
    ensures within { OnOk result (12 ≤ length bytes.now) }
{
    let id = u16_at(bytes, 0)?;
    let flags = read_reply_flags(bytes)?;
    let counts = read_counts(bytes)?;
    Ok(ReplyHeader { id, flags, counts })
}

fn read_reply_flags(bytes: &[u8]) -> Result<u16, FormError>
    requires { 2 ≤ length bytes.now }
    ensures exact { Exact (AreReplyFlags bytes.now) result }
    ensures within { OnOk result (4 ≤ length bytes.now) }
{
    match u16_at(bytes, 2) {
        Ok(flags) if flags / 32768 % 2 == 1 => Ok(flags),
        Ok(_) => Err(FormError {
            place: 2,
            kind: FormFault::NotReply,
        }),
        Err(error) => Err(error),
    }
}

fn read_counts(bytes: &[u8]) -> Result<Counts, FormError>
    requires { 4 ≤ length bytes.now }
    ensures exact { Exact (AreCounts bytes.now) result }
    ensures within { OnOk result (12 ≤ length bytes.now) }
{
    let questions = u16_at(bytes, 4)?;
    let answer = u16_at(bytes, 6)?;
    let authority = u16_at(bytes, 8)?;
    let additional = u16_at(bytes, 10)?;
    Ok(Counts {
        questions,
        answer,
        authority,
        additional,
    })
}
