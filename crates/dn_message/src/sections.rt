//! The four sections of a reply, behind its header (RFC 1035 4.1).

ghost use Rattle.std.specs.Prelude.{◌≤◌, length};
ghost use Rattle.dn_message.specs.Reads.{Reads};
ghost use Rattle.dn_message.specs.ReplyReading.{AreSections};

use crate::counts::Counts;
use crate::error::{ReadError, trailing};
use crate::questions::read_questions;
use crate::reply::Question;
use crate::row::read_rows;
use crate::rr::Rr;
use dn_io::List;
use std::alloc::Global;

#[derive(Drop)]
pub(crate) struct Sections {
    pub(crate) questions: List<Question>,
    pub(crate) answer: List<Rr>,
    pub(crate) authority: List<Rr>,
    pub(crate) additional: List<Rr>,
}

// Reads sections of so many entries, behind which the message has no byte.
pub(crate) fn read_sections(
    alloc: Global,
    bytes: &[u8],
    counts: Counts,
) -> Result<Sections, ReadError>
    requires { 12 ≤ length bytes.now }
    ensures { Reads (AreSections bytes.now counts) result }
{
    let (questions, place) = read_questions(alloc, bytes, 12, counts.questions)?;
    let (answer, place) = read_rows(alloc, bytes, place, counts.answer)?;
    let (authority, place) = read_rows(alloc, bytes, place, counts.authority)?;
    let (additional, place) = read_rows(alloc, bytes, place, counts.additional)?;
    if place < bytes.len() {
        return Err(ReadError::Form(trailing(place)));
    }
    Ok(Sections {
        questions,
        answer,
        authority,
        additional,
    })
}
