//! Replies (RFC 1035 4.1).

ghost use Rattle.dn_message.specs.Reads.{Reads};
ghost use Rattle.dn_message.specs.Reply.{IsReply};

use crate::error::ReadError;
use crate::header::read_reply_header;
use crate::rr::Rr;
use crate::sections::{Sections, read_sections};
use dn_io::List;
use dn_name::Name;
use std::alloc::Global;

/// A question of a message (RFC 1035 4.1.2).
#[derive(Clone, Copy)]
pub struct Question {
    pub name: Name,
    pub qtype: u16,
    pub qclass: u16,
}

/// A reply: what its header says, and what its four sections hold.
#[derive(Drop)]
pub struct Reply {
    /// The number of the query that is replied to.
    pub id: u16,
    /// From 0 to 15.
    pub opcode: u8,
    /// Whether the answer is from the zone itself.
    pub aa: bool,
    /// Whether rows were left out, because they didn't fit.
    pub tc: bool,
    /// Whether recursion was desired.
    pub rd: bool,
    /// Whether recursion is available.
    pub ra: bool,
    /// The number of the three bits between RA and the code, from 0 to 7.
    pub z: u8,
    /// The code, from 0 to 15.
    pub rcode: u8,
    pub questions: List<Question>,
    pub answer: List<Rr>,
    pub authority: List<Rr>,
    pub additional: List<Rr>,
}

/// Reads a reply from all bytes of a message, with the names in its records' data written out.
///
/// # Errors
/// `Form` only where the bytes are no reply. The fault is the first one in the order of the fields: Short, at the message's
/// end, for a field that is cut; NotReply at 2 for a message whose flags don't say that it is a reply; Name with what is
/// wrong first with the name, and its place, for owners of records and names of questions; BadRdata at the first byte of data
/// of class IN that aren't of their type's form; Trailing at the first byte behind the last record. `OutOfMemory`.
pub fn read_reply(alloc: Global, bytes: &[u8]) -> Result<Reply, ReadError>
    ensures exact { Reads (IsReply bytes.now) result }
{
    let header = read_reply_header(bytes)?;
    let Sections {
        questions,
        answer,
        authority,
        additional,
    } = read_sections(alloc, bytes, header.counts)?;
    Ok(Reply {
        id: header.id,
        opcode: (header.flags / 2048 % 16) as u8,
        aa: header.flags / 1024 % 2 == 1,
        tc: header.flags / 512 % 2 == 1,
        rd: header.flags / 256 % 2 == 1,
        ra: header.flags / 128 % 2 == 1,
        z: (header.flags / 16 % 8) as u8,
        rcode: (header.flags % 16) as u8,
        questions,
        answer,
        authority,
        additional,
    })
}
