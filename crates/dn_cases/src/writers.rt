//! Replies that are written piece by piece.

ghost use Rattle.std.specs.Prelude.{◌≡◌, ◌≤◌, length};
ghost use Rattle.dn_message.specs.Writer.{Counted, MayGrow, one_more, size};

use crate::queries::push_written;
use crate::reading::{bad_line, push_truth};
use dn_io::{List, OutOfMemory};
use dn_message::{Rcode, ReplyHead, ReplyWriter, Section};
use dn_name::{Name, NoRoom};
use dn_rdata::{A, NS, check_rdata};
use dn_word::{name_of, push_count};
use std::alloc::Global;

const HEAD: ReplyHead = ReplyHead {
    id: 0x1234,
    aa: true,
    tc: false,
    rd: true,
    rcode: Rcode::NoError,
};

// Appends a row where its data are valid, else nothing.
fn add(
    writer: &mut ReplyWriter<'_>,
    section: Section,
    owner: &Name,
    ttl: u32,
    rtype: u16,
    rdata: &[u8],
) -> Result<(), NoRoom>
    requires { MayGrow writer.old.counts section }
    ensures same_reference { writer.new.out.ghost_name ≡ writer.old.out.ghost_name }
    ensures size { size writer.new ≡ size writer.old }
    ensures counts { Counted result writer.old.counts writer.new.counts (one_more writer.old.counts section) }
{
    if rdata.len() < 65536 && check_rdata(rtype, rdata).is_ok() {
        writer.row(section, owner, ttl, rtype, rdata)
    } else {
        Err(NoRoom)
    }
}

// The length of a reply with a question for `h.x` and a row in each section: an address, the zone's server, and the
// server's address.
fn with_sections(room: &mut [u8], host: &Name, apex: &Name, server: &Name) -> Result<usize, NoRoom>
    requires { 12 ≤ length room.old }
{
    let mut writer = ReplyWriter::begin(room, HEAD);
    writer.question(host, A)?;
    add(&mut writer, Section::Answer, host, 300, A, b"\x0a\0\0\x01")?;
    add(
        &mut writer,
        Section::Authority,
        apex,
        86400,
        NS,
        b"\x02ns\x01x\0",
    )?;
    add(
        &mut writer,
        Section::Additional,
        server,
        4_294_901_244,
        A,
        b"\x0a\0\0\x02",
    )?;
    Ok(writer.finish())
}

/// A reply with a row in each section, in front of 90 bytes of 9.
pub fn whole(alloc: Global, out: &mut List<u8>) -> Result<(), OutOfMemory> {
    let (Some(host), Some(apex), Some(server)) = (name_of(b"h.x"), name_of(b"x"), name_of(b"ns.x"))
    else {
        return bad_line(out);
    };
    let mut room = [9; 90];
    match with_sections(&mut room, &host, &apex, &server) {
        Ok(len) => push_written(alloc, &room, len, out),
        Err(_) => out.extend(b"no room"),
    }
}

// Whether a question and two rows found room, and how long the reply is.
#[derive(Drop)]
struct Found {
    question: bool,
    first: bool,
    second: bool,
    len: usize,
}

// A question of 9 bytes behind the header, then perhaps a row of 19 and perhaps one of 17.
fn with_rows(room: &mut [u8], host: &Name, apex: &Name) -> Found
    requires { 12 ≤ length room.old }
{
    let mut writer = ReplyWriter::begin(room, HEAD);
    let question = writer.question(host, A).is_ok();
    let first = add(&mut writer, Section::Answer, host, 300, A, b"\x0a\0\0\x01").is_ok();
    let second = add(&mut writer, Section::Answer, apex, 300, A, b"\x0a\0\0\x02").is_ok();
    Found {
        question,
        first,
        second,
        len: writer.finish(),
    }
}

fn push_found(alloc: Global, found: &Found, out: &mut List<u8>) -> Result<(), OutOfMemory> {
    push_truth(out, b"question ", found.question)?;
    push_truth(out, b" first ", found.first)?;
    push_truth(out, b" second ", found.second)?;
    push_count(alloc, out, b" length ", found.len as u64)
}

/// What finds room in so many bytes.
pub fn in_room(alloc: Global, room: usize, out: &mut List<u8>) -> Result<(), OutOfMemory> {
    let mut whole = [9; 60];
    let (Some(host), Some(apex)) = (name_of(b"h.x"), name_of(b"x")) else {
        return bad_line(out);
    };
    let Some((front, _)) = whole.split_at_mut_checked(room) else {
        return bad_line(out);
    };
    if front.len() < 12 {
        return bad_line(out);
    }
    push_found(alloc, &with_rows(front, &host, &apex), out)
}
