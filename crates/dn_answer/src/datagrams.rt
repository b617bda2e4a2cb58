//! What datagrams come to, and what is replied to them.

ghost use Rattle.std.specs.Prelude.{◌≡◌, ◌≤◌, length, take, drop, IfOk, OnErr};
ghost use Rattle.dn_name.specs.Name.{IsName};
ghost use Rattle.dn_rdata.specs.Types.{IN};
ghost use Rattle.dn_answer.specs.Datagram.{IsRepliable, ReadAs, ReadAsZones, is_refused, reply_bytes, wants_more, zone_bytes};
ghost use Rattle.dn_answer.specs.View.{IsServable};

use crate::sendable::answers_are_sendable;
use crate::view::ZoneView;
use crate::writing::write_answer;
use dn_io::OutOfMemory;
use dn_message::{Query, Rcode, short_reply};
use dn_rdata::{A, AXFR, IN};
use std::alloc::Global;

/// What a datagram comes to, by its bytes and the zones that are seen where it comes.
#[derive(Drop)]
pub enum Received<'a> {
    /// Nothing is replied.
    Silence,
    /// A header alone is replied, with this code.
    Code(Rcode),
    /// The zone that answers the query.
    Answer(ZoneView<'a>, Query),
    /// An update (RFC 2136), which isn't done yet.
    Update,
}

/// Whether no zone answers a query: one that is signed, of another class than IN, or for a transfer (RFC 5936 4.2).
pub fn is_refused(query: &Query) -> bool
    ensures { result ≡ is_refused query.now }
{
    query.signed || query.qclass != IN || query.qtype == AXFR
}

impl<'a> Received<'a> {
    /// Whether it isn't done yet: an update, or a query for another type than A that a zone answers.
    pub fn wants_more(&self) -> bool
        ensures { result ≡ wants_more self.now }
    {
        match self {
            Received::Update => true,
            Received::Answer(_, query) => query.qtype != A,
            Received::Silence | Received::Code(_) => false,
        }
    }
}

// Writes the reply of a zone to a query.
fn zone_reply(
    alloc: Global,
    zone: &ZoneView<'_>,
    query: &Query,
    request: &[u8],
    out: &mut [u8],
) -> Result<usize, OutOfMemory>
    requires servable { IsServable zone.now }
    requires class { query.now.qclass ≡ IN }
    requires named { IsName query.now.name }
    requires header { 12 ≤ length request.now }
    requires room { 512 ≤ length out.old }
    ensures bytes { IfOk result (λ len. take len out.new ≡ zone_bytes request.now zone.now query.now) }
    ensures read { IfOk result (λ len. ReadAsZones request.now zone.now query.now (take len out.new)) }
    ensures within { IfOk result (λ len. len ≤ length out.new) }
    ensures rest { IfOk result (λ len. drop len out.new ≡ drop len out.old) }
    ensures kept { OnErr result (out.new ≡ out.old) }
{
    let value = zone.reply(alloc, &query.name, query.qtype)?;
    if value.rcode == Rcode::Refused {
        return Ok(short_reply(request, Rcode::Refused, out));
    }
    answers_are_sendable();
    Ok(write_answer(query, &value, out))
}

/// Writes what is replied to the bytes of a datagram that came to this at the front of the buffer, of at least 512 bytes
/// (RFC 1035 4.2.1), and answers its length, 0 where nothing is replied. The bytes behind the reply stay as they were.
///
/// # Errors
/// `OutOfMemory`. The whole buffer is then as before.
pub fn write_reply(
    alloc: Global,
    received: &Received<'_>,
    request: &[u8],
    out: &mut [u8],
) -> Result<usize, OutOfMemory>
    requires repliable { IsRepliable request.now received.now }
    requires room { 512 ≤ length out.old }
    ensures bytes { IfOk result (λ len. take len out.new ≡ reply_bytes request.now received.now) }
    ensures read { IfOk result (λ len. ReadAs request.now received.now (take len out.new)) }
    ensures within { IfOk result (λ len. len ≤ length out.new) }
    ensures rest { IfOk result (λ len. drop len out.new ≡ drop len out.old) }
    ensures kept { OnErr result (out.new ≡ out.old) }
{
    match received {
        Received::Silence => Ok(0),
        Received::Code(code) => Ok(short_reply(request, *code, out)),
        Received::Answer(zone, query) => zone_reply(alloc, zone, query, request, out),
        Received::Update => Ok(short_reply(request, Rcode::NotImp, out)),
    }
}
