//! What a replica replies to datagrams.

ghost use Rattle.std.specs.Prelude.{◌≡◌, ◌<◌, ◌≤◌, length, take, drop, IfOk, OnErr};
ghost use Rattle.std.specs.Option.{option_map_or};
ghost use Rattle.dn_message.specs.declared.rcode.Rcode.TheVariants.{FormErr};
ghost use Rattle.dn_message.specs.QueryOf.{query_of};
ghost use Rattle.dn_answer.specs.declared.datagrams.Received.TheVariants.{Code};
ghost use Rattle.dn_answer.specs.Datagram.{query_received, zone_over};
ghost use Rattle.dn_world.specs.Datagram.{IsReadRightly, received_at, reply_to, zones_at};
ghost use Rattle.dn_world.specs.Runs.{IsValidWorld};

use crate::world::World;
use dn_answer::{Received, ZoneView, is_refused, write_reply};
use dn_io::{Moment, OutOfMemory};
use dn_message::{Kind, Query, Rcode, kind_of, read_query};
use dn_name::Name;
use std::alloc::Global;

impl World {
    // The zone of the replica of a number, from 0, that answers for a name.
    #[tactic(auto, unfolding(crate::specs::Datagram::zones_at, dn_answer::specs::Datagram::nearest))]
    fn zone_asked(&self, at: usize, name: &Name) -> Option<ZoneView<'_>>
        ensures { result ≡ zone_over (zones_at self.now at) name.now }
    {
        match self.replicas.get(at) {
            Some(replica) => self.zone_over(replica.id, name),
            None => None,
        }
    }

    // What a query comes to: the zone that it reaches, REFUSED where it reaches none.
    fn query_received(&self, at: usize, query: Query) -> Received<'_>
        ensures { result ≡ query_received (zones_at self.now at) query }
    {
        if is_refused(&query) {
            return Received::Code(Rcode::Refused);
        }
        match self.zone_asked(at, &query.name) {
            Some(zone) => Received::Answer(zone, query),
            None => Received::Code(Rcode::Refused),
        }
    }

    // What bytes come to that should be a query: FORMERR where they are none.
    fn question_received(&self, at: usize, request: &[u8]) -> Received<'_>
        ensures { result ≡ option_map_or (query_received (zones_at self.now at)) (query_of request.now) (Code FormErr) }
    {
        match read_query(request) {
            Ok(query) => self.query_received(at, query),
            Err(_) => Received::Code(Rcode::FormErr),
        }
    }

    /// What the bytes of a datagram to the replica of a number, from 0, come to. The rules, in order:
    ///
    /// - Nothing is replied to bytes without a whole header, and to a reply.
    /// - Each opcode but those of a query and an update gets NOTIMP.
    /// - What is no query by its grammar gets FORMERR.
    /// - A query gets REFUSED that is signed, is of another class than IN, is for a transfer, or whose name is in no zone of the
    ///   replica; else the zone with the longest name above its name answers it.
    #[tactic(auto, unfolding(dn_answer::specs::Datagram::received))]
    pub fn received(&self, at: usize, bytes: &[u8]) -> Received<'_>
        ensures { result ≡ received_at self.now at bytes.now }
    {
        match kind_of(bytes) {
            Kind::Silent => Received::Silence,
            Kind::Query => self.question_received(at, bytes),
            Kind::Update => Received::Update,
            Kind::Other(_) => Received::Code(Rcode::NotImp),
        }
    }

    /// What the replica of a number, from 0, replies to the bytes of a datagram that comes at a moment: the reply to what it comes
    /// to (`received`) is written to the front of the buffer, of at least 512 bytes (RFC 1035 4.2.1), and its length is answered,
    /// 0 where nothing is replied. An update isn't done yet, and gets NOTIMP. The world stays as it is, and so do the buffer's bytes
    /// behind the reply.
    ///
    /// # Errors
    /// `OutOfMemory`. The whole buffer is then as before.
    pub fn datagram(
        &mut self,
        alloc: Global,
        at: usize,
        moment: Moment,
        bytes: &[u8],
        out: &mut [u8],
    ) -> Result<usize, OutOfMemory>
        requires there { at < length self.old.replicas }
        requires valid { IsValidWorld self.old }
        requires room { 512 ≤ length out.old }
        ensures bytes { IfOk result (λ len. take len out.new ≡ reply_to self.old at bytes.now) }
        ensures read { IfOk result (λ len. IsReadRightly self.old at bytes.now (take len out.new)) }
        ensures within { IfOk result (λ len. len ≤ length out.new) }
        ensures rest { IfOk result (λ len. drop len out.new ≡ drop len out.old) }
        ensures kept { OnErr result (out.new ≡ out.old) }
        ensures stays { self.new ≡ self.old }
    {
        let received = self.received(at, bytes);
        write_reply(alloc, &received, bytes, out)
    }
}
