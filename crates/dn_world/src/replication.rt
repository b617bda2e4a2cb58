ghost use Rattle.std.specs.Prelude.{◌≡◌, IfOk, OnErr, slice_get};
ghost use Rattle.dn_io.specs.Stepping.{StepsOrStays};
ghost use Rattle.dn_world.specs.World.{answer_pull, deliver_post, post_at, sent, wstep_pull, zone_of};
ghost use Rattle.dn_world.specs.World.Merges.{MergesAt};

use crate::event::{WorldAnswer, WorldNo};
use crate::world::{Post, World, place_of, put_prepared};
use dn_io::{List, OutOfMemory};
use dn_link::{Changes, Packet};
use dn_name::Name;
use dn_stamp::ReplicaId;
use dn_zone::{Zone, changes_of};
use std::alloc::Global;

// The most packets of a run.
const MAX_PACKETS: usize = 4_294_967_295;

// The zone of a replica takes what another sent.
fn merge_at(
    alloc: Global,
    zones: &mut List<Zone>,
    id: ReplicaId,
    changes: &Changes,
) -> Result<WorldAnswer, OutOfMemory>
    ensures ok { IfOk result (λ answer. MergesAt zones.old zones.new id changes.now answer) }
    ensures err { OnErr result (zones.new ≡ zones.old) }
{
    let Some(place) = place_of(zones.as_slice(), id, &changes.zone) else {
        return Ok(WorldAnswer::No(WorldNo::NoZone));
    };
    let Some(zone) = zones.get(place) else {
        return Ok(WorldAnswer::No(WorldNo::NoZone));
    };
    let made = zone.merge(alloc, changes)?;
    let answer = put_prepared(zones, place, made);
    Ok(WorldAnswer::Zone(answer))
}

impl World {
    // Sends a packet. The first has number 1.
    fn send(&mut self, to: ReplicaId, packet: Packet) -> Result<WorldAnswer, OutOfMemory>
        ensures { StepsOrStays result self.old self.new (sent self.old to packet) }
    {
        let before = self.packets.len();
        if before >= MAX_PACKETS {
            return Ok(WorldAnswer::No(WorldNo::Full));
        }
        self.packets.push(Post { to, packet })?;
        Ok(WorldAnswer::Sent {
            packet: before as u32 + 1,
        })
    }

    // A replica asks another for the changes of a zone.
    #[tactic(auto, unfolding(crate::specs::World::wstep_pull))]
    pub(crate) fn pull(
        &mut self,
        by: usize,
        of: usize,
        apex: &Name,
    ) -> Result<WorldAnswer, OutOfMemory>
        ensures { StepsOrStays result self.old self.new (wstep_pull self.old (slice_get self.old.replicas by) (slice_get self.old.replicas of) apex.now) }
    {
        let (Some(by), Some(of)) = (self.replicas.get(by), self.replicas.get(of)) else {
            return Ok(WorldAnswer::No(WorldNo::NoReplica));
        };
        let Some(own) = self.zone_of(by.id, apex) else {
            return Ok(WorldAnswer::No(WorldNo::NoZone));
        };
        if self.zone_of(of.id, apex).is_none() {
            return Ok(WorldAnswer::No(WorldNo::NoZone));
        }
        if by.id == of.id {
            return Ok(WorldAnswer::No(WorldNo::SelfPull));
        }
        let supplier = of.id;
        let packet = own.pull(&supplier);
        self.send(supplier, packet)
    }

    // Answers a replica that asks for a zone's changes above a number.
    fn answer_pull(
        &mut self,
        alloc: Global,
        to: ReplicaId,
        apex: &Name,
        from: ReplicaId,
        after: u64,
    ) -> Result<WorldAnswer, OutOfMemory>
        ensures { StepsOrStays result self.old self.new (answer_pull self.old from after (zone_of self.old to apex.now)) }
    {
        let Some(zone) = self.zone_of(to, apex) else {
            return Ok(WorldAnswer::No(WorldNo::NoZone));
        };
        let packet = changes_of(alloc, zone.table(), zone.apex(), zone.id(), after)?;
        self.send(from, packet)
    }

    // A packet comes to its receiver: one that asks is answered by another packet, changes are merged.
    #[tactic(auto, unfolding(crate::specs::World::deliver_to))]
    pub(crate) fn deliver(&mut self, alloc: Global, number: u32) -> Result<WorldAnswer, OutOfMemory>
        ensures { StepsOrStays result self.old self.new (deliver_post self.old (post_at self.old.packets number)) }
    {
        if number == 0 {
            return Ok(WorldAnswer::No(WorldNo::NoPacket));
        }
        let Some(post) = self.packets.get(number as usize - 1) else {
            return Ok(WorldAnswer::No(WorldNo::NoPacket));
        };
        match &post.packet {
            Packet::Pull {
                zone,
                from_id,
                after,
            } => {
                let (to, apex, from, after) = (post.to, *zone, *from_id, *after);
                self.answer_pull(alloc, to, &apex, from, after)
            }
            Packet::Changes(changes) => merge_at(alloc, &mut self.zones, post.to, changes),
        }
    }
}
