ghost use Rattle.std.specs.Prelude.{◌≡◌, count_by, option_copied, position, slice_get, ◌<◌, length};
ghost use Rattle.std.specs.List.{list_any};
ghost use Rattle.dn_io.specs.Stepping.{StepsOrStays};
ghost use Rattle.dn_world.specs.World.{empty_world, has_id, is_of, is_zone, no_room, wstep, wstep_act, wstep_replica, zone_at, zone_of};
ghost use Rattle.dn_world.specs.World.Puts.{Puts};

use crate::event::{WorldAnswer, WorldEvent, WorldNo};
use dn_io::{List, Moment, OutOfMemory};
use dn_link::Packet;
use dn_name::Name;
use dn_stamp::ReplicaId;
use dn_zone::{Answer, Event, Prepared, Zone};
use std::alloc::Global;
use std::marker::Model;

// The most replicas of a world, and the most zones of a replica.
const MAX_REPLICAS: usize = 64;

const MAX_ZONES: usize = 16;

/// A server.
#[derive(Drop)]
pub struct Replica {
    pub id: ReplicaId,
    pub host: Name,
}

/// A packet that was sent, with its receiver.
#[derive(Drop)]
pub struct Post {
    pub to: ReplicaId,
    pub packet: Packet,
}

/// The servers of a script and their zones. A zone belongs to the replica of its identity.
#[derive(Drop)]
pub struct World {
    pub(crate) replicas: List<Replica>,
    pub(crate) zones: List<Zone>,
    // The packets that were sent, in order. One may be delivered any number of times, or never.
    pub(crate) packets: List<Post>,
}

impl Model for World {
    ghost use Rattle.dn_world.specs.State.{WorldState};

    ghost Value = { WorldState };

    ghost view = { λ it. record { replicas = it.replicas; zones = it.zones; packets = it.packets } };
}

// Whether a zone is the replica's, with this apex.
fn is_zone(zone: &Zone, id: ReplicaId, apex: &Name) -> bool
    ensures { result ≡ is_zone id apex.now zone.now }
{
    zone.id() == id && zone.apex().same(apex)
}

// The place of a replica's zone with this apex.
pub fn place_of(zones: &[Zone], id: ReplicaId, apex: &Name) -> Option<usize>
    ensures { result ≡ position (is_zone id apex.now) zones.now }
{
    zones.iter().position(|zone| is_zone(zone, id, apex))
}

// Puts in place what an event makes of the zone at a place, and gives its answer.
pub fn put_prepared(zones: &mut List<Zone>, place: usize, made: Prepared) -> Answer
    requires { place < length zones.old }
    ensures { Puts made zones.old zones.new place result }
{
    match made {
        Prepared::Same(answer) => answer,
        Prepared::Became(zone, answer) => {
            zones.set(place, zone);
            answer
        }
    }
}

impl World {
    /// The world without replicas. (It allocates nothing.)
    #[tactic(auto, unfolding(crate::specs::World::empty_world))]
    pub fn new(alloc: Global) -> World
        ensures { result ≡ empty_world }
    {
        World {
            replicas: List::new(alloc),
            zones: List::new(alloc),
            packets: List::new(alloc),
        }
    }

    /// The replicas, in the order in which they came. The first has number 0.
    pub fn replicas(&self) -> &List<Replica>
        ensures { result.now ≡ self.now.replicas }
    {
        &self.replicas
    }

    // The zone of a replica with this apex.
    pub(crate) fn zone_of(&self, id: ReplicaId, apex: &Name) -> Option<&Zone>
        ensures { option_copied result ≡ zone_of self.now id apex.now }
    {
        self.zones
            .as_slice()
            .iter()
            .find(|zone| is_zone(zone, id, apex))
    }

    /// The zone with this apex of the replica of a number, from 0.
    #[tactic(auto, unfolding(crate::specs::World::zone_at))]
    pub fn zone(&self, at: usize, apex: &Name) -> Option<&Zone>
        ensures { option_copied result ≡ zone_at self.now at apex.now }
    {
        let replica = self.replicas.get(at)?;
        self.zone_of(replica.id, apex)
    }

    // Whether a replica has the identity.
    fn has_id(&self, id: ReplicaId) -> bool
        ensures { result ≡ list_any (has_id id) self.now.replicas }
    {
        self.replicas
            .as_slice()
            .iter()
            .any(|replica| replica.id == id)
    }

    // How many zones a replica has.
    fn zones_of(&self, id: ReplicaId) -> usize
        ensures { result ≡ count_by (is_of id) self.now.zones }
    {
        self.zones
            .as_slice()
            .iter()
            .filter(|zone| zone.id() == id)
            .count()
    }

    // Whether a replica has a zone with this apex.
    fn has_zone(&self, id: ReplicaId, apex: &Name) -> bool
        ensures { result ≡ list_any (is_zone id apex.now) self.now.zones }
    {
        self.zones
            .as_slice()
            .iter()
            .any(|zone| is_zone(zone, id, apex))
    }

    // Why a replica can't have a new zone with this apex.
    fn no_room(&self, id: ReplicaId, apex: &Name) -> Option<WorldNo>
        ensures { result ≡ no_room self.now id apex.now }
    {
        if self.has_zone(id, apex) {
            Some(WorldNo::ZoneThere)
        } else if self.zones_of(id) >= MAX_ZONES {
            Some(WorldNo::Full)
        } else {
            None
        }
    }

    // A new replica.
    #[tactic(auto, unfolding(crate::specs::World::wstep_replica))]
    fn add_replica(&mut self, id: ReplicaId, host: Name) -> Result<WorldAnswer, OutOfMemory>
        ensures { StepsOrStays result self.old self.new (wstep_replica self.old id host) }
    {
        if self.has_id(id) {
            return Ok(WorldAnswer::No(WorldNo::IdTaken));
        }
        if self.replicas.len() >= MAX_REPLICAS {
            return Ok(WorldAnswer::No(WorldNo::Full));
        }
        self.replicas.push(Replica { id, host })?;
        Ok(WorldAnswer::Made)
    }

    // A new zone of a replica.
    #[tactic(auto, unfolding(crate::specs::World::wstep, crate::specs::World::wstep_zone))]
    fn create(
        &mut self,
        alloc: Global,
        at: usize,
        apex: Name,
        mailbox: Name,
        moment: Moment,
    ) -> Result<WorldAnswer, OutOfMemory>
        ensures { StepsOrStays result self.old self.new (wstep self.old (WorldEvent.Create at apex mailbox moment)) }
    {
        let Some(replica) = self.replicas.get(at) else {
            return Ok(WorldAnswer::No(WorldNo::NoReplica));
        };
        if let Some(why) = self.no_room(replica.id, &apex) {
            return Ok(WorldAnswer::No(why));
        }
        let zone = Zone::create(alloc, replica.id, replica.host, apex, mailbox, moment)?;
        self.zones.push(zone)?;
        Ok(WorldAnswer::Made)
    }

    // A zone that a replica is to copy from others.
    #[tactic(auto, unfolding(crate::specs::World::wstep, crate::specs::World::wstep_zone))]
    fn join(&mut self, alloc: Global, at: usize, apex: Name) -> Result<WorldAnswer, OutOfMemory>
        ensures { StepsOrStays result self.old self.new (wstep self.old (WorldEvent.Join at apex)) }
    {
        let Some(replica) = self.replicas.get(at) else {
            return Ok(WorldAnswer::No(WorldNo::NoReplica));
        };
        if let Some(why) = self.no_room(replica.id, &apex) {
            return Ok(WorldAnswer::No(why));
        }
        let zone = Zone::join(alloc, replica.id, replica.host, apex)?;
        self.zones.push(zone)?;
        Ok(WorldAnswer::Made)
    }

    // An event at a replica's zone.
    #[tactic(auto, unfolding(crate::specs::World::wstep_act))]
    fn act(
        &mut self,
        alloc: Global,
        at: usize,
        apex: &Name,
        event: &Event,
    ) -> Result<WorldAnswer, OutOfMemory>
        ensures { StepsOrStays result self.old self.new (wstep_act self.old (slice_get self.old.replicas at) apex.now event.now) }
    {
        let Some(replica) = self.replicas.get(at) else {
            return Ok(WorldAnswer::No(WorldNo::NoReplica));
        };
        let Some(place) = place_of(self.zones.as_slice(), replica.id, apex) else {
            return Ok(WorldAnswer::No(WorldNo::NoZone));
        };
        let Some(zone) = self.zones.get(place) else {
            return Ok(WorldAnswer::No(WorldNo::NoZone));
        };
        let made = zone.prepare(alloc, event)?;
        let answer = put_prepared(&mut self.zones, place, made);
        Ok(WorldAnswer::Zone(answer))
    }

    /// What an event makes of the world. A refused event changes nothing.
    ///
    /// # Errors
    /// `OutOfMemory`; the world is then as before.
    #[tactic(auto, unfolding(crate::specs::World::wstep))]
    pub fn step(&mut self, alloc: Global, event: &WorldEvent) -> Result<WorldAnswer, OutOfMemory>
        ensures { StepsOrStays result self.old self.new (wstep self.old event.now) }
    {
        match event {
            WorldEvent::Replica { id, host } => self.add_replica(*id, *host),
            WorldEvent::Create {
                at,
                apex,
                mailbox,
                moment,
            } => self.create(alloc, *at, *apex, *mailbox, *moment),
            WorldEvent::Join { at, apex } => self.join(alloc, *at, *apex),
            WorldEvent::Act { at, apex, event } => self.act(alloc, *at, apex, event),
            WorldEvent::Pull { by, of, apex } => self.pull(*by, *of, apex),
            WorldEvent::Deliver { packet } => self.deliver(alloc, *packet),
        }
    }
}
