use crate::world::Replica;
use dn_io::Moment;
use dn_name::Name;
use dn_stamp::ReplicaId;
use dn_zone::{Answer, Event, Zone};

/// What happens in the world. Replicas are numbered from 0.
#[derive(Drop)]
pub enum WorldEvent {
    Replica {
        id: ReplicaId,
        host: Name,
    },
    Create {
        at: usize,
        apex: Name,
        mailbox: Name,
        moment: Moment,
    },
    Join {
        at: usize,
        apex: Name,
    },
    Act {
        at: usize,
        apex: Name,
        event: Event,
    },
    /// A replica asks another for the changes of a zone.
    Pull {
        by: usize,
        of: usize,
        apex: Name,
    },
    /// A packet comes to its receiver. The first that was sent has number 1.
    Deliver {
        packet: u32,
    },
}

/// What the world answers.
#[derive(Clone, Copy, Debug, PartialEq, Eq)]
pub enum WorldAnswer {
    Made,
    Zone(Answer),
    Sent { packet: u32 },
    No(WorldNo),
}

/// Why the world refuses an event.
#[derive(Clone, Copy, Debug, PartialEq, Eq)]
pub enum WorldNo {
    /// A replica has the identity.
    IdTaken,
    NoReplica,
    NoZone,
    /// The replica has the zone.
    ZoneThere,
    /// No packet of this number was sent.
    NoPacket,
    /// A replica asks itself.
    SelfPull,
    /// 64 replicas, 16 zones of the replica, or all numbers of packets are there.
    Full,
}
