use dn_io::List;
use dn_name::Name;
use dn_stamp::ReplicaId;
use dn_store::Write;
use std::marker::Model;

/// The most bytes of units in a packet of changes.
pub const CHANGES_ROOM: usize = 64_000;

/// The changes of a zone on its supplier above one number and up to another.
#[derive(Drop)]
pub struct Changes {
    /// The zone's apex, in lower case.
    pub zone: Name,
    pub supplier: ReplicaId,
    pub from: u64,
    pub to: u64,
    pub units: List<Write>,
}

impl Model for Changes {
    ghost use Rattle.dn_link.specs.Sent.{CanBeTaken, Run};

    ghost Value = { Run };

    ghost view = { λ it. record { zone = it.zone; supplier = it.supplier; from = it.from; to = it.to; units = it.units } };

    ghost invariant = { λ it. CanBeTaken it.units };
}

/// What replicas send each other.
#[derive(Drop)]
pub enum Packet {
    /// Asks for the changes of a zone above a number.
    Pull {
        zone: Name,
        from_id: ReplicaId,
        after: u64,
    },
    Changes(Changes),
}
