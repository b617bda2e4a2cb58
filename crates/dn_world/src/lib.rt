//! Replicas, their zones, and the packets between them: what each event makes of a world, and what holds of every world.
#![tactic(auto)]

mod datagrams;
mod event;
mod laws;
mod nearest;
mod replication;
mod threads;
mod world;

pub use event::{WorldAnswer, WorldEvent, WorldNo};
pub use laws::{
    replicas_answer_alike, replies_are_read_rightly, worlds_stay_valid, zones_age_rightly,
};
pub use world::{Post, Replica, World};
