//! What replicas send each other: a question for the changes of a zone, and changes.
#![tactic(auto)]

mod laws;
mod packet;
mod threads;

pub use laws::valid_changes_can_be_taken;
pub use packet::{CHANGES_ROOM, Changes, Packet};
