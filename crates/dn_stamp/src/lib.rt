//! Stamps of writes, and values that are joined by the greater stamp.
#![tactic(auto)]

mod join;
mod stamp;
mod threads;

pub use join::{Join, Stamped, order_makes_no_difference};
pub use stamp::{ReplicaId, Stamp};
