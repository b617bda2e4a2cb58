//! What adding a record makes of a node's records (RFC 2136 3.4.2.2), and the writes that values come to within the limits of
//! a zone.
#![tactic(auto)]

mod node;
mod plan;
mod threads;

pub use node::with_added;
pub use plan::{Limit, Plan, plan_value};
