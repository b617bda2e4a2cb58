//! Passes of the scavenger over a zone in steps: exactly the stale records of the next keys go (MS-DNSP 2.2.2.2.4, and the
//! rules of aging).
#![tactic(auto)]

mod pass;
mod stepping;
mod sweeper;
mod threads;

pub use pass::{Pass, StepPlan, begin};
pub use stepping::step;
