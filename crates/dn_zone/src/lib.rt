//! A zone on one replica: what commands, passes and changes from other replicas make of it, one event after another.
#![tactic(auto)]

mod administering;
mod changes;
mod creation;
mod cursors;
mod event;
mod laws;
mod merging;
mod passing;
mod settings;
mod threads;
mod zone;

pub use changes::changes_of;
pub use cursors::Cursors;
pub use event::{AdminCmd, AdminDone, Answer, Event, INTERVAL_LIMIT};
pub use laws::{cursors_move_apart, events_take_their_writes, zones_stay_valid};
pub use zone::{Prepared, Zone};
