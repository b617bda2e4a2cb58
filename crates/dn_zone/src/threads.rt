//! Zones, their events and answers are Send and Sync: these calls can be made for such types alone.

use crate::{AdminCmd, AdminDone, Answer, Cursors, Event, Prepared, Zone};

fn crosses<T: Send + Sync>() {}

fn types_cross() {
    crosses::<AdminCmd>();
    crosses::<AdminDone>();
    crosses::<Answer>();
    crosses::<Cursors>();
    crosses::<Event>();
    crosses::<Prepared>();
    crosses::<Zone>();
}
