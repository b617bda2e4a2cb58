//! Worlds, their events and answers are Send and Sync: these calls can be made for such types alone.

use crate::{Post, Replica, World, WorldAnswer, WorldEvent, WorldNo};

fn crosses<T: Send + Sync>() {}

fn types_cross() {
    crosses::<Post>();
    crosses::<Replica>();
    crosses::<World>();
    crosses::<WorldAnswer>();
    crosses::<WorldEvent>();
    crosses::<WorldNo>();
}
