//! Packets are Send and Sync: these calls can be made for such types alone.

use crate::{Changes, Packet};

fn crosses<T: Send + Sync>() {}

fn types_cross() {
    crosses::<Changes>();
    crosses::<Packet>();
}
