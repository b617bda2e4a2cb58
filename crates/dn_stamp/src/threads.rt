//! Stamps and what stands under them are Send and Sync: these calls can be made for such types alone.

use crate::{ReplicaId, Stamp, Stamped};

fn crosses<T: Send + Sync>() {}

fn types_cross<T: Send + Sync>() {
    crosses::<ReplicaId>();
    crosses::<Stamp>();
    crosses::<Stamped<T>>();
}
