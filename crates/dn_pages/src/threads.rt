//! Pages of such items are Send and Sync: these calls can be made for such types alone.

use crate::shared::Shared;
use crate::{Draft, Pages, Place};

fn crosses<T: Send + Sync>() {}

fn types_cross<T: Send + Sync>() {
    crosses::<Draft<T>>();
    crosses::<Pages<T>>();
    crosses::<Place>();
    crosses::<Shared<T>>();
}
