//! Plans of writes are Send and Sync: these calls can be made for such types alone.

use crate::{Limit, Plan};

fn crosses<T: Send + Sync>() {}

fn types_cross() {
    crosses::<Limit>();
    crosses::<Plan>();
}
