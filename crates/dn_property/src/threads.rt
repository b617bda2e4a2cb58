//! Properties of a zone and its rules are Send and Sync: these calls can be made for such types alone.

use crate::{Property, ZoneRules};

fn crosses<T: Send + Sync>() {}

fn types_cross() {
    crosses::<Property>();
    crosses::<ZoneRules>();
}
