//! Passes are Send and Sync: these calls can be made for such types alone.

use crate::{Pass, StepPlan};

fn crosses<T: Send + Sync>() {}

fn types_cross() {
    crosses::<Pass>();
    crosses::<StepPlan>();
}
