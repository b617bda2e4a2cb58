//! Records, the parts of their data and what is wrong with these are Send and Sync: these calls can be made for such types alone.

use crate::{DataFault, DataView, Record};

fn crosses<T: Send + Sync>() {}

fn types_cross() {
    crosses::<DataFault>();
    crosses::<DataView<'static>>();
    crosses::<Record>();
}
