//! Names and what is wrong with their text are Send and Sync: these calls can be made for such types alone.

use crate::{Name, NameError, NameFault, NoRoom};

fn crosses<T: Send + Sync>() {}

fn types_cross() {
    crosses::<Name>();
    crosses::<NameError>();
    crosses::<NameFault>();
    crosses::<NoRoom>();
}
