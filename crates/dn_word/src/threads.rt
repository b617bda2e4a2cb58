//! What is told of a text that can't be read is Send and Sync: these calls can be made for such types alone.

use crate::TextError;

fn crosses<T: Send + Sync>() {}

fn types_cross() {
    crosses::<TextError>();
}
