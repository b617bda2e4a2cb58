//! What the readers give is Send and Sync: these calls can be made for such types alone.

use crate::{RecordError, RecordFault, RecordReadError, RecordView};

fn crosses<T: Send + Sync>() {}

fn types_cross() {
    crosses::<RecordError>();
    crosses::<RecordFault>();
    crosses::<RecordReadError>();
    crosses::<RecordView<'static>>();
}
