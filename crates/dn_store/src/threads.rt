//! Tables and their units are Send and Sync: these calls can be made for such types alone.

use crate::{ChangeRun, Owned, Table, Unit, UnitKey, UnitValue, Write};

fn crosses<T: Send + Sync>() {}

fn types_cross() {
    crosses::<ChangeRun>();
    crosses::<Owned>();
    crosses::<Table>();
    crosses::<Unit>();
    crosses::<UnitKey>();
    crosses::<UnitValue>();
    crosses::<Write>();
}
