//! The units of a directory zone: its property list and its nodes, each under a stamp, and a table of them.
#![tactic(auto)]

mod changes;
mod contents;
mod finding;
mod held;
mod marks;
mod numbers;
mod order;
mod owned;
mod rows;
mod table;
mod threads;
mod unit;
mod value;
mod writing;

pub use contents::{properties_of, props_number, rows_at, rows_in};
pub use owned::Owned;
pub use table::{ChangeRun, Table};
pub use unit::{Unit, UnitKey, UnitValue, Write};
pub use value::{fits, unit_ok, value_len};
