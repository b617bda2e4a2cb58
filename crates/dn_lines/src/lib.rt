//! Commands that go over the lines of an input: the run of any such command, and `show` and `pack`, whose lines are stored values.
#![tactic(auto)]

mod bad;
mod faults;
mod laws;
mod lines_run;
mod packing;
mod showing;
mod value;
mod value_lines;
mod words;

pub use bad::Bad;
pub use laws::{
    packed_texts_are_one, packed_values_are_shown, shown_texts_are_one, shown_values_are_packed,
};
pub use lines_run::{LineCommand, run_lines};
pub use value_lines::{pack, show};
pub use words::work_of;
