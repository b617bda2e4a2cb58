//! Scripts: replicas, zones, commands and questions as lines of text, and the transcript that they give.
#![tactic(auto)]

mod asking;
mod laws;
mod line;
mod names;
mod passes;
mod print;
mod print_reply;
mod replaying;
mod script;

pub use dn_lines::{
    pack, packed_texts_are_one, packed_values_are_shown, show, shown_texts_are_one,
    shown_values_are_packed,
};
pub use laws::{a_play_is_one_run, whole_passes_end};
pub use replaying::replay;
