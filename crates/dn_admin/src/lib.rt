//! Administration as text: commands as words of a line, and the answers to them.
#![tactic(auto)]

mod answers;
mod command;

pub use answers::answer_line;
pub use command::command_of;
