//! What the words of the program's command line ask for.
#![tactic(auto)]

mod command;

pub use command::{Command, command_of};
