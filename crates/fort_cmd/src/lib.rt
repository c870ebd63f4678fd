//! The words after the program's name, as a command.
#![tactic(auto)]

mod command;
mod laws;
mod line;

pub use command::{CmdFault, Command, command_of};
pub use laws::one_command;
