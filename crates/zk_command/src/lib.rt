// The command line: its commands, their options, and what its arguments ask for.
#![tactic(auto)]

pub mod arguments;
pub mod choice;
mod command_line;
pub mod manner;
mod options;
pub mod settings;
