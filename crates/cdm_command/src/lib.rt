//! The command line: its arguments, the help texts and the manual.
#![tactic(auto)]

mod command;
mod manual;
mod parsers;

pub use command::{Command, CommandFault, DayFiles, STANDARD_INPUT, command_of};
