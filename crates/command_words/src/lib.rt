//! The words of a command line, and the command that they are.
#![tactic(auto)]

mod arguments;
mod command;
mod words;

pub use command::{Command, read_command};
