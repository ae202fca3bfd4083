//! The commands of the program, over its devices.
#![tactic(auto)]

mod commands;
mod end;
mod output;
mod replaying;
mod top;

pub use top::run;
