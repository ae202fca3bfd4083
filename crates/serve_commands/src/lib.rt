//! The commands that serve over a disk: a storage node, and the register.
#![tactic(auto)]

mod front;
mod kept;
mod node_command;
mod register_command;
mod unloaded;

pub use node_command::storage;
pub use register_command::register;
