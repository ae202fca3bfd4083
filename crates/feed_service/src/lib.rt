//! The log that a server keeps in memory: it takes records in the order of their ids, and gives their heads and copies.
#![tactic(auto)]

mod window;

pub use window::Window;
