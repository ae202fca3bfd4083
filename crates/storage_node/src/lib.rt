//! A storage node: a replica of the log over the files of a disk, and what a stop within a step leaves of it.
#![tactic(auto)]

mod node;
mod steps;
mod tearing;

pub use node::Node;
