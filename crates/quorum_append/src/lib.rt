//! The commit mark: the greatest length of a log that a quorum of nodes acknowledged.
//!
//! What is kept is one number a node. What is promised is said of the list of all acknowledgements that were made.
#![tactic(auto)]

mod acks;
mod laws;

pub use acks::Acks;
pub use laws::marks_are_found;
