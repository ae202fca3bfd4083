//! A session's recovery: which node's log goes on, and how the nodes come to have it.
#![tactic(auto)]

mod choice;
mod draft;
mod nodes;
mod recovery;

pub use draft::Draft;
pub use nodes::Nodes;
pub use recovery::Recovery;
