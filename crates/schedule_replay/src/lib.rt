//! Schedules that are replayed: each line's event is a step of a world, and its outcome's line is printed.
#![tactic(auto)]

mod cluster;
mod drawn;
mod draws;
mod drilling;
mod events;
mod fault;
mod generating;
mod input;
mod laws;
mod output;
mod play;
mod summary;

pub use cluster::fresh_nodes;
pub use drilling::drill;
pub use events::replay;
pub use fault::ReplayFault;
pub use generating::generate;
pub use laws::{numbers_have_one_run, numbers_have_schedules};
