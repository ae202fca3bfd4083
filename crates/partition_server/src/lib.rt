//! The server of a partition: sessions and recovery, appends, commits and reads.
#![tactic(auto)]

mod fault;
mod laws;
mod server;
mod uncounted;
mod waiting;

pub use fault::{AppendFault, ReadFault};
pub use laws::commit_marks_are_exact;
pub use server::Server;
pub use uncounted::append_uncounted;
