//! The messages between all parties, and the steps of nodes, servers and clients as definitions.
#![tactic(auto)]

mod client_message;
mod laws;
mod message;
mod refusal;
mod replica;

pub use client_message::{FromServer, ToServer};
pub use laws::{
    damaged_files_stand_for_nothing, every_receive_is_sane, every_step_is_sane,
    files_stand_by_what_is_named, messages_are_valid, one_place_is_damaged, replies_are_valid,
};
pub use message::{FromNode, Phase, Report, Status, ToNode};
pub use refusal::{BuildFault, ReadRefusal, Refusal};
pub use replica::{Crashing, NodeFault, Replica};
