//! The log of a storage node in files: a journal of what was promised and adopted, and files of records.
#![tactic(auto)]

mod adding;
mod adopting;
mod closing;
mod getting;
mod loading;
mod putting;
mod staging;
mod store;
mod taking;
mod trimming;

pub use store::Store;
