//! A client: it builds transactions, asks servers for the log, and applies the log record by record.
#![tactic(auto)]

mod client;
mod heads;
mod laws;
mod refusing;

pub use client::Client;
pub use laws::{applications_are_serial, refusals_are_in_order};
