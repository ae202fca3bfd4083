//! The world of a schedule, stepped event by event over any replicas that can crash.
#![tactic(auto)]

mod clients;
mod deliver;
mod nodes;
mod numbers;
mod one_log;
mod send;
mod servers;
mod system;
mod tally;
mod world;

pub use world::World;
