//! Tests of a client's commands, over links, sources and sinks in memory.
#![tactic(auto)]

#[cfg(test)]
mod asks;
#[cfg(test)]
mod scripts;
#[cfg(test)]
mod setup;
#[cfg(test)]
mod stops;
