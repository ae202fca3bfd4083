//! Tests of the server's command and of the register that it asks, over links, ports and sinks in memory.
#![tactic(auto)]

#[cfg(test)]
mod register;
#[cfg(test)]
mod server;
