//! Tests of the commands that serve, over ports, sinks and disks in memory.
#![tactic(auto)]

#[cfg(test)]
mod bytes;
#[cfg(test)]
mod register;
#[cfg(test)]
mod storage;
