//! Tests of the program, over what it makes public.
#![tactic(auto)]

#[cfg(test)]
mod devices;
#[cfg(test)]
mod numbers;
#[cfg(test)]
mod replays;
#[cfg(test)]
mod serving;
#[cfg(test)]
mod takeover;
