//! Tests of transactions, frames, messages, numbers, ports and links, over what their crates make public.
#![tactic(auto)]

#[cfg(test)]
mod frames;
#[cfg(test)]
mod messages;
#[cfg(test)]
mod numbers;
#[cfg(test)]
mod ports;
#[cfg(test)]
mod transactions;
