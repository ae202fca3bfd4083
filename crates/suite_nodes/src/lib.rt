//! Tests of storage nodes and their stores, beside the plain replica, over what they make public.
#![tactic(auto)]

#[cfg(test)]
mod asks;
#[cfg(test)]
mod beside;
#[cfg(test)]
mod files;
#[cfg(test)]
mod nodes;
#[cfg(test)]
mod stops;
#[cfg(test)]
mod stores;
