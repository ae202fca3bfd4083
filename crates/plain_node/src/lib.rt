//! A storage node's replica of the log over lists: the plain program of the definitions, with which tables of tests compare
//! what a node over files keeps.
#![tactic(auto)]

mod node;

pub use node::Node;
