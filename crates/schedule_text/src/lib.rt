//! The texts of schedules, of client scripts and of outcomes.
#![tactic(auto)]

mod key;
mod lines;
mod message;
mod print;
mod words;

pub use lines::{
    LineFault, Name, ScriptLine, faults_are_one, lines_are_one, long_lines_are_bad,
    places_are_capped, ranges_are_one, read_cluster, read_event, read_script,
};
pub use print::{print_build_fault, print_outcome, print_read_refusal, print_refusal};
