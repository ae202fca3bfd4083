//! The world of a cluster, what each event makes of it, and laws of every run, whatever the cluster and the events are.
#![tactic(auto)]

mod laws;

pub use laws::{
    acceptance, agreement, applications, books_clean, every_run_is_safe, every_run_is_sound,
    one_log_is_found, repeats, valid_reads,
};
