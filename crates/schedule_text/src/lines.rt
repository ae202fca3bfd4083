//! The lines of schedules and of client scripts: which text is which value, and the fault of a text that is none.

mod build;
mod fault;
mod form;
mod found;
mod laws;
pub(crate) mod lists;
mod place;
mod read;
mod script;
mod word;

pub use fault::LineFault;
pub use form::Name;
pub use laws::{
    faults_are_one, lines_are_one, long_lines_are_bad, places_are_capped, ranges_are_one,
};
pub use read::{read_cluster, read_event, read_script};
pub use script::ScriptLine;
