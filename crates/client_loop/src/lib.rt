//! The client's command, which does a script against a server, and the command that stops whoever serves at a port.
#![tactic(auto)]

mod append;
mod ask;
mod end;
mod exchange;
mod input;
mod lines;
mod says;
mod script;
mod stopping;
mod sync;

pub use script::run_client;
pub use stopping::stop;
