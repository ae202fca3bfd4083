//! The loop of the server: it draws a session from the register, recovers the log, and serves clients.
#![tactic(auto)]

mod awaiting;
mod driven;
mod driving;
mod end;
mod exchanges;
mod host;
mod link_register;
mod recovery;
mod requests;
mod server;
mod serving;
mod turns;

pub use driven::Driven;
pub use driving::{Out, drive};
pub use end::End;
pub use exchanges::{Reply, exchange};
pub use host::Host;
pub use link_register::{LinkRegister, draw};
pub use recovery::begin_session;
pub use server::host_session;
pub use serving::serve_request;
pub use turns::take_turns;
