//! The loops of the commands that serve: a storage node's and a register's, and what every such command shares.
#![tactic(auto)]

mod end;
mod register;
mod requests;
mod serving;
mod storage;
mod turns;

pub use end::{End, begin, finish};
pub use register::{KeptRegister, serve_register};
pub use requests::{Asked, is_bye, next_request, send, whole_message, zeros};
pub use serving::Serving;
pub use storage::serve_storage;
pub use turns::{serve, take_turns};
