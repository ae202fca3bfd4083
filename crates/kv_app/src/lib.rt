//! The application of the log: keys with numbers, which op texts change.
//!
//! An op text is read in two passes. The first takes no memory and finds the place of a fault. The second makes the
//! operations, and can fail only where memory runs out.
#![tactic(auto)]

mod amount;
mod app;
mod check;
mod front;
mod key;
mod kv;
mod laws;
mod numbers;
mod ops;
mod piece;
mod touched;

pub use app::App;
pub use check::bad_place;
pub use kv::KvApp;
pub use laws::{bad_places_are_found, op_texts_spell_their_ops};
pub use ops::{OpsFault, read_ops};
pub use touched::touches;
pub use tx_model::Op;
