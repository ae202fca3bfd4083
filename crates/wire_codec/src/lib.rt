//! Messages between all parties as frames of bytes, and back.
//!
//! A frame is the length of its body in four bytes, and the body: a family, a kind and the fields. Reading has two passes,
//! as that of records has: a check, which takes no memory, finds each fault and where the parts of a message stand, and a
//! build, which can fail only where memory runs out.
#![tactic(auto)]

mod building;
mod families;
mod fields;
mod kinds;
mod laws;
mod layout;
mod lists;
mod measuring;
mod message;
mod reading;
mod writing;

pub use laws::{frames_are_short, messages_have_one_spelling};
pub use message::{Control, FromRegister, Message, ToRegister};
pub use reading::{MAX_FRAME, check, decode};
pub use writing::encode;
