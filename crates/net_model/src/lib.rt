//! What happens in a cluster: its parties, the envelopes between them, the events that happen and the outcomes that they
//! give.
#![tactic(auto)]

mod brief;
mod cluster;
mod event;
mod mail;
mod outcome;
mod pool;
mod shown;

pub use brief::{Brief, FromNodeBrief, FromServerBrief, ToNodeBrief, ToServerBrief};
pub use cluster::Cluster;
pub use event::Event;
pub use mail::{Envelope, Mail, Party};
pub use outcome::Outcome;
pub use pool::Pool;
pub use shown::{AppText, Bytes, Entries, Entry, Item, Items};
