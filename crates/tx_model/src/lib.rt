//! Transactions, records and their locks.
#![tactic(auto)]

mod batch;
mod key;
mod laws;
mod lock;
mod meta;
mod op;
mod op_text;
mod record;
mod steps;
mod tx;

pub use batch::{Batch, BatchFault, MAX_BATCH};
pub use key::{MAX_KEY, is_key_byte};
pub use laws::admitted_name_no_held_lock;
pub use lock::{Lock, LockFault, Locks, MAX_NAME};
pub use meta::Meta;
pub use op::Op;
pub use op_text::OpText;
pub use record::{Head, Heads, MAX_HEADS, MAX_PLACE, Record};
pub use steps::Steps;
pub use tx::{MAX_LOCKS, MAX_PAYLOAD, Tx, TxFault};
