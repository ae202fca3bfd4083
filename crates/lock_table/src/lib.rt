//! The table by which a partition server refuses a transaction that names a lock which a later record holds.
//!
//! A table has rows of slots. Each row hashes a lock's name to one of its slots, and no two rows do it alike. A slot
//! keeps the greatest id of a record that holds a lock of the slot, or the id from which the table started where that is
//! greater. A lock's probed mark is the least over its slots. So it is never below the id of a record that holds the
//! lock, and it is too high only where in each row another lock shares the slot. What a table answers is stated against
//! a scan of the records that were noted.
#![tactic(auto)]

mod hash;
mod table;

pub use table::{LockTable, LockedAt};
