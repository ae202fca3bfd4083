use crate::Lock;

/// An operation of an application's op text, on one key.
#[derive(Drop)]
pub enum Op {
    /// The key has this number, from -1,000,000,000 to 1,000,000,000.
    Set(Lock, i64),
    /// The key's number, 0 where it has none, and this one, from -1,000,000,000 to 1,000,000,000, are added. The sum
    /// stays within the ends of i64.
    Add(Lock, i64),
    /// The key has no number.
    Del(Lock),
}
