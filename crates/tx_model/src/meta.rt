/// An entry of a storage node's or a register's journal of metadata: one change to what its files stand for.
#[derive(Clone, Copy, PartialEq, Eq)]
pub enum Meta {
    /// A promise to take part in no session below this one.
    Promise(u64),
    /// The adoption of a session's log: the session, the id of the first record that it put down anew, the number
    /// of the file that holds them, and how many records the whole log has.
    Adopt(u64, u64, u32, u64),
    /// The low mark: every record up to this id is committed.
    Low(u64),
    /// A new file: its number, and the id of its first record.
    Roll(u32, u64),
    /// The number that a register holds.
    Value(u64),
}
