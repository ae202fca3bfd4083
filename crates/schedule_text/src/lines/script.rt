use tx_model::{Locks, OpText};

/// What a client does next, with the values of its line of a script in their order.
#[derive(Drop)]
pub enum ScriptLine {
    /// It builds a transaction and sends it: write locks, read locks, ops.
    Append(Locks, Locks, OpText),
    /// It asks until it has all that is committed.
    Sync,
    /// Its mark and application are shown.
    App,
    /// It asks up to which id the log is committed.
    Flush,
}
