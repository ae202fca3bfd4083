use crate::{ReadRefusal, Refusal};
use tx_model::{Heads, Record, Tx};

/// What a client asks of a server.
#[derive(Drop)]
pub enum ToServer {
    /// A transaction for the end of the log.
    Append(Tx),
    /// Asks for the heads of committed records: from this id on, so many at most (1 to 16).
    Feed(u64, u8),
    /// Asks for the committed record of this id.
    Get(u64),
    /// Asks up to which id the log is committed.
    Flush,
}

/// What a server answers to a client.
#[derive(Drop)]
pub enum FromServer {
    /// Request, and the id under which its transaction is committed.
    Committed(u64, u64),
    /// Request, and the id under which its transaction waits to be committed.
    Pending(u64, u64),
    /// Request, and why its transaction is not taken.
    Refused(u64, Refusal),
    /// The id from which heads were asked for, the committed mark, and the heads from that id on.
    Heads(u64, u64, Heads),
    /// A committed record.
    Entry(Record),
    /// The committed mark.
    Flushed(u64),
    /// Why no part of the log is shown.
    Unserved(ReadRefusal),
}
