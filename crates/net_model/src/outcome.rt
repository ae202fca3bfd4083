use crate::{AppText, Bytes, Entries, Items};
use proto_model::{BuildFault, Phase};

/// What an event gave.
#[derive(Drop)]
pub enum Outcome {
    /// The register's number.
    Read(u64),
    /// The session that a compare-and-set won.
    Won(u64),
    /// The register's number, from which a compare-and-set differed.
    Lost(u64),
    /// The register holds the greatest session number.
    Exhausted,
    /// The server keeps no number.
    Unread,
    /// The register's number after a compare-and-set whose answer was lost.
    Wasted(u64),
    /// These envelopes were made.
    Sent(Items),
    /// No envelope was made.
    Quiet,
    /// There is no such envelope.
    NoEnvelope,
    /// The cursor went past this envelope.
    Skipped(u32),
    /// A node that stopped within a step: node, promised and adopted session, low-water mark, length.
    Torn(u8, u64, u64, u64, u64),
    /// A node: node, promised and adopted session, low-water mark, length.
    Node(u8, u64, u64, u64, u64),
    /// An idle server.
    Idle(u8),
    /// A server that is not idle: server, phase, session, last id, committed mark.
    Server(u8, Phase, u64, u64, u64),
    /// A client: client, mark.
    Client(u8, u64),
    /// A client built nothing, and why.
    Refused(BuildFault),
    /// What a client's application holds: client, mark, text.
    App(u8, u64, AppText),
    /// The one log: its length, and the entries that were asked for.
    Log(u64, Entries),
    /// A file: its length, and the bytes that were asked for.
    Dump(u64, Bytes),
}
