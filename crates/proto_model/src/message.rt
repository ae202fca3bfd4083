use std::alloc::{AllocError, Global};
use tx_model::Batch;

/// What a server sends to a storage node. The first number of each is the server's session.
#[derive(Drop)]
pub enum ToNode {
    /// Asks for a promise: session.
    Open(u64),
    /// Asks for records of the node's log: session, from, max (1 to 8).
    Fetch(u64, u64, u8),
    /// Records of the chosen log, to be kept aside: session, batch.
    Stage(u64, Batch),
    /// The node's log is to be its records up to the low-water mark and the staged ones: session, length.
    Adopt(u64, u64),
    /// Records for the end of the log: session, batch.
    Append(u64, Batch),
    /// The log is committed up to here: session, low-water mark.
    Low(u64, u64),
}

/// What a storage node answers. The first number of each is the session of the message that it answers.
#[derive(Drop)]
pub enum FromNode {
    /// Session, adopted session, low-water mark, length.
    Opened(u64, u64, u64, u64),
    /// Session, promised session, which is above it.
    Stale(u64, u64),
    /// Session, promised session, which is below it.
    Unopened(u64, u64),
    /// Session, batch.
    Records(u64, Batch),
    /// Session, id of the last staged record.
    Staged(u64, u64),
    /// Session, id of the record to be staged next.
    StageAt(u64, u64),
    /// Session, length.
    Adopted(u64, u64),
    /// Session, length.
    Acked(u64, u64),
    /// Session, length, which is too short for what was asked.
    Gap(u64, u64),
    /// Session, adopted session, which is another one.
    NotAdopted(u64, u64),
    /// Session, low-water mark.
    LowSet(u64, u64),
}

/// What a node reported to a server that opens a session there.
#[derive(Clone, Copy, PartialEq, Eq)]
pub struct Report {
    pub node: u8,
    pub adopted: u64,
    pub low: u64,
    pub length: u64,
}

/// What a storage node tells of itself: its promised and its adopted session, its low-water mark, the length of its log,
/// and the number of the file that its last records are in.
#[derive(Clone, Copy, PartialEq, Eq)]
pub struct Status {
    pub promised: u64,
    pub adopted: u64,
    pub low: u64,
    pub length: u64,
    pub file: u32,
}

/// How far a server's session is.
#[derive(Clone, Copy, Debug, PartialEq, Eq)]
pub enum Phase {
    /// There is no session.
    Idle,
    /// Reports of a quorum are awaited.
    Opening,
    /// A report is chosen, and its node's log is fetched.
    Fetching,
    /// The chosen log is brought to the nodes.
    Repairing,
    /// A quorum adopted the chosen log, and appends are taken.
    Running,
    /// A node had promised this later session.
    Closed(u64),
}

impl FromNode {
    ghost use Rattle.std.specs.Prelude.{◌≡◌, IfOk};

    /// An equal message.
    pub fn copy(&self, alloc: Global) -> Result<FromNode, AllocError>
        ensures { IfOk result (λ copy. copy ≡ self.now) }
    {
        Ok(match self {
            FromNode::Opened(s, adopted, low, length) => FromNode::Opened(
                *s, *adopted, *low, *length,
            ),
            FromNode::Stale(s, p) => FromNode::Stale(*s, *p),
            FromNode::Unopened(s, p) => FromNode::Unopened(*s, *p),
            FromNode::Records(s, batch) => FromNode::Records(*s, batch.copy(alloc)?),
            FromNode::Staged(s, upto) => FromNode::Staged(*s, *upto),
            FromNode::StageAt(s, next) => FromNode::StageAt(*s, *next),
            FromNode::Adopted(s, length) => FromNode::Adopted(*s, *length),
            FromNode::Acked(s, length) => FromNode::Acked(*s, *length),
            FromNode::Gap(s, length) => FromNode::Gap(*s, *length),
            FromNode::NotAdopted(s, adopted) => FromNode::NotAdopted(*s, *adopted),
            FromNode::LowSet(s, low) => FromNode::LowSet(*s, *low),
        })
    }
}
