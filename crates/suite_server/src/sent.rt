//! Messages to nodes without their records.
use proto_model::ToNode;

// The kind of a message, its session, and two numbers: of a batch the first id, and how many records it has.
pub type Sent = [u64; 4];

pub const OPEN: u64 = 1;

pub const FETCH: u64 = 2;

pub const STAGE: u64 = 3;

pub const ADOPT: u64 = 4;

pub const APPEND: u64 = 5;

pub const LOW: u64 = 6;

// No message.
pub const NONE: Sent = [0; 4];

pub fn brief(m: &ToNode) -> Sent {
    match m {
        ToNode::Open(session) => [OPEN, *session, 0, 0],
        ToNode::Fetch(session, from, max) => [FETCH, *session, *from, u64::from(*max)],
        ToNode::Stage(session, batch) => [STAGE, *session, batch.first(), u64::from(batch.len())],
        ToNode::Adopt(session, length) => [ADOPT, *session, *length, 0],
        ToNode::Append(session, batch) => [APPEND, *session, batch.first(), u64::from(batch.len())],
        ToNode::Low(session, low) => [LOW, *session, *low, 0],
    }
}
