ghost use Rattle.std.specs.Prelude.{◌≡◌};
ghost use Rattle.server_loop.specs.Drives.{answer_of, is_awaited, is_awaited_by, last_place, IsValidAnswer};
ghost use Rattle.server_loop.specs.Exchanges.{IsValidReply};

use crate::exchanges::Reply;
use proto_model::{FromNode, ToNode};
use tx_model::Batch;
use wire_codec::Message;

/// What an exchange with a node gave.
#[derive(Drop)]
pub enum Answer {
    /// A node's reply.
    From(FromNode),
    /// Another reply.
    Garbled,
    /// Nothing.
    Failed,
}

/// What a reply is as an answer of a node.
pub fn answer_of(reply: Reply) -> Answer
    requires { IsValidReply reply }
    ensures value { result ≡ answer_of reply }
    ensures valid { IsValidAnswer result }
{
    match reply {
        Reply::Message(Message::FromNode(m)) => Answer::From(m),
        Reply::Message(Message::ToNode(_)) => Answer::Garbled,
        Reply::Message(Message::ToServer(_)) => Answer::Garbled,
        Reply::Message(Message::FromServer(_)) => Answer::Garbled,
        Reply::Message(Message::ToRegister(_)) => Answer::Garbled,
        Reply::Message(Message::FromRegister(_)) => Answer::Garbled,
        Reply::Message(Message::Control(_)) => Answer::Garbled,
        Reply::Garbled => Answer::Garbled,
        Reply::Failed => Answer::Failed,
    }
}

// The id of a batch's last record.
fn last_place(batch: &Batch) -> u64
    ensures { result ≡ last_place batch.now }
{
    batch.first() + batch.len() as u64 - 1
}

// Whether this is the reply that moves a node forward, where the log has so many records.
fn is_awaited(sent: &ToNode, reply: &FromNode, last: u64) -> bool
    ensures { result ≡ is_awaited sent.now reply.now last }
{
    match sent {
        ToNode::Open(s) => match reply {
            FromNode::Opened(t, adopted, _, _) => *t == *s && *adopted < *s,
            _ => false,
        },
        ToNode::Fetch(s, from, max) => match reply {
            FromNode::Records(t, batch) => *t == *s
                && batch.first() == *from
                && batch.len() <= *max,
            _ => false,
        },
        ToNode::Stage(s, batch) => match reply {
            FromNode::Staged(t, upto) => *t == *s && *upto == last_place(batch),
            _ => false,
        },
        ToNode::Adopt(s, base) => match reply {
            FromNode::Adopted(t, len) => *t == *s && *base <= *len && *len <= last,
            _ => false,
        },
        ToNode::Append(s, batch) => match reply {
            FromNode::Acked(t, len) => *t == *s && last_place(batch) <= *len && *len <= last,
            _ => false,
        },
        ToNode::Low(s, k) => match reply {
            FromNode::LowSet(t, low) => *t == *s && *low == *k,
            _ => false,
        },
    }
}

/// Whether this is the reply that moves a node forward, where the log has so many records.
pub fn is_awaited_by(sent: &Message, reply: &FromNode, last: u64) -> bool
    ensures { result ≡ is_awaited_by sent.now reply.now last }
{
    match sent {
        Message::ToNode(sent) => is_awaited(sent, reply, last),
        Message::FromNode(_) => false,
        Message::ToServer(_) => false,
        Message::FromServer(_) => false,
        Message::ToRegister(_) => false,
        Message::FromRegister(_) => false,
        Message::Control(_) => false,
    }
}
