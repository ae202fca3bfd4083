//! How long the body of a message is, told before it is written.
ghost use Rattle.std.specs.Prelude.{◌≡◌, ◌+◌, ◌*◌, ◌≤◌, length, All};
ghost use Rattle.std.specs.List.{flat_map};
ghost use Rattle.tx_model.specs.Spelling.{spelled_names, spelled_transaction};
ghost use Rattle.proto_model.specs.Validity.{AreHeads, IsValidFromServer};
ghost use Rattle.wire_codec.specs.Spelling.{spelled_entry, spelled_batch, spelled_head, spelled_heads, spelled_refusal, spelled_read_refusal, spelled_to_node, spelled_from_node, spelled_to_server, spelled_from_server, spelled_to_register, spelled_from_register, message_body, IsValidMessage};

use crate::message::{FromRegister, Message, ToRegister};
use proto_model::{FromNode, FromServer, ReadRefusal, Refusal, ToNode, ToServer};
use record_frame::body_len;
use tx_model::{Batch, Head, Heads, Lock, Record, Tx};

/// Bytes of the family and the kind.
const FRONT: usize = 2;

/// Bytes of a number.
const NUMBER: usize = 8;

/// Bytes of the length of a body or a payload.
pub(crate) const LENGTH: usize = 4;

fn names_len(locks: &[Lock]) -> usize
    requires { length locks.now ≤ 64 }
    ensures len { result ≡ length (spelled_names locks.now) }
    ensures short { result ≤ 65 * length locks.now }
{
    let mut len = 0;
    for lock in locks {
        len += 1 + lock.bytes().len();
    }
    len
}

fn transaction_len(tx: &Tx) -> usize
    ensures len { result ≡ length (spelled_transaction tx.now) }
    ensures short { result ≤ 69726 }
{
    let names = names_len(tx.reads()) + names_len(tx.writes());
    3 * NUMBER + 2 + names + LENGTH + tx.payload().len()
}

fn entries_len(entries: &[Record]) -> usize
    requires { length entries.now ≤ 8 }
    ensures len { result ≡ length (flat_map spelled_entry entries.now) }
    ensures short { result ≤ 69747 * length entries.now }
{
    let mut len = 0;
    for entry in entries {
        len += LENGTH + body_len(entry);
    }
    len
}

fn batch_len(batch: &Batch) -> usize
    ensures len { result ≡ length (spelled_batch batch.now) }
    ensures short { result ≤ 557977 }
{
    1 + entries_len(batch.records())
}

fn head_len(head: &Head) -> usize
    requires { length head.now.reads + length head.now.writes ≤ 64 }
    ensures len { result ≡ length (spelled_head head.now) }
    ensures short { result ≤ 4186 }
{
    3 * NUMBER + 2 + names_len(head.reads.items()) + names_len(head.writes.items())
}

fn some_heads_len(heads: &[Head]) -> usize
    requires few { length heads.now ≤ 16 }
    requires fit { All (λ h. length h.reads + length h.writes ≤ 64) heads.now }
    ensures len { result ≡ length (flat_map spelled_head heads.now) }
    ensures short { result ≤ 4186 * length heads.now }
{
    let mut len = 0;
    for head in heads {
        len += head_len(head);
    }
    len
}

fn heads_len(from: u64, heads: &Heads) -> usize
    requires { AreHeads from heads.now }
    ensures len { result ≡ length (spelled_heads heads.now) }
    ensures short { result ≤ 66977 }
{
    1 + some_heads_len(heads.items())
}

fn refusal_len(why: &Refusal) -> usize
    ensures { result ≡ length (spelled_refusal why.now) }
{
    match why {
        Refusal::NotRunning(_) => 2,
        Refusal::Closed(_) | Refusal::MarkAhead(_) => 1 + NUMBER,
        Refusal::Locked(lock, _) => 2 + lock.bytes().len() + NUMBER,
        Refusal::WindowFull | Refusal::LogFull => 1,
    }
}

fn read_refusal_len(why: ReadRefusal) -> usize
    ensures { result ≡ length (spelled_read_refusal why) }
{
    match why {
        ReadRefusal::NotRunning(_) => 2,
        ReadRefusal::BadId => 1,
        ReadRefusal::NotYet(_) => 1 + NUMBER,
    }
}

fn to_node_len(m: &ToNode) -> usize
    ensures { result ≡ length (spelled_to_node m.now) }
{
    match m {
        ToNode::Open(_) => FRONT + NUMBER,
        ToNode::Fetch(_, _, _) => FRONT + 2 * NUMBER + 1,
        ToNode::Stage(_, batch) | ToNode::Append(_, batch) => FRONT + NUMBER + batch_len(batch),
        ToNode::Adopt(_, _) | ToNode::Low(_, _) => FRONT + 2 * NUMBER,
    }
}

fn from_node_len(m: &FromNode) -> usize
    ensures { result ≡ length (spelled_from_node m.now) }
{
    match m {
        FromNode::Opened(_, _, _, _) => FRONT + 4 * NUMBER,
        FromNode::Records(_, batch) => FRONT + NUMBER + batch_len(batch),
        FromNode::Stale(_, _)
        | FromNode::Unopened(_, _)
        | FromNode::Staged(_, _)
        | FromNode::StageAt(_, _)
        | FromNode::Adopted(_, _)
        | FromNode::Acked(_, _)
        | FromNode::Gap(_, _)
        | FromNode::NotAdopted(_, _)
        | FromNode::LowSet(_, _) => FRONT + 2 * NUMBER,
    }
}

fn to_server_len(m: &ToServer) -> usize
    ensures { result ≡ length (spelled_to_server m.now) }
{
    match m {
        ToServer::Append(tx) => FRONT + transaction_len(tx),
        ToServer::Feed(_, _) => FRONT + NUMBER + 1,
        ToServer::Get(_) => FRONT + NUMBER,
        ToServer::Flush => FRONT,
    }
}

fn from_server_len(m: &FromServer) -> usize
    requires { IsValidFromServer m.now }
    ensures { result ≡ length (spelled_from_server m.now) }
{
    match m {
        FromServer::Committed(_, _) | FromServer::Pending(_, _) => FRONT + 2 * NUMBER,
        FromServer::Refused(_, why) => FRONT + NUMBER + refusal_len(why),
        FromServer::Heads(from, _, heads) => FRONT + 2 * NUMBER + heads_len(*from, heads),
        FromServer::Entry(entry) => FRONT + LENGTH + body_len(entry),
        FromServer::Flushed(_) => FRONT + NUMBER,
        FromServer::Unserved(why) => FRONT + read_refusal_len(*why),
    }
}

fn to_register_len(m: ToRegister) -> usize
    ensures { result ≡ length (spelled_to_register m) }
{
    match m {
        ToRegister::Read => FRONT,
        ToRegister::Cas(_) => FRONT + NUMBER,
    }
}

fn from_register_len(m: FromRegister) -> usize
    ensures { result ≡ length (spelled_from_register m) }
{
    match m {
        FromRegister::Value(_) | FromRegister::Won(_) | FromRegister::Lost(_) => FRONT + NUMBER,
        FromRegister::Exhausted => FRONT,
    }
}

fn any_len(m: &Message) -> usize
    requires { IsValidMessage m.now }
    ensures { result ≡ length (message_body m.now) }
{
    match m {
        Message::ToNode(m) => to_node_len(m),
        Message::FromNode(m) => from_node_len(m),
        Message::ToServer(m) => to_server_len(m),
        Message::FromServer(m) => from_server_len(m),
        Message::ToRegister(m) => to_register_len(*m),
        Message::FromRegister(m) => from_register_len(*m),
        Message::Control(_) => FRONT,
    }
}

/// The length of a message's body.
pub(crate) fn message_len(m: &Message) -> usize
    requires { IsValidMessage m.now }
    ensures len { result ≡ length (message_body m.now) }
    ensures short { result ≤ 600000 }
{
    any_len(m)
}
