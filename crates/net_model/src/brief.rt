ghost use Rattle.std.specs.Prelude.{◌≡◌, IfOk};
ghost use Rattle.net_model.specs.Briefs.{to_node_brief, from_node_brief, to_server_brief, from_server_brief};

use crate::Mail;
use proto_model::{FromNode, FromServer, ReadRefusal, Refusal, ToNode, ToServer};
use std::alloc::{AllocError, Global};

/// What an outcome tells of a message: its numbers, of records and heads the first id and the count, and the reason of a
/// refusal.
#[derive(Drop)]
pub enum Brief {
    ToNode(ToNodeBrief),
    FromNode(FromNodeBrief),
    ToServer(ToServerBrief),
    FromServer(FromServerBrief),
}

#[derive(Clone, Copy)]
pub enum ToNodeBrief {
    Open(u64),
    Fetch(u64, u64, u8),
    /// Session, first id, how many records.
    Stage(u64, u64, u8),
    Adopt(u64, u64),
    /// Session, first id, how many records.
    Append(u64, u64, u8),
    Low(u64, u64),
}

#[derive(Clone, Copy)]
pub enum FromNodeBrief {
    Opened(u64, u64, u64, u64),
    Stale(u64, u64),
    Unopened(u64, u64),
    /// Session, first id, how many records.
    Records(u64, u64, u8),
    Staged(u64, u64),
    StageAt(u64, u64),
    Adopted(u64, u64),
    Acked(u64, u64),
    Gap(u64, u64),
    NotAdopted(u64, u64),
    LowSet(u64, u64),
}

#[derive(Clone, Copy)]
pub enum ToServerBrief {
    /// The request.
    Append(u64),
    Feed(u64, u8),
    Get(u64),
    Flush,
}

#[derive(Drop)]
pub enum FromServerBrief {
    Committed(u64, u64),
    Pending(u64, u64),
    Refused(u64, Refusal),
    /// From, how many heads, committed mark.
    Heads(u64, u64, u64),
    Entry(u64),
    Flushed(u64),
    Unserved(ReadRefusal),
}

// What is told of a server's request to a node.
fn to_node_brief(m: &ToNode) -> ToNodeBrief
    ensures { result ≡ to_node_brief m.now }
{
    match m {
        ToNode::Open(s) => ToNodeBrief::Open(*s),
        ToNode::Fetch(s, from, max) => ToNodeBrief::Fetch(*s, *from, *max),
        ToNode::Stage(s, batch) => ToNodeBrief::Stage(*s, batch.first(), batch.len()),
        ToNode::Adopt(s, length) => ToNodeBrief::Adopt(*s, *length),
        ToNode::Append(s, batch) => ToNodeBrief::Append(*s, batch.first(), batch.len()),
        ToNode::Low(s, k) => ToNodeBrief::Low(*s, *k),
    }
}

// What is told of a node's reply.
fn from_node_brief(m: &FromNode) -> FromNodeBrief
    ensures { result ≡ from_node_brief m.now }
{
    match m {
        FromNode::Opened(s, adopted, low, length) => FromNodeBrief::Opened(
            *s, *adopted, *low, *length,
        ),
        FromNode::Stale(s, p) => FromNodeBrief::Stale(*s, *p),
        FromNode::Unopened(s, p) => FromNodeBrief::Unopened(*s, *p),
        FromNode::Records(s, batch) => FromNodeBrief::Records(*s, batch.first(), batch.len()),
        FromNode::Staged(s, upto) => FromNodeBrief::Staged(*s, *upto),
        FromNode::StageAt(s, next) => FromNodeBrief::StageAt(*s, *next),
        FromNode::Adopted(s, length) => FromNodeBrief::Adopted(*s, *length),
        FromNode::Acked(s, length) => FromNodeBrief::Acked(*s, *length),
        FromNode::Gap(s, length) => FromNodeBrief::Gap(*s, *length),
        FromNode::NotAdopted(s, adopted) => FromNodeBrief::NotAdopted(*s, *adopted),
        FromNode::LowSet(s, low) => FromNodeBrief::LowSet(*s, *low),
    }
}

// What is told of a client's request.
fn to_server_brief(m: &ToServer) -> ToServerBrief
    ensures { result ≡ to_server_brief m.now }
{
    match m {
        ToServer::Append(tx) => ToServerBrief::Append(tx.request()),
        ToServer::Feed(from, max) => ToServerBrief::Feed(*from, *max),
        ToServer::Get(id) => ToServerBrief::Get(*id),
        ToServer::Flush => ToServerBrief::Flush,
    }
}

// What is told of a server's answer.
fn from_server_brief(alloc: Global, m: &FromServer) -> Result<FromServerBrief, AllocError>
    ensures { IfOk result (λ brief. brief ≡ from_server_brief m.now) }
{
    Ok(match m {
        FromServer::Committed(request, id) => FromServerBrief::Committed(*request, *id),
        FromServer::Pending(request, id) => FromServerBrief::Pending(*request, *id),
        FromServer::Refused(request, refusal) => FromServerBrief::Refused(
            *request,
            refusal.copy(alloc)?,
        ),
        FromServer::Heads(from, committed, heads) => {
            FromServerBrief::Heads(*from, heads.items().len() as u64, *committed)
        }
        FromServer::Entry(entry) => FromServerBrief::Entry(entry.id),
        FromServer::Flushed(committed) => FromServerBrief::Flushed(*committed),
        FromServer::Unserved(refusal) => FromServerBrief::Unserved(*refusal),
    })
}

impl Mail {
    ghost use Rattle.net_model.specs.Briefs.{brief_of};

    /// What is told of the message.
    pub fn brief(&self, alloc: Global) -> Result<Brief, AllocError>
        ensures { IfOk result (λ brief. brief ≡ brief_of self.now) }
    {
        match self {
            Mail::ToNode(m) => Ok(Brief::ToNode(to_node_brief(m))),
            Mail::FromNode(m) => Ok(Brief::FromNode(from_node_brief(m))),
            Mail::ToServer(m) => Ok(Brief::ToServer(to_server_brief(m))),
            Mail::FromServer(m) => Ok(Brief::FromServer(from_server_brief(alloc, m)?)),
        }
    }
}
