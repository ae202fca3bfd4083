//! Where the parts of a message stand, found without memory.
ghost use Rattle.std.specs.Prelude.{◌≡◌, true, false, Some, drop, IfSome, IfNone};
ghost use Rattle.std.specs.Int.{w64};
ghost use Rattle.tx_model.specs.Reading.{number};
ghost use Rattle.wire_codec.specs.Reading.{is_batch, is_session_and_batch, fetch_in, opened_in, append_in, feed_in, refused_with, unserved_with, locked_in, refusal_in, refused_in, heads_in, entry_in, read_refusal_in, unserved_in};
ghost use Rattle.wire_codec.specs.Layouts.{Sees};

use crate::fields::{count_in, is_asked_id, is_up_to, phase_in, session_in};
use crate::kinds::reason;
use crate::lists::{are_heads, is_batch};
use crate::message::Message;
use proto_model::{FromNode, FromServer, ReadRefusal, Refusal, ToNode, ToServer};
use record_frame::{
    is_body, is_count, is_name, is_next_place, is_place, is_transaction, split_name, u32_in, u64_in,
};
use tx_model::{MAX_BATCH, MAX_HEADS};

/// A message that needs no memory, or the numbers and the bytes of one that does.
#[derive(Drop)]
pub(crate) enum Layout<'a> {
    Whole(Message),
    /// A stage: session, batch.
    Stage(u64, &'a [u8]),
    /// An append to a node: session, batch.
    AppendBatch(u64, &'a [u8]),
    /// Records of a node: session, batch.
    Records(u64, &'a [u8]),
    /// An append to a server: the transaction.
    AppendTx(&'a [u8]),
    /// A refusal for a lock: request, name, mark.
    Locked(u64, &'a [u8], u64),
    /// From, committed mark, heads.
    Heads(u64, u64, &'a [u8]),
    /// The record's body.
    Entry(&'a [u8]),
}

pub(crate) fn fetch_in(fields: &[u8]) -> Option<Layout<'_>>
    ensures { Sees result (fetch_in fields.now) }
{
    if fields.len() != 17 {
        return None;
    }
    let session = u64_in(fields, 0);
    let from = u64_in(fields, 8);
    let max = fields[16];
    if is_place(session) && is_next_place(from) && is_up_to(MAX_BATCH, max) {
        let m = ToNode::Fetch(session, from, max);
        Some(Layout::Whole(Message::ToNode(m)))
    } else {
        None
    }
}

pub(crate) fn opened_in(fields: &[u8]) -> Option<Layout<'_>>
    ensures { Sees result (opened_in fields.now) }
{
    if fields.len() != 32 {
        return None;
    }
    let session = u64_in(fields, 0);
    let adopted = u64_in(fields, 8);
    let low = u64_in(fields, 16);
    let len = u64_in(fields, 24);
    if is_place(session) && is_count(adopted) && is_count(low) && is_count(len) {
        let m = FromNode::Opened(session, adopted, low, len);
        Some(Layout::Whole(Message::FromNode(m)))
    } else {
        None
    }
}

pub(crate) fn feed_in(fields: &[u8]) -> Option<Layout<'_>>
    ensures { Sees result (feed_in fields.now) }
{
    if fields.len() != 9 {
        return None;
    }
    let from = u64_in(fields, 0);
    let max = fields[8];
    if is_asked_id(from) && is_up_to(MAX_HEADS, max) {
        let m = ToServer::Feed(from, max);
        Some(Layout::Whole(Message::ToServer(m)))
    } else {
        None
    }
}

/// A session, and the bytes of a batch.
pub(crate) fn session_and_batch_in(fields: &[u8]) -> Option<(u64, &[u8])>
    ensures none { IfNone result (is_session_and_batch fields.now ≡ false) }
    ensures form { IfSome result
        (λ x. (is_session_and_batch fields.now ≡ true) × (is_batch x.1.now ≡ true)) }
    ensures parts { IfSome result
        (λ x. (x.0 ≡ number w64 0 fields.now) × (x.1.now ≡ drop 8 fields.now)) }
{
    if fields.len() < 8 {
        return None;
    }
    let session = u64_in(fields, 0);
    let (_, batch) = fields.split_at(8);
    if is_place(session) && is_batch(batch) {
        Some((session, batch))
    } else {
        None
    }
}

pub(crate) fn append_in(fields: &[u8]) -> Option<Layout<'_>>
    ensures { Sees result (append_in fields.now) }
{
    if is_transaction(fields) {
        Some(Layout::AppendTx(fields))
    } else {
        None
    }
}

pub(crate) fn heads_in(fields: &[u8]) -> Option<Layout<'_>>
    ensures { Sees result (heads_in fields.now) }
{
    if fields.len() < 16 {
        return None;
    }
    let from = u64_in(fields, 0);
    let committed = u64_in(fields, 8);
    let (_, heads) = fields.split_at(16);
    if is_asked_id(from) && is_count(committed) && are_heads(from, heads) {
        Some(Layout::Heads(from, committed, heads))
    } else {
        None
    }
}

/// A record behind its length, and nothing more.
pub(crate) fn entry_in(fields: &[u8]) -> Option<Layout<'_>>
    ensures { Sees result (entry_in fields.now) }
{
    if fields.len() < 4 {
        return None;
    }
    let len = u32_in(fields, 0) as usize;
    let (_, body) = fields.split_at(4);
    if body.len() == len && is_body(body) {
        Some(Layout::Entry(body))
    } else {
        None
    }
}

/// The lock that refuses a request, and its probed mark.
fn locked_in(request: u64, fields: &[u8]) -> Option<Layout<'_>>
    ensures { Sees result (locked_in request fields.now) }
{
    if !is_name(fields) {
        return None;
    }
    let (name, mark) = split_name(fields);
    if mark.len() != 8 {
        return None;
    }
    Some(Layout::Locked(request, name, u64_in(mark, 0)))
}

fn refused(request: u64, reason: Refusal) -> Option<Layout<'static>>
    ensures { result ≡ Some (Layout.Whole (refused_with request reason)) }
{
    let m = FromServer::Refused(request, reason);
    Some(Layout::Whole(Message::FromServer(m)))
}

/// Why a request is refused, by the reason's byte and what follows it.
#[tactic(auto, unfolding(crate::specs::Reading::refusal_in))]
fn refusal_in(request: u64, kind: u8, fields: &[u8]) -> Option<Layout<'_>>
    ensures { Sees result (refusal_in request kind fields.now) }
{
    match kind {
        reason::NOT_RUNNING => {
            let phase = phase_in(fields)?;
            refused(request, Refusal::NotRunning(phase))
        }
        reason::CLOSED => {
            let session = session_in(fields)?;
            refused(request, Refusal::Closed(session))
        }
        reason::MARK_AHEAD => {
            let last = count_in(fields)?;
            refused(request, Refusal::MarkAhead(last))
        }
        reason::LOCKED => locked_in(request, fields),
        reason::WINDOW_FULL if fields.is_empty() => refused(request, Refusal::WindowFull),
        reason::LOG_FULL if fields.is_empty() => refused(request, Refusal::LogFull),
        _ => None,
    }
}

pub(crate) fn refused_in(fields: &[u8]) -> Option<Layout<'_>>
    ensures { Sees result (refused_in fields.now) }
{
    if fields.len() < 9 {
        return None;
    }
    let request = u64_in(fields, 0);
    let (_, reason) = fields.split_at(9);
    refusal_in(request, fields[8], reason)
}

fn unserved(reason: ReadRefusal) -> Option<Layout<'static>>
    ensures { result ≡ Some (Layout.Whole (unserved_with reason)) }
{
    let m = FromServer::Unserved(reason);
    Some(Layout::Whole(Message::FromServer(m)))
}

/// Why nothing is shown, by the reason's byte and what follows it.
#[tactic(auto, unfolding(crate::specs::Reading::read_refusal_in))]
fn read_refusal_in(kind: u8, fields: &[u8]) -> Option<Layout<'_>>
    ensures { Sees result (read_refusal_in kind fields.now) }
{
    match kind {
        reason::NOT_RUNNING => {
            let phase = phase_in(fields)?;
            unserved(ReadRefusal::NotRunning(phase))
        }
        reason::BAD_ID if fields.is_empty() => unserved(ReadRefusal::BadId),
        reason::NOT_YET => {
            let committed = count_in(fields)?;
            unserved(ReadRefusal::NotYet(committed))
        }
        _ => None,
    }
}

pub(crate) fn unserved_in(fields: &[u8]) -> Option<Layout<'_>>
    ensures { Sees result (unserved_in fields.now) }
{
    if fields.is_empty() {
        return None;
    }
    let (_, rest) = fields.split_at(1);
    read_refusal_in(fields[0], rest)
}
