//! Messages from the bytes of their layouts, which are known to be in form.
ghost use Rattle.std.specs.Prelude.{◌≡◌, ◌+◌, ◌≤◌, ℕ, true, length, drop, IfOk};
ghost use Rattle.std.specs.Int.{w32};
ghost use Rattle.tx_model.specs.Reading.{number, is_body, are_lists};
ghost use Rattle.wire_codec.specs.Runs.{are_items, items_of};
ghost use Rattle.wire_codec.specs.Reading.{is_entry, entry_body, entry_of, after_entry, is_batch, batch_of, is_head, head_of, after_head, are_heads, heads_of};
ghost use Rattle.wire_codec.specs.Layouts.{value_of, is_good};

use crate::layout::Layout;
use crate::message::Message;
use proto_model::{FromNode, FromServer, Refusal, ToNode, ToServer};
use record_frame::{locks_of, record_of, transaction_of, u32_in, u64_in};
use std::alloc::{AllocError, Global};
use tx_model::{Batch, Head, Heads, Lock, Locks, Record};

/// The record behind its length at the front, and the bytes after it.
fn entry_at(alloc: Global, bytes: &[u8]) -> Result<(Record, &[u8]), AllocError>
    requires long { 4 + number w32 0 bytes.now ≤ length bytes.now }
    requires body { is_body (entry_body bytes.now) ≡ true }
    ensures { IfOk result
        (λ x. (x.0 ≡ entry_of bytes.now) × (x.1.now ≡ after_entry bytes.now)) }
{
    let len = u32_in(bytes, 0) as usize;
    let (_, rest) = bytes.split_at(4);
    let (body, rest) = rest.split_at(len);
    let entry = record_of(alloc, body)?;
    Ok((entry, rest))
}

fn entries_of(alloc: Global, count: u8, bytes: &[u8]) -> Result<Vec<Record>, AllocError>
    requires { (first : ℕ) × (are_items is_entry after_entry first count bytes.now ≡ true) }
    ensures { IfOk result
        (λ records. records.items ≡ items_of entry_of after_entry count bytes.now) }
{
    let mut records = Vec::with_capacity(alloc, count as usize)?;
    let mut rest = bytes;
    for _ in 0..count {
        let (entry, after) = entry_at(alloc, rest)?;
        records.push(entry)?;
        rest = after;
    }
    Ok(records)
}

#[tactic(auto, using(crate::proofs::Formats::is_batch_tells), unfolding(crate::specs::Reading::batch_of))]
fn batch_of(alloc: Global, bytes: &[u8]) -> Result<Batch, AllocError>
    requires { is_batch bytes.now ≡ true }
    ensures { IfOk result (λ batch. batch ≡ batch_of bytes.now) }
{
    let (_, records) = bytes.split_at(1);
    let records = entries_of(alloc, bytes[0], records)?;
    Ok(Batch::of_records(records))
}

/// The head at the front, and the bytes after it.
#[tactic(auto, unfolding(crate::specs::Reading::head_of))]
fn head_at(alloc: Global, bytes: &[u8]) -> Result<(Head, &[u8]), AllocError>
    requires long { 24 ≤ length bytes.now }
    requires lists { are_lists (drop 24 bytes.now) ≡ true }
    ensures { IfOk result
        (λ x. (x.0 ≡ head_of bytes.now) × (x.1.now ≡ after_head bytes.now)) }
{
    let (_, lists) = bytes.split_at(24);
    let (reads, writes, rest) = locks_of(alloc, lists)?;
    let head = Head {
        id: u64_in(bytes, 0),
        session: u64_in(bytes, 8),
        mark: u64_in(bytes, 16),
        reads: Locks::new(reads),
        writes: Locks::new(writes),
    };
    Ok((head, rest))
}

fn some_heads_of(alloc: Global, count: u8, bytes: &[u8]) -> Result<Vec<Head>, AllocError>
    requires { (first : ℕ) × (are_items is_head after_head first count bytes.now ≡ true) }
    ensures { IfOk result
        (λ heads. heads.items ≡ items_of head_of after_head count bytes.now) }
{
    let mut heads = Vec::with_capacity(alloc, count as usize)?;
    let mut rest = bytes;
    for _ in 0..count {
        let (head, after) = head_at(alloc, rest)?;
        heads.push(head)?;
        rest = after;
    }
    Ok(heads)
}

#[tactic(auto, unfolding(crate::specs::Reading::heads_of))]
fn heads_of(alloc: Global, from: u64, bytes: &[u8]) -> Result<Heads, AllocError>
    requires { are_heads from bytes.now ≡ true }
    ensures { IfOk result (λ heads. heads ≡ heads_of bytes.now) }
{
    let (_, heads) = bytes.split_at(1);
    let heads = some_heads_of(alloc, bytes[0], heads)?;
    Ok(Heads::new(heads))
}

/// The message of a layout.
pub(crate) fn build(alloc: Global, layout: Layout<'_>) -> Result<Message, AllocError>
    requires { is_good layout ≡ true }
    ensures { IfOk result (λ m. m ≡ value_of layout.entry) }
{
    match layout {
        Layout::Whole(m) => Ok(m),
        Layout::Stage(session, batch) => {
            let batch = batch_of(alloc, batch)?;
            Ok(Message::ToNode(ToNode::Stage(session, batch)))
        }
        Layout::AppendBatch(session, batch) => {
            let batch = batch_of(alloc, batch)?;
            Ok(Message::ToNode(ToNode::Append(session, batch)))
        }
        Layout::Records(session, batch) => {
            let batch = batch_of(alloc, batch)?;
            Ok(Message::FromNode(FromNode::Records(session, batch)))
        }
        Layout::AppendTx(tx) => {
            let tx = transaction_of(alloc, tx)?;
            Ok(Message::ToServer(ToServer::Append(tx)))
        }
        Layout::Locked(request, name, mark) => {
            let lock = Lock::of_name(alloc, name)?;
            let reason = Refusal::Locked(lock, mark);
            Ok(Message::FromServer(FromServer::Refused(request, reason)))
        }
        Layout::Heads(from, committed, heads) => {
            let heads = heads_of(alloc, from, heads)?;
            Ok(Message::FromServer(FromServer::Heads(from, committed, heads)))
        }
        Layout::Entry(body) => {
            let entry = record_of(alloc, body)?;
            Ok(Message::FromServer(FromServer::Entry(entry)))
        }
    }
}
