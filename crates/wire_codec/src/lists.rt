//! Whether bytes are a batch or heads, found without memory.
ghost use Rattle.std.specs.Prelude.{◌≡◌, ◌≤◌, ◌<◌, ◌^◌, true, false, IfSome, IfNone};
ghost use Rattle.wire_codec.specs.Runs.{are_items, past_items};
ghost use Rattle.wire_codec.specs.Reading.{is_entry, after_entry, is_batch, is_head, after_head, are_heads};

use record_frame::{after_lists, is_body, is_place, u32_in, u64_in};
use tx_model::{MAX_BATCH, MAX_HEADS};

/// The bytes after a record with this id behind its length.
#[tactic(auto, using(record_frame::proofs::Parts::is_body_tells), unfolding(crate::specs::Reading::is_entry))]
fn after_entry(id: u64, bytes: &[u8]) -> Option<&[u8]>
    ensures none { IfNone result (is_entry id bytes.now ≡ false) }
    ensures some { IfSome result
        (λ rest. (is_entry id bytes.now ≡ true) × (rest.now ≡ after_entry bytes.now)) }
{
    if bytes.len() < 4 {
        return None;
    }
    let len = u32_in(bytes, 0) as usize;
    let (_, rest) = bytes.split_at(4);
    if rest.len() < len {
        return None;
    }
    let (body, rest) = rest.split_at(len);
    if !is_body(body) {
        return None;
    }
    if u64_in(body, 1) != id {
        return None;
    }
    Some(rest)
}

/// The bytes after so many records, whose ids go on from the first.
fn after_entries(first: u64, count: u8, bytes: &[u8]) -> Option<&[u8]>
    requires { first < 2 ^ 48 }
    ensures none { IfNone result (are_items is_entry after_entry first count bytes.now ≡ false) }
    ensures some { IfSome result
        (λ rest. (are_items is_entry after_entry first count bytes.now ≡ true)
        × (rest.now ≡ past_items after_entry count bytes.now)) }
{
    let mut rest = bytes;
    let mut id = first;
    for _ in 0..count {
        let Some(after) = after_entry(id, rest) else {
            return None;
        };
        rest = after;
        id += 1;
    }
    Some(rest)
}

/// Whether the bytes are a batch, and nothing more.
#[tactic(auto, unfolding(crate::specs::Reading::is_batch))]
pub(crate) fn is_batch(bytes: &[u8]) -> bool
    ensures { result ≡ is_batch bytes.now }
{
    if bytes.len() < 14 || bytes[0] < 1 || MAX_BATCH < bytes[0] as usize {
        return false;
    }
    let first = u64_in(bytes, 6);
    if !is_place(first) {
        return false;
    }
    let (_, records) = bytes.split_at(1);
    match after_entries(first, bytes[0], records) {
        Some(rest) => rest.is_empty(),
        None => false,
    }
}

/// The bytes after a head with this id.
#[tactic(auto, unfolding(crate::specs::Reading::is_head))]
fn after_head(id: u64, bytes: &[u8]) -> Option<&[u8]>
    ensures none { IfNone result (is_head id bytes.now ≡ false) }
    ensures some { IfSome result
        (λ rest. (is_head id bytes.now ≡ true) × (rest.now ≡ after_head bytes.now)) }
{
    if bytes.len() < 24 {
        return None;
    }
    let found = u64_in(bytes, 0);
    let session = u64_in(bytes, 8);
    if found != id || !is_place(found) || !is_place(session) {
        return None;
    }
    let (_, lists) = bytes.split_at(24);
    after_lists(lists)
}

/// The bytes after so many heads, whose ids go on from the first.
fn after_some_heads(first: u64, count: u8, bytes: &[u8]) -> Option<&[u8]>
    requires { first ≤ 2 ^ 48 }
    ensures none { IfNone result (are_items is_head after_head first count bytes.now ≡ false) }
    ensures some { IfSome result
        (λ rest. (are_items is_head after_head first count bytes.now ≡ true)
        × (rest.now ≡ past_items after_head count bytes.now)) }
{
    let mut rest = bytes;
    let mut id = first;
    for _ in 0..count {
        let Some(after) = after_head(id, rest) else {
            return None;
        };
        rest = after;
        id += 1;
    }
    Some(rest)
}

/// Whether the bytes are heads whose ids go on from one, and nothing more.
#[tactic(auto, unfolding(crate::specs::Reading::are_heads))]
pub(crate) fn are_heads(from: u64, bytes: &[u8]) -> bool
    requires { from ≤ 2 ^ 48 }
    ensures { result ≡ are_heads from bytes.now }
{
    if bytes.is_empty() || MAX_HEADS < bytes[0] as usize {
        return false;
    }
    let (_, heads) = bytes.split_at(1);
    match after_some_heads(from, bytes[0], heads) {
        Some(rest) => rest.is_empty(),
        None => false,
    }
}
