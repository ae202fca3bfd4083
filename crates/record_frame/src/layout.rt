//! Whether bytes are the body of a record, found without memory.
ghost use Rattle.std.specs.Prelude.{◌≡◌, ◌↔◌, ◌+◌, ◌≤◌, [], true, false, length, IsTrue, IfSome, IfNone};
ghost use Rattle.std.specs.Int.{w32, w64};
ghost use Rattle.tx_model.specs.Transactions.{are_apart, is_before};
ghost use Rattle.tx_model.specs.Reading.{number, is_name_at, name_at, after_name, are_names, names_of, past_names, are_lists, after_lists, is_payload, is_transaction, is_body};
ghost use Rattle.record_frame.specs.Faults.{IsRecordBody};

use crate::ranges::is_place;
use std::cmp::Ordering;
use tx_model::{MAX_LOCKS, MAX_NAME, MAX_PAYLOAD};

/// The number in four bytes at a place.
pub fn u32_in(bytes: &[u8], at: usize) -> u32
    requires { at + 4 ≤ length bytes.now }
    ensures { result ≡ number w32 at bytes.now }
{
    let (_, rest) = bytes.split_at(at);
    let (four, _) = rest.split_at(4);
    u32::from_be_bytes([four[0], four[1], four[2], four[3]])
}

/// The number in eight bytes at a place.
pub fn u64_in(bytes: &[u8], at: usize) -> u64
    requires { at + 8 ≤ length bytes.now }
    ensures { result ≡ number w64 at bytes.now }
{
    let (_, rest) = bytes.split_at(at);
    let (b, _) = rest.split_at(8);
    u64::from_be_bytes([b[0], b[1], b[2], b[3], b[4], b[5], b[6], b[7]])
}

/// Whether a name behind its length stands at the front, and whatever follows.
pub fn is_name(bytes: &[u8]) -> bool
    ensures { result ≡ is_name_at bytes.now }
{
    if bytes.is_empty() {
        return false;
    }
    let len = bytes[0] as usize;
    1 <= len && len <= MAX_NAME && len < bytes.len()
}

/// The name at the front, and the bytes after it.
pub fn split_name(bytes: &[u8]) -> (&[u8], &[u8])
    requires { is_name_at bytes.now ≡ true }
    ensures name { result.0.now ≡ name_at bytes.now }
    ensures after { result.1.now ≡ after_name bytes.now }
{
    let (first, after) = bytes.split_at(1);
    after.split_at(first[0] as usize)
}

/// Whether a name is before another in byte order.
fn is_before(name: &[u8], other: &[u8]) -> bool
    ensures { result ≡ is_before name.now other.now }
{
    name.cmp(other).is_lt()
}

/// The bytes after names that rise.
fn after_names(count: u8, bytes: &[u8]) -> Option<&[u8]>
    ensures none { IfNone result (are_names [] count bytes.now ≡ false) }
    ensures some { IfSome result
        (λ rest. (are_names [] count bytes.now ≡ true) × (rest.now ≡ past_names count bytes.now)) }
{
    let mut last: &[u8] = &[];
    let mut rest = bytes;
    for _ in 0..count {
        if !is_name(rest) {
            return None;
        }
        let (name, after) = split_name(rest);
        if !is_before(last, name) {
            return None;
        }
        last = name;
        rest = after;
    }
    Some(rest)
}

/// Whether no name stands in both lists.
fn are_apart(mut reads: u8, mut read_bytes: &[u8], mut writes: u8, mut write_bytes: &[u8]) -> bool
    requires reads { are_names [] reads read_bytes.now ≡ true }
    requires writes { are_names [] writes write_bytes.now ≡ true }
    ensures { result ≡ are_apart (names_of reads read_bytes.now) (names_of writes write_bytes.now) }
{
    while reads > 0 && writes > 0 {
        let (read, later_reads) = split_name(read_bytes);
        let (write, later_writes) = split_name(write_bytes);
        match read.cmp(write) {
            Ordering::Less => {
                reads -= 1;
                read_bytes = later_reads;
            }
            Ordering::Greater => {
                writes -= 1;
                write_bytes = later_writes;
            }
            Ordering::Equal => return false,
        }
    }
    true
}

/// The bytes after both lists of locks at the front, where they are in form.
#[tactic(auto, unfolding(tx_model::specs::Reading::are_lists, tx_model::specs::Reading::after_lists))]
pub fn after_lists(bytes: &[u8]) -> Option<&[u8]>
    ensures none { IfNone result (are_lists bytes.now ≡ false) }
    ensures some { IfSome result
        (λ rest. (are_lists bytes.now ≡ true) × (rest.now ≡ after_lists bytes.now)) }
{
    if bytes.len() < 2 {
        return None;
    }
    let (counts, names) = bytes.split_at(2);
    let reads = counts[0];
    let writes = counts[1];
    if reads as usize + writes as usize > MAX_LOCKS {
        return None;
    }
    let write_names = after_names(reads, names)?;
    let rest = after_names(writes, write_names)?;
    if !are_apart(reads, names, writes, write_names) {
        return None;
    }
    Some(rest)
}

/// Whether the bytes are a payload behind its length, and nothing more.
fn is_payload(bytes: &[u8]) -> bool
    ensures { result ≡ is_payload bytes.now }
{
    if bytes.len() < 4 {
        return false;
    }
    let len = u32_in(bytes, 0) as usize;
    len <= MAX_PAYLOAD && bytes.len() == 4 + len
}

/// Whether the bytes are those of a transaction, and nothing more.
#[tactic(auto, unfolding(tx_model::specs::Reading::is_transaction))]
pub fn is_transaction(bytes: &[u8]) -> bool
    ensures { result ≡ is_transaction bytes.now }
{
    if bytes.len() < 24 {
        return false;
    }
    let (_, lists) = bytes.split_at(24);
    match after_lists(lists) {
        Some(rest) => is_payload(rest),
        None => false,
    }
}

#[tactic(auto, unfolding(tx_model::specs::Reading::is_body))]
fn has_form(bytes: &[u8]) -> bool
    ensures { result ≡ is_body bytes.now }
{
    if bytes.len() < 17 {
        return false;
    }
    let (_, rest) = bytes.split_at(17);
    bytes[0] == 1
        && is_place(u64_in(bytes, 1))
        && is_place(u64_in(bytes, 9))
        && is_transaction(rest)
}

/// Whether the bytes are the body of a record, and nothing more.
pub fn is_body(bytes: &[u8]) -> bool
    ensures value { result ≡ is_body bytes.now }
    ensures spelled { IsTrue result ↔ IsRecordBody bytes.now }
{
    has_form(bytes)
}
