//! Frames as records.
ghost use Rattle.std.specs.Prelude.{◌≡◌, ◌≢◌, ◌↔◌, ◌<◌, ◌++◌, ℕ, List, [], true, length, Ok, IfOk, IfErr, MatchResult};
ghost use Rattle.tx_model.specs.declared.record.Record.{Record as RecordValue};
ghost use Rattle.tx_model.specs.Spelling.{SpellsRecord, SpellsRecordBody};
ghost use Rattle.tx_model.specs.Reading.{are_names, names_of, past_names, are_lists, reads_of, writes_of, after_lists, is_transaction, transaction_of, is_body, record_of, is_record_length};
ghost use Rattle.record_frame.specs.Reading.{frame_at, record_at, IsOfBytes, BeginsWith, Checks, Builds, OkOrMemory};
ghost use Rattle.tx_model.specs.Framing.{record_len, framed_record};
ghost use Rattle.record_frame.specs.Faults.{IsRecordLength, IsRecordBody, IsShort, IsBadAt, BeginsWithRecord};

use crate::fault::FrameFault;
use crate::framing::{Framed, body_in};
use crate::layout::{is_body, split_name, u64_in};
use std::alloc::{AllocError, Global};
use tx_model::{Lock, Record, Tx};

/// The names at the front as locks, and the bytes after them.
fn locks_in(alloc: Global, count: u8, bytes: &[u8]) -> Result<(Vec<Lock>, &[u8]), AllocError>
    requires { are_names [] count bytes.now ≡ true }
    ensures { IfOk result
        (λ x. (x.0.items ≡ names_of count bytes.now) × (x.1.now ≡ past_names count bytes.now)) }
{
    let mut locks = Vec::with_capacity(alloc, count as usize)?;
    let mut rest = bytes;
    for _ in 0..count {
        let (name, after) = split_name(rest);
        locks.push(Lock::of_name(alloc, name)?)?;
        rest = after;
    }
    Ok((locks, rest))
}

/// The read locks and the write locks at the front, and the bytes after them.
#[tactic(auto, using(crate::proofs::Parts::are_lists_tell), unfolding(tx_model::specs::Reading::after_lists))]
pub fn locks_of(alloc: Global, bytes: &[u8]) -> Result<(Vec<Lock>, Vec<Lock>, &[u8]), AllocError>
    requires { are_lists bytes.now ≡ true }
    ensures reads { IfOk result (λ x. x.0.items ≡ reads_of bytes.now) }
    ensures writes { IfOk result (λ x. x.1.items ≡ writes_of bytes.now) }
    ensures rest { IfOk result (λ x. x.2.now ≡ after_lists bytes.now) }
{
    let (_, names) = bytes.split_at(2);
    let (reads, rest) = locks_in(alloc, bytes[0], names)?;
    let (writes, rest) = locks_in(alloc, bytes[1], rest)?;
    Ok((reads, writes, rest))
}

/// The transaction that the bytes spell.
#[tactic(auto, using(crate::proofs::Parts::is_transaction_tells), unfolding(tx_model::specs::Reading::transaction_of))]
pub fn transaction_of(alloc: Global, bytes: &[u8]) -> Result<Tx, AllocError>
    requires { is_transaction bytes.now ≡ true }
    ensures { IfOk result (λ tx. tx ≡ transaction_of bytes.now) }
{
    let (_, lists) = bytes.split_at(24);
    let (reads, writes, rest) = locks_of(alloc, lists)?;
    let (_, payload) = rest.split_at(4);
    let payload = Vec::from_slice(alloc, payload)?;
    let client = u64_in(bytes, 0);
    let request = u64_in(bytes, 8);
    let mark = u64_in(bytes, 16);
    let tx = Tx::of_lists(alloc, client, request, mark, reads, writes, payload)?;
    Ok(tx)
}

#[tactic(auto, using(crate::proofs::Parts::is_body_tells), unfolding(tx_model::specs::Reading::record_of))]
fn build(alloc: Global, body: &[u8]) -> Result<Record, AllocError>
    requires { is_body body.now ≡ true }
    ensures { IfOk result (λ r. r ≡ record_of body.now) }
{
    let (_, rest) = body.split_at(17);
    let tx = transaction_of(alloc, rest)?;
    Ok(Record {
        id: u64_in(body, 1),
        session: u64_in(body, 9),
        tx,
    })
}

/// The record whose body these bytes are.
pub fn record_of(alloc: Global, body: &[u8]) -> Result<Record, AllocError>
    requires { is_body body.now ≡ true }
    ensures value { IfOk result (λ r. r ≡ record_of body.now) }
    ensures spelled { IfOk result (SpellsRecordBody body.now) }
{
    build(alloc, body)
}

/// The body of the record at the front.
#[tactic(auto, unfolding(crate::specs::Reading::value_at))]
fn record_body_in(bytes: &[u8]) -> Result<&[u8], FrameFault>
    ensures at { MatchResult result
        (λ body. (frame_at is_record_length bytes.now ≡ Ok body.now) × (is_body body.now ≡ true))
        (λ fault. record_at bytes.now ≡ Err fault) }
    ensures fault { IfErr result IsOfBytes }
{
    match body_in(bytes, Framed::Record) {
        Ok(body) => {
            if is_body(body) {
                Ok(body)
            } else {
                Err(FrameFault::Bad(4))
            }
        }
        Err(fault) => Err(fault),
    }
}

#[tactic(auto, unfolding(crate::specs::Reading::value_at))]
fn check(bytes: &[u8]) -> Result<usize, FrameFault>
    ensures { Checks result (record_at bytes.now) }
{
    match record_body_in(bytes) {
        Ok(body) => Ok(12 + body.len()),
        Err(fault) => Err(fault),
    }
}

#[tactic(auto, unfolding(crate::specs::Reading::value_at))]
fn decode(alloc: Global, bytes: &[u8]) -> Result<(Record, usize), FrameFault>
    ensures { Builds result (record_at bytes.now) }
{
    match record_body_in(bytes) {
        Ok(body) => match build(alloc, body) {
            Ok(entry) => Ok((entry, 12 + body.len())),
            Err(_) => Err(FrameFault::Memory),
        },
        Err(fault) => Err(fault),
    }
}

/// The length of the record's frame at the front. It takes no memory, and refuses exactly as `decode_record` does, but
/// never by `Memory`.
pub fn check_record(bytes: &[u8]) -> Result<usize, FrameFault>
    ensures exact { Checks result (record_at bytes.now) }
    ensures found { IfOk result
        (λ len. (r : RecordValue) × BeginsWith SpellsRecord bytes.now r len) }
    ensures only { (r : RecordValue) (spelled rest : List ℕ) →
        SpellsRecord spelled r → bytes.now ≡ spelled ++ rest → result ≡ Ok (length spelled) }

    // As a framing says it: a length, or none, and what is bad stays so whatever follows.
    ensures len { MatchResult result
        (λ len. (len ≡ record_len bytes.now) × (0 < len)) (λ _. record_len bytes.now ≡ 0) }
    ensures stays { IfErr result
        (λ fault. fault ≢ FrameFault.Short → (rest : List ℕ) → record_len (bytes.now ++ rest) ≡ 0) }

    // The refusals, each by its cause.
    ensures short { (result ≡ Err FrameFault.Short) ↔ IsShort IsRecordLength bytes.now }
    ensures bad { (at : ℕ) → (result ≡ Err (FrameFault.Bad at)) ↔
        IsBadAt IsRecordLength IsRecordBody bytes.now at }
    ensures memory { result ≢ Err FrameFault.Memory }
{
    check(bytes)
}

/// The id of the record whose whole and right frame stands at the front. It reads the id alone, and checks nothing.
pub fn framed_id(bytes: &[u8]) -> u64
    requires { 0 < record_len bytes.now }
    ensures { result ≡ (framed_record bytes.now).id }
{
    u64_in(bytes, 5)
}

/// The record of the frame at the front, and the frame's length. What follows the frame doesn't matter. The memory that
/// it takes is bounded by a fixed multiple of the frame's length.
pub fn decode_record(alloc: Global, bytes: &[u8]) -> Result<(Record, usize), FrameFault>
    ensures exact { Builds result (record_at bytes.now) }
    ensures found { IfOk result (λ x. BeginsWith SpellsRecord bytes.now x.0 x.1) }
    ensures framed { MatchResult result
        (λ x. (x.0 ≡ framed_record bytes.now) × (x.1 ≡ record_len bytes.now))
        (λ fault. fault ≢ FrameFault.Memory → record_len bytes.now ≡ 0) }
    ensures only { (r : RecordValue) (spelled rest : List ℕ) →
        SpellsRecord spelled r → bytes.now ≡ spelled ++ rest →
        OkOrMemory result (r, length spelled) }

    // The refusals, each by its cause.
    ensures short { (result ≡ Err FrameFault.Short) ↔ IsShort IsRecordLength bytes.now }
    ensures bad { (at : ℕ) → (result ≡ Err (FrameFault.Bad at)) ↔
        IsBadAt IsRecordLength IsRecordBody bytes.now at }
    ensures memory { result ≡ Err FrameFault.Memory → BeginsWithRecord bytes.now }
{
    decode(alloc, bytes)
}
