//! Frames of meta entries. Nothing here takes memory.
ghost use Rattle.std.specs.Prelude.{◌≡◌, ◌≢◌, ◌↔◌, ◌+◌, ◌≤◌, ◌++◌, ◌∷◌, ◌<◌, ℕ, List, Ok, length, take, drop, IfOk, IfErr, MatchResult};
ghost use Rattle.std.specs.Int.{w64, to_be_bytes};
ghost use Rattle.tx_model.specs.declared.meta.Meta.{Meta as MetaValue};
ghost use Rattle.tx_model.specs.Spelling.{meta_body, meta_frame, IsMeta, SpellsMeta};
ghost use Rattle.tx_model.specs.Reading.{one_number, roll_in, adopt_in, meta_in};
ghost use Rattle.record_frame.specs.Reading.{meta_at, BeginsWith};
ghost use Rattle.tx_model.specs.Framing.{meta_len, framed_meta};
ghost use Rattle.record_frame.specs.Faults.{IsMetaLength, IsMetaBody, IsShort, IsBadAt};

use crate::fault::FrameFault;
use crate::framing::{Framed, body_in, check_of};
use crate::layout::{u32_in, u64_in};
use crate::ranges::{is_count, is_next_place, is_place};
use tx_model::Meta;

/// Bytes of a meta entry's frame at most.
pub const META_FRAME: usize = 41;

/// The entry of this kind with one number.
fn one_number(kind: u8, n: u64) -> Option<Meta>
    ensures { result ≡ one_number kind n }
{
    match kind {
        1 if is_place(n) => Some(Meta::Promise(n)),
        3 if is_count(n) => Some(Meta::Low(n)),
        5 if is_count(n) => Some(Meta::Value(n)),
        _ => None,
    }
}

fn roll_in(body: &[u8]) -> Option<Meta>
    requires { length body.now ≡ 13 }
    ensures { result ≡ roll_in body.now }
{
    let file = u32_in(body, 1);
    let first = u64_in(body, 5);
    if body[0] == 4 && is_next_place(first) {
        Some(Meta::Roll(file, first))
    } else {
        None
    }
}

fn adopt_in(body: &[u8]) -> Option<Meta>
    requires { length body.now ≡ 29 }
    ensures { result ≡ adopt_in body.now }
{
    let session = u64_in(body, 1);
    let first = u64_in(body, 9);
    let file = u32_in(body, 17);
    let count = u64_in(body, 21);
    if body[0] == 2 && is_place(session) && is_next_place(first) && is_count(count) {
        Some(Meta::Adopt(session, first, file, count))
    } else {
        None
    }
}

/// The entry whose body the bytes are.
#[tactic(auto, unfolding(tx_model::specs::Reading::meta_in))]
fn entry_in(body: &[u8]) -> Option<Meta>
    ensures { result ≡ meta_in body.now }
{
    match body.len() {
        9 => one_number(body[0], u64_in(body, 1)),
        13 => roll_in(body),
        29 => adopt_in(body),
        _ => None,
    }
}

#[tactic(auto, unfolding(crate::specs::Reading::value_at))]
fn decode(bytes: &[u8]) -> Result<(Meta, usize), FrameFault>
    ensures { result ≡ meta_at bytes.now }
{
    match body_in(bytes, Framed::Meta) {
        Ok(body) => match entry_in(body) {
            Some(entry) => Ok((entry, 12 + body.len())),
            None => Err(FrameFault::Bad(4)),
        },
        Err(fault) => Err(fault),
    }
}

/// The meta entry of the frame at the front, and the frame's length. What follows the frame doesn't matter.
pub fn decode_meta(bytes: &[u8]) -> Result<(Meta, usize), FrameFault>
    ensures exact { result ≡ meta_at bytes.now }
    ensures found { IfOk result (λ x. BeginsWith SpellsMeta bytes.now x.0 x.1) }
    ensures only { (m : MetaValue) (spelled rest : List ℕ) →
        SpellsMeta spelled m → bytes.now ≡ spelled ++ rest → result ≡ Ok (m, length spelled) }

    // As a framing says it: a length, or none, and what is bad stays so whatever follows.
    ensures framed { MatchResult result
        (λ x. (x.0 ≡ framed_meta bytes.now) × (x.1 ≡ meta_len bytes.now) × (0 < x.1))
        (λ _. meta_len bytes.now ≡ 0) }
    ensures stays { IfErr result
        (λ fault. fault ≢ FrameFault.Short → (rest : List ℕ) → meta_len (bytes.now ++ rest) ≡ 0) }

    // The refusals, each by its cause.
    ensures short { (result ≡ Err FrameFault.Short) ↔ IsShort IsMetaLength bytes.now }
    ensures bad { (at : ℕ) → (result ≡ Err (FrameFault.Bad at)) ↔
        IsBadAt IsMetaLength IsMetaBody bytes.now at }
    ensures memory { result ≢ Err FrameFault.Memory }
{
    decode(bytes)
}

/// Puts bytes at a place, and answers the place after them.
fn put_at(into: &mut [u8], at: usize, bytes: &[u8]) -> usize
    requires { at + length bytes.now ≤ length into.old }
    ensures end { result ≡ at + length bytes.now }
    ensures put { take result into.new ≡ take at into.old ++ bytes.now }
    ensures rest { (n : ℕ) → result ≤ n → drop n into.new ≡ drop n into.old }
{
    let end = at + bytes.len();
    into[at..end].copy_from_slice(bytes);
    end
}

fn body_len(meta: Meta) -> u32
    ensures { result ≡ length (meta_body meta) }
{
    match meta {
        Meta::Promise(_) | Meta::Low(_) | Meta::Value(_) => 9,
        Meta::Roll(_, _) => 13,
        Meta::Adopt(_, _, _, _) => 29,
    }
}

/// The length of an entry's one frame.
pub fn meta_frame_len(meta: &Meta) -> usize
    ensures len { result ≡ length (meta_frame meta.now) }
    ensures short { result ≤ META_FRAME }
{
    12 + body_len(*meta) as usize
}

/// Puts an entry's kind and its first number behind the length.
fn put_kind(into: &mut [u8], kind: u8, n: u64) -> usize
    requires { 13 ≤ length into.old }
    ensures end { result ≡ 13 }
    ensures put { take result into.new ≡ take 4 into.old ++ (kind ∷ to_be_bytes w64 n) }
    ensures rest { (n : ℕ) → result ≤ n → drop n into.new ≡ drop n into.old }
{
    let at = put_at(into, 4, &[kind]);
    put_at(into, at, &n.to_be_bytes())
}

/// Puts the body behind the length, and answers the place after it.
fn put_body(into: &mut [u8], meta: Meta) -> usize
    requires { META_FRAME ≤ length into.old }
    ensures end { result ≡ 4 + length (meta_body meta) }
    ensures short { result ≤ 33 }
    ensures put { take result into.new ≡ take 4 into.old ++ meta_body meta }
    ensures rest { (n : ℕ) → result ≤ n → drop n into.new ≡ drop n into.old }
{
    match meta {
        Meta::Promise(session) => put_kind(into, 1, session),
        Meta::Low(low) => put_kind(into, 3, low),
        Meta::Value(number) => put_kind(into, 5, number),
        Meta::Adopt(session, first, file, count) => {
            let at = put_kind(into, 2, session);
            let at = put_at(into, at, &first.to_be_bytes());
            let at = put_at(into, at, &file.to_be_bytes());
            put_at(into, at, &count.to_be_bytes())
        }
        Meta::Roll(file, first) => {
            let at = put_at(into, 4, &[4]);
            let at = put_at(into, at, &file.to_be_bytes());
            put_at(into, at, &first.to_be_bytes())
        }
    }
}

/// Puts the one frame of an entry at the front, and answers its length. The bytes behind it stay as they are.
pub fn encode_meta(meta: &Meta, into: &mut [u8; META_FRAME]) -> usize
    requires { IsMeta meta.now }
    ensures len { result ≡ length (meta_frame meta.now) }
    ensures spelled { take result into.new ≡ meta_frame meta.now }
    ensures rest { drop result into.new ≡ drop result into.old }
{
    put_at(into, 0, &body_len(*meta).to_be_bytes());
    let end = put_body(into, *meta);
    let (front, _) = into.split_at(end);
    let check = check_of(front);
    put_at(into, end, &check)
}
