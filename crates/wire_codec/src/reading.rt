//! Frames as messages.
ghost use Rattle.std.specs.Prelude.{◌≡◌, ◌≢◌, ◌↔◌, ◌++◌, ℕ, List, true, length, Ok, IfOk, IfErr, MatchResult};
ghost use Rattle.record_frame.specs.Reading.{IsOfBytes, Checks, Builds, BeginsWith, OkOrMemory, Gives};
ghost use Rattle.wire_codec.specs.declared.message.Message.{Message as MessageValue};
ghost use Rattle.wire_codec.specs.Spelling.{SpellsMessage, IsValidMessage};
ghost use Rattle.wire_codec.specs.Reading.{frame_at, message_at};
ghost use Rattle.wire_codec.specs.Layouts.{value_of, is_good};
ghost use Rattle.wire_codec.specs.Faults.{IsShort, IsBadAt, BeginsWithMessage};

use crate::building::build;
use crate::families::layout_of;
use crate::layout::Layout;
use crate::message::Message;
use record_frame::{FrameFault, u32_in};
use std::alloc::Global;

/// Bytes of a body at most.
const LONGEST_BODY: usize = 600000;

/// Bytes of a frame at most.
pub const MAX_FRAME: usize = 4 + LONGEST_BODY;

/// The body of the whole frame at the front.
#[tactic(auto, unfolding(crate::specs::Reading::frame_at))]
fn body_in(bytes: &[u8]) -> Result<&[u8], FrameFault>
    ensures at { Gives (λ body. body.now) result (frame_at bytes.now) }
    ensures fault { IfErr result IsOfBytes }
{
    if bytes.len() < 4 {
        return Err(FrameFault::Short);
    }
    let len = u32_in(bytes, 0) as usize;
    if len < 2 || LONGEST_BODY < len {
        return Err(FrameFault::Bad(0));
    }
    if bytes.len() < 4 + len {
        return Err(FrameFault::Short);
    }
    let (_, behind) = bytes.split_at(4);
    let (body, _) = behind.split_at(len);
    Ok(body)
}

/// The layout of the message in the frame at the front, and the frame's length.
#[tactic(auto, unfolding(crate::specs::Reading::message_at))]
fn layout_at(bytes: &[u8]) -> Result<(Layout<'_>, usize), FrameFault>
    ensures at { MatchResult result
        (λ x. (message_at bytes.now ≡ Ok (value_of x.0, x.1)) × (is_good x.0 ≡ true))
        (λ fault. message_at bytes.now ≡ Err fault) }
    ensures fault { IfErr result IsOfBytes }
{
    match body_in(bytes) {
        Ok(body) => match layout_of(body) {
            Some(layout) => Ok((layout, 4 + body.len())),
            None => Err(FrameFault::Bad(4)),
        },
        Err(fault) => Err(fault),
    }
}

fn check_at(bytes: &[u8]) -> Result<usize, FrameFault>
    ensures { Checks result (message_at bytes.now) }
{
    match layout_at(bytes) {
        Ok((_, len)) => Ok(len),
        Err(fault) => Err(fault),
    }
}

fn decode_at(alloc: Global, bytes: &[u8]) -> Result<(Message, usize), FrameFault>
    ensures { Builds result (message_at bytes.now) }
{
    match layout_at(bytes) {
        Ok((layout, len)) => match build(alloc, layout) {
            Ok(message) => Ok((message, len)),
            Err(_) => Err(FrameFault::Memory),
        },
        Err(fault) => Err(fault),
    }
}

/// The length of the message's frame at the front. It takes no memory, and refuses exactly as `decode` does, but never
/// by `Memory`.
pub fn check(bytes: &[u8]) -> Result<usize, FrameFault>
    ensures exact { Checks result (message_at bytes.now) }
    ensures found { IfOk result
        (λ len. (m : MessageValue) × BeginsWith SpellsMessage bytes.now m len) }
    ensures only { (m : MessageValue) (spelled rest : List ℕ) →
        SpellsMessage spelled m → bytes.now ≡ spelled ++ rest → result ≡ Ok (length spelled) }

    // The refusals, each by its cause.
    ensures short { (result ≡ Err FrameFault.Short) ↔ IsShort bytes.now }
    ensures bad { (at : ℕ) → (result ≡ Err (FrameFault.Bad at)) ↔ IsBadAt bytes.now at }
    ensures memory { result ≢ Err FrameFault.Memory }
{
    check_at(bytes)
}

/// The message of the frame at the front, and the frame's length. What follows the frame doesn't matter. The memory that
/// it takes is bounded by a fixed multiple of the frame's length.
pub fn decode(alloc: Global, bytes: &[u8]) -> Result<(Message, usize), FrameFault>
    ensures exact { Builds result (message_at bytes.now) }
    ensures found { IfOk result (λ x. BeginsWith SpellsMessage bytes.now x.0 x.1) }
    ensures valid { IfOk result (λ x. IsValidMessage x.0) }
    ensures only { (m : MessageValue) (spelled rest : List ℕ) →
        SpellsMessage spelled m → bytes.now ≡ spelled ++ rest →
        OkOrMemory result (m, length spelled) }

    // The refusals, each by its cause.
    ensures short { (result ≡ Err FrameFault.Short) ↔ IsShort bytes.now }
    ensures bad { (at : ℕ) → (result ≡ Err (FrameFault.Bad at)) ↔ IsBadAt bytes.now at }
    ensures memory { result ≡ Err FrameFault.Memory → BeginsWithMessage bytes.now }
{
    decode_at(alloc, bytes)
}
