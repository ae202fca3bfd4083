//! Bodies in frames: their length in front, their check behind.
ghost use Rattle.std.specs.Prelude.{◌≡◌, IfErr};
ghost use Rattle.tx_model.specs.Spelling.{check_of};
ghost use Rattle.record_frame.specs.Reading.{Gives, fits, frame_at, IsOfBytes};

use crate::fault::FrameFault;
use crate::layout::u32_in;
use sha2::{Digest, Sha256};

/// Bytes of a record's body at least: without locks and payload.
const SHORTEST_RECORD: usize = 47;

/// Bytes of a record's body at most: with 64 locks of 64 bytes each, and the longest payload.
const LONGEST_RECORD: usize = 69743;

/// What a frame holds: it decides which lengths a body may have.
#[derive(Clone, Copy)]
pub(crate) enum Framed {
    Record,
    Meta,
}

/// The check of a length and a body.
pub(crate) fn check_of(bytes: &[u8]) -> [u8; 8]
    ensures { result ≡ check_of bytes.now }
{
    let digest = Sha256::digest(bytes);
    let mut check = [0; 8];
    check.copy_from_slice(&digest[..8]);
    check
}

fn has_length(of: Framed, len: usize) -> bool
    ensures { result ≡ fits of len }
{
    match of {
        Framed::Record => SHORTEST_RECORD <= len && len <= LONGEST_RECORD,
        Framed::Meta => len == 9 || len == 13 || len == 29,
    }
}

/// The body of the whole and right frame at the front.
#[tactic(auto, unfolding(crate::specs::Reading::frame_at))]
pub(crate) fn body_in(bytes: &[u8], of: Framed) -> Result<&[u8], FrameFault>
    ensures at { Gives (λ body. body.now) result (frame_at (fits of) bytes.now) }
    ensures fault { IfErr result IsOfBytes }
{
    if bytes.len() < 4 {
        return Err(FrameFault::Short);
    }
    let len = u32_in(bytes, 0) as usize;
    if !has_length(of, len) {
        return Err(FrameFault::Bad(0));
    }
    if bytes.len() < 12 + len {
        return Err(FrameFault::Short);
    }
    let (front, rest) = bytes.split_at(4 + len);
    let (check, _) = rest.split_at(8);
    let expected = check_of(front);
    if expected.as_slice() != check {
        return Err(FrameFault::Bad(4 + len));
    }
    let (_, behind) = bytes.split_at(4);
    let (body, _) = behind.split_at(len);
    Ok(body)
}
