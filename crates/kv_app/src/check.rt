//! The place where a payload stops to be an op text. It takes no memory to find it.
ghost use Rattle.std.specs.Prelude.{◌≡◌, if◌then◌else◌, None, Some, IfSome};
ghost use Rattle.kv_app.specs.Places.{IsOpText, IsBadAt, StopsAt, is_op_text, bad_place};

use crate::piece::read_piece;

/// Where a payload is no op text, one more than the length of its longest front that begins one. It takes no memory.
pub fn bad_place(payload: &[u8]) -> Option<u64>
    ensures place { result ≡ (if is_op_text payload.now then None else Some (bad_place payload.now)) }
    ensures none { result ≡ None → IsOpText payload.now }
    ensures some { IfSome result (IsBadAt payload.now) }
{
    match first_fault(payload) {
        Some(len) => Some(len as u64 + 1),
        None => None,
    }
}

/// Where a payload is no op text, the length of its longest front that begins one.
pub(crate) fn first_fault(payload: &[u8]) -> Option<usize>
    ensures none { result ≡ None → IsOpText payload.now }
    ensures some { IfSome result (StopsAt IsOpText payload.now) }
{
    if payload.is_empty() {
        return None;
    }
    let mut from = 0;
    for piece in payload.split(|byte| *byte == b';') {
        match read_piece(piece) {
            Ok(_) => from += piece.len() + 1,
            Err(len) => return Some(from + len),
        }
    }
    None
}
