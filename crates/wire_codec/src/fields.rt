//! Fields that are numbers, and nothing more.
ghost use Rattle.std.specs.Prelude.{◌≡◌, ◌≢◌, length, IfSome, IfNone};
ghost use Rattle.std.specs.Int.{w64};
ghost use Rattle.tx_model.specs.Reading.{number};
ghost use Rattle.wire_codec.specs.Reading.{is_asked_id, is_up_to, session_in, count_in, asked_id_in, session_and_count_in, session_and_next_in, request_and_id_in, phase_in};

use crate::kinds::phase;
use proto_model::Phase;
use record_frame::{is_count, is_next_place, is_place, u64_in};
use tx_model::MAX_PLACE;

/// Whether a client may ask for a record of this id: 0 to 2^48.
pub(crate) fn is_asked_id(n: u64) -> bool
    ensures { result ≡ is_asked_id n }
{
    n <= MAX_PLACE + 1
}

/// Whether this is the number of some items, and of no more than so many.
pub(crate) fn is_up_to(most: usize, n: u8) -> bool
    ensures { result ≡ is_up_to most n }
{
    1 <= n && n as usize <= most
}

/// The number that is all of the fields.
fn one_in(fields: &[u8]) -> Option<u64>
    ensures none { IfNone result (length fields.now ≢ 8) }
    ensures some { IfSome result (λ n. (length fields.now ≡ 8) × (n ≡ number w64 0 fields.now)) }
{
    if fields.len() == 8 {
        Some(u64_in(fields, 0))
    } else {
        None
    }
}

/// The two numbers that are all of the fields.
fn two_in(fields: &[u8]) -> Option<(u64, u64)>
    ensures none { IfNone result (length fields.now ≢ 16) }
    ensures long { IfSome result (λ x. length fields.now ≡ 16) }
    ensures some { IfSome result
        (λ x. (x.0 ≡ number w64 0 fields.now) × (x.1 ≡ number w64 8 fields.now)) }
{
    if fields.len() == 16 {
        Some((u64_in(fields, 0), u64_in(fields, 8)))
    } else {
        None
    }
}

pub(crate) fn session_in(fields: &[u8]) -> Option<u64>
    ensures { result ≡ session_in fields.now }
{
    let session = one_in(fields)?;
    is_place(session).then_some(session)
}

pub(crate) fn count_in(fields: &[u8]) -> Option<u64>
    ensures { result ≡ count_in fields.now }
{
    let count = one_in(fields)?;
    is_count(count).then_some(count)
}

pub(crate) fn asked_id_in(fields: &[u8]) -> Option<u64>
    ensures { result ≡ asked_id_in fields.now }
{
    let id = one_in(fields)?;
    is_asked_id(id).then_some(id)
}

pub(crate) fn session_and_count_in(fields: &[u8]) -> Option<(u64, u64)>
    ensures { result ≡ session_and_count_in fields.now }
{
    let (session, count) = two_in(fields)?;
    (is_place(session) && is_count(count)).then_some((session, count))
}

/// A session, and the place of the record that is next.
pub(crate) fn session_and_next_in(fields: &[u8]) -> Option<(u64, u64)>
    ensures { result ≡ session_and_next_in fields.now }
{
    let (session, next) = two_in(fields)?;
    (is_place(session) && is_next_place(next)).then_some((session, next))
}

pub(crate) fn request_and_id_in(fields: &[u8]) -> Option<(u64, u64)>
    ensures { result ≡ request_and_id_in fields.now }
{
    let (request, id) = two_in(fields)?;
    is_place(id).then_some((request, id))
}

/// The phase that a refusal names.
pub(crate) fn phase_in(fields: &[u8]) -> Option<Phase>
    ensures { result ≡ phase_in fields.now }
{
    if fields.len() != 1 {
        return None;
    }
    match fields[0] {
        phase::IDLE => Some(Phase::Idle),
        phase::OPENING => Some(Phase::Opening),
        phase::FETCHING => Some(Phase::Fetching),
        phase::REPAIRING => Some(Phase::Repairing),
        _ => None,
    }
}
