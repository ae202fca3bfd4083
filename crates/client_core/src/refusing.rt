//! Why a client refuses to build.
ghost use Rattle.std.specs.Prelude.{◌≡◌, ◌++◌, false, not, find, bytes_eq, IfOk};
ghost use Rattle.std.specs.List.{list_any};
ghost use Rattle.client_core.specs.Building.{has_double, form_refusal, unlocked_key};
ghost use Rattle.kv_app.specs.Places.{IsOpText};

use kv_app::{bad_place, read_ops, touches};
use proto_model::BuildFault;
use std::alloc::{AllocError, Global};
use tx_model::{Lock, MAX_LOCKS, MAX_PAYLOAD};

/// What is refused whatever keys the ops name. It takes no memory.
pub(crate) fn form_fault(writes: &[Lock], reads: &[Lock], ops: &[u8]) -> Option<BuildFault>
    ensures { result ≡ form_refusal writes.now reads.now ops.now }
{
    if let Some(at) = bad_place(ops) {
        return Some(BuildFault::BadOps(at));
    }
    if reads.len() + writes.len() > MAX_LOCKS {
        return Some(BuildFault::TooManyLocks);
    }
    if has_double(reads, writes) {
        return Some(BuildFault::DoubleLock);
    }
    if ops.len() > MAX_PAYLOAD {
        return Some(BuildFault::PayloadTooLong);
    }
    None
}

// Whether some name stands twice in both lists together. They are few names.
fn has_double(reads: &[Lock], writes: &[Lock]) -> bool
    ensures { result ≡ has_double (reads.now ++ writes.now) }
{
    stand_again(writes, &[]) || stand_again(reads, writes)
}

// Whether some name stands twice, where none does among the others, which follow.
fn stand_again(names: &[Lock], others: &[Lock]) -> bool
    requires { has_double others.now ≡ false }
    ensures { result ≡ has_double (names.now ++ others.now) }
{
    for (place, name) in names.iter().enumerate() {
        let (_, later) = names.split_at(place + 1);
        if later.contains(name) {
            return true;
        }
        if others.contains(name) {
            return true;
        }
    }
    false
}

/// The least key that the ops name and that is no write lock.
pub(crate) fn unlocked_key(
    alloc: Global,
    writes: &[Lock],
    ops: &[u8],
) -> Result<Option<Lock>, AllocError>
    requires { IsOpText ops.now }
    ensures { IfOk result (λ key. key ≡ unlocked_key writes.now ops.now) }
{
    let Ok(read) = read_ops(alloc, ops) else {
        return Err(AllocError);
    };
    let keys = touches(alloc, &read)?;
    Ok(first_unlocked(keys, writes))
}

// The first key that is no write lock. The write locks are few, at most 64.
fn first_unlocked(keys: Vec<Lock>, writes: &[Lock]) -> Option<Lock>
    ensures { result ≡ find (λ key. not (list_any (λ write. bytes_eq write key) writes.now)) keys.items }
{
    keys.into_iter().find(|key| !writes.contains(key))
}
