ghost use Rattle.std.specs.Prelude.{◌≡◌, ◌↔◌, ℕ, List, Contains, map, IfOk};
ghost use Rattle.std.specs.List.Sorted.{IsStrictlySortedBy};
ghost use Rattle.tx_model.specs.Applications.{name_cmp};
ghost use Rattle.kv_app.specs.Touches.{op_key, touched_keys};

use std::alloc::{AllocError, Global};
use tx_model::{Lock, Op};

/// The key that an operation names.
pub(crate) fn key_of(op: &Op) -> &Lock
    ensures { result.now ≡ op_key op.now }
{
    match op {
        Op::Set(key, _) | Op::Add(key, _) | Op::Del(key) => key,
    }
}

/// The keys that the operations name, in byte order, each once.
pub fn touches(alloc: Global, ops: &[Op]) -> Result<Vec<Lock>, AllocError>
    ensures keys { IfOk result (λ keys. keys.items ≡ touched_keys ops.now) }
    ensures rise { IfOk result (λ keys. IsStrictlySortedBy name_cmp keys.items) }
    ensures named { IfOk result (λ keys. (key : List ℕ) → Contains keys.items key ↔ Contains (map op_key ops.now) key) }
{
    let mut keys = Vec::with_capacity(alloc, ops.len())?;
    for op in ops {
        keys.push(key_of(op).copy(alloc)?)?;
    }
    keys.sort_unstable();
    keys.dedup();
    Ok(keys)
}
