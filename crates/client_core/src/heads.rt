ghost use Rattle.std.specs.Prelude.{◌≡◌, IfOk};
ghost use Rattle.client_core.specs.Clients.{are_same, have_ids_from, is_same_head};
ghost use Rattle.tx_model.specs.Records.{head_of};

use std::alloc::{AllocError, Global};
use std::collections::VecDeque;
use tx_model::{Head, Lock, Record};

/// Whether the ids rise by one, the first of them this.
pub(crate) fn have_ids_from(from: u64, heads: &[Head]) -> bool
    ensures { result ≡ have_ids_from from heads.now }
{
    for (place, head) in heads.iter().enumerate() {
        if head.id.checked_sub(from) != Some(place as u64) {
            return false;
        }
    }
    true
}

/// Whether this is the head of the record.
pub(crate) fn is_head_of(head: &Head, entry: &Record) -> bool
    ensures { result ≡ is_same_head head.now (head_of entry.now) }
{
    head.id == entry.id
        && head.session == entry.session
        && head.mark == entry.tx.mark()
        && are_same(head.reads.items(), entry.tx.reads())
        && are_same(head.writes.items(), entry.tx.writes())
}

// Whether both lists have the same names in the same order.
fn are_same(names: &[Lock], others: &[Lock]) -> bool
    ensures { result ≡ are_same names.now others.now }
{
    names == others
}

/// Equal heads.
pub(crate) fn copy_heads(alloc: Global, heads: &[Head]) -> Result<VecDeque<Head>, AllocError>
    ensures { IfOk result (λ copies. copies.items ≡ heads.now) }
{
    let mut copies = VecDeque::with_capacity(alloc, heads.len())?;
    for head in heads {
        copies.push_back(head.copy(alloc)?)?;
    }
    Ok(copies)
}
