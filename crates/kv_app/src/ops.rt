ghost use Rattle.std.specs.Prelude.{◌≡◌, ◌↔◌, ℕ, IfOk};
ghost use Rattle.tx_model.specs.Applications.{SpellsOps};
ghost use Rattle.kv_app.specs.Places.{IsBadAt, IsOpText};

use crate::check::bad_place;
use crate::piece::{owned, read_piece};
use std::alloc::{AllocError, Global};
use tx_model::Op;

/// Why a payload's operations can't be had.
#[derive(Clone, Copy, Debug, PartialEq, Eq)]
pub enum OpsFault {
    /// It is no op text. The number is one more than the length of the longest front that begins some op text.
    Bad(u64),
    Memory,
}

/// The operations that a payload spells. A payload that is no op text is `Bad` whether or not there is memory.
pub fn read_ops(alloc: Global, payload: &[u8]) -> Result<Vec<Op>, OpsFault>
    ensures ok { IfOk result (λ ops. SpellsOps payload.now ops.items) }
    ensures bad { (at : ℕ) → (result ≡ Err (OpsFault.Bad at)) ↔ IsBadAt payload.now at }
{
    match bad_place(payload) {
        Some(at) => Err(OpsFault::Bad(at)),
        None => match made_ops(alloc, payload) {
            Ok(ops) => Ok(ops),
            Err(_) => Err(OpsFault::Memory),
        },
    }
}

/// The operations of an op text.
pub(crate) fn made_ops(alloc: Global, payload: &[u8]) -> Result<Vec<Op>, AllocError>
    requires { IsOpText payload.now }
    ensures { IfOk result (λ ops. SpellsOps payload.now ops.items) }
{
    let mut ops = Vec::new(alloc);
    if payload.is_empty() {
        return Ok(ops);
    }
    for text in payload.split(|byte| *byte == b';') {
        let Ok(piece) = read_piece(text) else {
            unreachable!();
        };
        ops.push(owned(alloc, piece)?)?;
    }
    Ok(ops)
}
