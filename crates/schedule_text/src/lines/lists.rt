//! Lists of keys, and ops, as words of a line.
ghost use Rattle.std.specs.Prelude.{◌↔◌, IfSome, IfNone, IfOk, IsTrue};
ghost use Rattle.schedule_text.specs.Fronts.{AreKeysThen, AreNoKeysThen};
ghost use Rattle.schedule_text.specs.Lists.{SpellsKeys, IsKeysWord, SpellsOpsWord, IsOpsWord};

use super::word::cut_word;
use crate::key::is_key;
use std::alloc::{AllocError, Global};
use tx_model::{Lock, Locks, OpText};

/// Whether the word is a list of keys.
pub(crate) fn are_keys(word: &[u8]) -> bool
    ensures { IsTrue result ↔ IsKeysWord word.now }
{
    if word == b"-".as_slice() {
        return true;
    }
    word.split(|byte| *byte == b',').all(is_key)
}

/// The keys of such a word.
pub(crate) fn keys_of(alloc: Global, word: &[u8]) -> Result<Locks, AllocError>
    requires { IsKeysWord word.now }
    ensures { IfOk result (λ keys. SpellsKeys word.now keys) }
{
    let mut keys = Vec::new(alloc);
    if word == b"-".as_slice() {
        return Ok(Locks::new(keys));
    }
    for key in word.split(|byte| *byte == b',') {
        keys.push(Lock::of_name(alloc, key)?)?;
    }
    Ok(Locks::new(keys))
}

/// Whether bytes to the end of a line are ops.
pub(crate) fn are_ops(word: &[u8]) -> bool
    ensures { IsTrue result ↔ IsOpsWord word.now }
{
    !word.is_empty() && word.iter().all(|byte| matches!(*byte, b' '..=b'~'))
}

/// The ops of such bytes.
pub(crate) fn ops_of(alloc: Global, word: &[u8]) -> Result<OpText, AllocError>
    requires { IsOpsWord word.now }
    ensures { IfOk result (λ ops. SpellsOpsWord word.now ops) }
{
    if word == b"-".as_slice() {
        return Ok(OpText::new(Vec::new(alloc)));
    }
    Ok(OpText::new(Vec::from_slice(alloc, word)?))
}

/// The list of keys that a space and then a word are, and what follows them.
pub(crate) fn take_keys(text: &[u8]) -> Option<(&[u8], &[u8])>
    ensures some { IfSome result (λ found. AreKeysThen text.now found.0.now found.1.now) }
    ensures none { IfNone result (AreNoKeysThen text.now) }
{
    let Some(behind) = text.strip_prefix(b" ") else {
        return None;
    };
    let (word, rest) = cut_word(behind);
    if !are_keys(word) {
        return None;
    }
    Some((word, rest))
}
