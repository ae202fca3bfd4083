//! The text of one operation.
ghost use Rattle.std.specs.Prelude.{◌≡◌, IfOk, IfErr};
ghost use Rattle.tx_model.specs.Applications.{IsOp, IsKey};
ghost use Rattle.kv_app.specs.Places.{StopsAt};
ghost use Rattle.kv_app.specs.Parts.{IsAfter, IsPair, IsPairText, IsPiece, IsPieceOf};
ghost use Rattle.kv_app.specs.Pieces.{piece_op};

use crate::front::after_word;
use crate::key::{Pair, read_key, read_pair};
use std::alloc::{AllocError, Global};
use tx_model::{Lock, Op};

/// An operation whose key is bytes of its text.
#[derive(Clone, Copy)]
pub(crate) enum Piece<'a> {
    Set(Pair<'a>),
    Add(Pair<'a>),
    Del(&'a [u8]),
}

/// The operation with a key of its own.
pub(crate) fn owned(alloc: Global, piece: Piece<'_>) -> Result<Op, AllocError>
    requires { IsOp (piece_op piece) }
    ensures { IfOk result (λ op. op ≡ piece_op piece.entry) }
{
    match piece {
        Piece::Set(pair) => Ok(Op::Set(Lock::of_name(alloc, pair.key)?, pair.amount)),
        Piece::Add(pair) => Ok(Op::Add(Lock::of_name(alloc, pair.key)?, pair.amount)),
        Piece::Del(key) => Ok(Op::Del(Lock::of_name(alloc, key)?)),
    }
}

// The key and the number behind this word, or the length of the longest front that begins such a text.
fn pair_after<'a>(text: &'a [u8], word: &[u8]) -> Result<Pair<'a>, usize>
    ensures ok { IfOk result (λ pair. IsAfter word.now (λ rest. IsPair rest pair.key.now pair.amount) text.now) }
    ensures err { IfErr result (StopsAt (IsAfter word.now IsPairText) text.now) }
{
    match after_word(text, word) {
        Ok(rest) => match read_pair(rest) {
            Ok(pair) => Ok(pair),
            Err(len) => Err(word.len() + len),
        },
        Err(len) => Err(len),
    }
}

// The key behind this word, or the length of the longest front that begins such a text.
fn key_after<'a>(text: &'a [u8], word: &[u8]) -> Result<&'a [u8], usize>
    ensures ok { IfOk result (λ key. IsAfter word.now (λ rest. IsKey rest × (rest ≡ key.now)) text.now) }
    ensures err { IfErr result (StopsAt (IsAfter word.now IsKey) text.now) }
{
    match after_word(text, word) {
        Ok(key) => match read_key(key) {
            Ok(()) => Ok(key),
            Err(len) => Err(word.len() + len),
        },
        Err(len) => Err(len),
    }
}

/// The operation that a text spells, or the length of its longest front that begins one.
pub(crate) fn read_piece(text: &[u8]) -> Result<Piece<'_>, usize>
    ensures ok { IfOk result (λ piece. IsPieceOf text.now (piece_op piece)) }
    ensures err { IfErr result (StopsAt IsPiece text.now) }
{
    let Some(first) = text.first() else {
        return Err(0);
    };
    match *first {
        b's' => match pair_after(text, b"set ") {
            Ok(pair) => Ok(Piece::Set(pair)),
            Err(len) => Err(len),
        },
        b'a' => match pair_after(text, b"add ") {
            Ok(pair) => Ok(Piece::Add(pair)),
            Err(len) => Err(len),
        },
        b'd' => match key_after(text, b"del ") {
            Ok(key) => Ok(Piece::Del(key)),
            Err(len) => Err(len),
        },
        _ => Err(0),
    }
}
