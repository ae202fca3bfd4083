//! The key of an operation, and the number behind it.
ghost use Rattle.std.specs.Prelude.{◌≡◌, ◌≤◌, ◌<◌, length, take, slice_index, true, false, IfOk, IfErr, OnOk};
ghost use Rattle.tx_model.specs.Applications.{IsKey, is_key_byte, are_key_bytes};
ghost use Rattle.kv_app.specs.Places.{StopsAt};
ghost use Rattle.kv_app.specs.Parts.{IsPair, IsPairText};

use crate::amount::read_amount;
use crate::front::after_byte;
use tx_model::{MAX_KEY, is_key_byte};

// How many bytes at the front a key may have, at most 64.
fn key_len(text: &[u8]) -> usize
    ensures within { result ≤ length text.now }
    ensures short { result ≤ 64 }
    ensures bytes { are_key_bytes (take result text.now) ≡ true }
    ensures ends { result < length text.now → result < 64 → is_key_byte (slice_index text.now result) ≡ false }
{
    for (len, byte) in text.iter().enumerate() {
        if len == MAX_KEY {
            return len;
        }
        if !is_key_byte(*byte) {
            return len;
        }
    }
    text.len()
}

/// Whether a text is a key, or else the length of its longest front that begins one.
pub(crate) fn read_key(text: &[u8]) -> Result<(), usize>
    ensures ok { OnOk result (IsKey text.now) }
    ensures err { IfErr result (StopsAt IsKey text.now) }
{
    let len = key_len(text);
    if len == 0 {
        return Err(len);
    }
    if len < text.len() {
        return Err(len);
    }
    Ok(())
}

/// A key and a number.
#[derive(Clone, Copy)]
pub(crate) struct Pair<'a> {
    pub(crate) key: &'a [u8],
    pub(crate) amount: i64,
}

/// The key and the number, with a space between them, that a text spells, or the length of its longest front that
/// begins such a text.
pub(crate) fn read_pair(text: &[u8]) -> Result<Pair<'_>, usize>
    ensures ok { IfOk result (λ pair. IsPair text.now pair.key.now pair.amount) }
    ensures err { IfErr result (StopsAt IsPairText text.now) }
{
    let len = key_len(text);
    if len == 0 {
        return Err(len);
    }
    let (key, rest) = text.split_at(len);
    match after_byte(rest, b' ') {
        Some(number) => match read_amount(number) {
            Ok(amount) => Ok(Pair { key, amount }),
            Err(at) => Err(len + 1 + at),
        },
        None => Err(len),
    }
}
