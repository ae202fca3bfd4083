//! The number at the end of an operation's text.
ghost use Rattle.std.specs.Prelude.{◌≡◌, ◌≤◌, ℕ, None, IfOk, IfErr, IfSome};
ghost use Rattle.kv_app.specs.Places.{StopsAt};
ghost use Rattle.kv_app.specs.Parts.{IsNext, IsCount, IsCountText, IsAmountOf, IsAmountText};

use crate::front::after_byte;

/// The greatest number of an operation. The least one is as far below 0.
const MOST: u64 = 1_000_000_000;

// The value with one more digit behind it, where that is a number from the least to the most.
fn with_digit(value: u64, least: u64, byte: u8) -> Option<u64>
    requires { value ≤ 1000000000 }
    ensures some { IfSome result (IsNext value least byte) }
    ensures none { result ≡ None → (next : ℕ) → ¬ IsNext value least byte next }
{
    if !byte.is_ascii_digit() {
        return None;
    }
    let next = value * 10 + u64::from(byte - b'0');
    if next < least {
        return None;
    }
    if next > MOST {
        return None;
    }
    Some(next)
}

// The number from the least, 0 or 1, to the most that a text spells, or the length of its longest front that begins one.
fn read_count(text: &[u8], least: u64) -> Result<u64, usize>
    requires { least ≤ 1 }
    ensures ok { IfOk result (IsCount least text.now) }
    ensures err { IfErr result (StopsAt (IsCountText least) text.now) }
{
    let mut value = 0;
    for (len, byte) in text.iter().enumerate() {
        if len > 0 && value == 0 {
            return Err(len);
        }
        match with_digit(value, least, *byte) {
            Some(next) => value = next,
            None => return Err(len),
        }
    }
    if text.is_empty() {
        return Err(0);
    }
    Ok(value)
}

/// The number that a text spells, or the length of its longest front that begins one.
pub(crate) fn read_amount(text: &[u8]) -> Result<i64, usize>
    ensures ok { IfOk result (IsAmountOf text.now) }
    ensures err { IfErr result (StopsAt IsAmountText text.now) }
{
    match after_byte(text, b'-') {
        Some(digits) => match read_count(digits, 1) {
            Ok(value) => Ok(-(value as i64)),
            Err(len) => Err(1 + len),
        },
        None => match read_count(text, 0) {
            Ok(value) => Ok(value as i64),
            Err(len) => Err(len),
        },
    }
}
