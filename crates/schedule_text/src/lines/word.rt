//! Words with single spaces between them, and numbers as words.
ghost use Rattle.std.specs.Prelude.{IfSome, IfNone};
ghost use Rattle.schedule_text.specs.Words.{IsCut};
ghost use Rattle.schedule_text.specs.Fronts.{IsNumberThen, IsNoNumberThen};

use io_core::read_number;

/// What stands before the first space, and the rest from that space on.
pub(crate) fn cut_word(text: &[u8]) -> (&[u8], &[u8])
    ensures { IsCut text.now result.0.now result.1.now }
{
    for (at, byte) in text.iter().enumerate() {
        if *byte == b' ' {
            return (&text[..at], &text[at..]);
        }
    }
    (text, &text[text.len()..])
}

/// The number that a space and then a word spell, and what follows them.
pub(crate) fn take_number(text: &[u8]) -> Option<(u64, &[u8])>
    ensures some { IfSome result (λ found. IsNumberThen text.now found.0 found.1.now) }
    ensures none { IfNone result (IsNoNumberThen text.now) }
{
    let Some(behind) = text.strip_prefix(b" ") else {
        return None;
    };
    let (word, rest) = cut_word(behind);
    match read_number(word) {
        Some(number) => Some((number, rest)),
        None => None,
    }
}
