//! Numbers behind their names, and words with numbers.
ghost use Rattle.std.specs.Prelude.{◌≡◌, ◌++◌, decimal, OnOk};
ghost use Rattle.schedule_text.specs.Outcomes.{words_text};

use itoa::Buffer;
use std::alloc::AllocError;

/// Adds a number behind its name.
pub(crate) fn add_named(name: &[u8], number: u64, line: &mut Vec<u8>) -> Result<(), AllocError>
    ensures { OnOk result (line.new.items ≡ line.old.items ++ (name.now ++ decimal number)) }
{
    let mut digits = Buffer::new();
    line.extend_from_slice(name)?;
    line.extend_from_slice(digits.format(number).as_bytes())
}

/// Adds a word, and then a space and each of these numbers.
pub(crate) fn add_words(word: &[u8], numbers: &[u64], line: &mut Vec<u8>) -> Result<(), AllocError>
    ensures { OnOk result (line.new.items ≡ line.old.items ++ words_text word.now numbers.now) }
{
    line.extend_from_slice(word)?;
    for number in numbers {
        add_named(b" ", *number, line)?;
    }
    Ok(())
}
