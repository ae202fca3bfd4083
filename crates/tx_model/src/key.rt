ghost use Rattle.std.specs.Prelude.{◌≡◌};
ghost use Rattle.tx_model.specs.Applications.{is_key_byte};

use crate::lock::MAX_NAME;

/// Bytes of an application's key at most.
pub const MAX_KEY: usize = MAX_NAME;

/// Whether a key may have this byte: a letter from a to z, a digit, or an underscore.
pub fn is_key_byte(byte: u8) -> bool
    ensures { result ≡ is_key_byte byte }
{
    matches!(byte, b'a'..=b'z' | b'0'..=b'9' | b'_')
}
