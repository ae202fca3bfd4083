//! What a text begins with.
ghost use Rattle.std.specs.Prelude.{◌≡◌, ◌≢◌, ◌≤◌, ◌<◌, ◌∷◌, ◌++◌, None, length, take, slice_index, IfSome, IfOk, IfErr};

/// What stands behind this byte, where it is the first.
pub(crate) fn after_byte(text: &[u8], byte: u8) -> Option<&[u8]>
    ensures some { IfSome result (λ rest. text.now ≡ byte ∷ rest.now) }
    ensures none { result ≡ None → 0 < length text.now → slice_index text.now 0 ≢ byte }
{
    let (first, rest) = text.split_first()?;
    if *first != byte {
        return None;
    }
    Some(rest)
}

/// What stands behind this word, or how many bytes of the word stand in front.
pub(crate) fn after_word<'a>(text: &'a [u8], word: &[u8]) -> Result<&'a [u8], usize>
    ensures ok { IfOk result (λ rest. text.now ≡ word.now ++ rest.now) }
    ensures short { IfErr result (λ len. len < length word.now) }
    ensures within { IfErr result (λ len. len ≤ length text.now) }
    ensures same { IfErr result (λ len. take len text.now ≡ take len word.now) }
    ensures apart { IfErr result (λ len. len < length text.now → slice_index text.now len ≢ slice_index word.now len) }
{
    for (len, wanted) in word.iter().enumerate() {
        let Some(byte) = text.get(len) else {
            return Err(len);
        };
        if byte != wanted {
            return Err(len);
        }
    }
    let (_, rest) = text.split_at(word.len());
    Ok(rest)
}
