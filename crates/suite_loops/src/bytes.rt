use std::alloc::Global;
use std::test::Fail;

// What is asked and answered, by the table of formats.
pub const BYE: &str = "00000002 07 01";

pub const DONE: &str = "00000002 07 02";

pub const NO: &str = "00000002 07 03";

pub const READ: &str = "00000002 05 01";

// The bytes of a hexadecimal text, in which spaces mean nothing.
fn bytes_of(alloc: Global, text: &str) -> Result<Vec<u8>, Fail> {
    let mut digits = Vec::new(alloc);
    for digit in text.as_bytes() {
        if *digit != b' ' {
            digits.push(*digit)?;
        }
    }
    Ok(hex::decode(alloc, digits.as_slice())?)
}

// The bytes of each text.
pub fn all_bytes(alloc: Global, texts: &[&str]) -> Result<Vec<Vec<u8>>, Fail> {
    let mut all = Vec::new(alloc);
    for text in texts {
        all.push(bytes_of(alloc, text)?)?;
    }
    Ok(all)
}

// Whether these are the bytes of the texts, in their order.
pub fn are(alloc: Global, found: &[Vec<u8>], texts: &[&str]) -> Result<bool, Fail> {
    let want = all_bytes(alloc, texts)?;
    Ok(found == want.as_slice())
}
