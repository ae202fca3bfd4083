ghost use Rattle.std.specs.Prelude.{◌≡◌, [], ◌∷◌, ◌++◌, map, OnOk, OnErr};
ghost use Rattle.std.specs.Vec.{vec_items};

use std::alloc::{AllocError, Global};

/// What a port in memory keeps of a call of `answer`.
#[derive(Drop)]
pub enum Attempt {
    /// One whose bytes were given. They stand among the answers.
    Given,
    /// One that failed, with its bytes.
    Lost(Vec<u8>),
}

/// What a link in memory keeps of an exchange.
#[derive(Drop)]
pub enum Past {
    /// One in which a reply came: the port, and how much room there was for the reply.
    Replied(u16, usize),
    /// One that failed: the port, and the bytes that were to be sent.
    Unheard(u16, Vec<u8>),
}

/// Adds a copy of the bytes to the one list and an item to the other, or nothing to either.
pub fn add_both<T: Drop>(
    alloc: Global,
    texts: &mut Vec<Vec<u8>>,
    bytes: &[u8],
    items: &mut Vec<T>,
    item: T,
) -> Result<(), AllocError>
    ensures text { OnOk result (map vec_items texts.new.items
        ≡ map vec_items texts.old.items ++ bytes.now ∷ []) }
    ensures item { OnOk result (items.new.items ≡ items.old.items ++ item ∷ []) }
    ensures err { OnErr result ((texts.new.items ≡ texts.old.items)
        × (items.new.items ≡ items.old.items)) }
{
    let copy = Vec::from_slice(alloc, bytes)?;
    items.reserve(1)?;
    texts.push(copy)?;
    items.push(item).unwrap();
    Ok(())
}
