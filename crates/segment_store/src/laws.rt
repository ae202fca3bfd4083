//! Laws of damaged places, as contracts of functions that do nothing.
ghost use Rattle.std.specs.Prelude.{◌≡◌, ℕ, List, length};
ghost use Rattle.tx_model.specs.Contents.{IsDamagedAt, records_in};
ghost use Rattle.segment_store.specs.Index.{IsLoadable};

/// Of records that are to have ids from a first one on at most one place is damaged, however many of them are counted,
/// and as many records stand in front of it.
pub fn one_place_is_damaged()
    ensures place { (first count other : ℕ) (bytes : List ℕ) (at there : ℕ) →
        IsDamagedAt first count bytes at → IsDamagedAt first other bytes there → at ≡ there }
    ensures front { (first count other : ℕ) (bytes : List ℕ) (at there : ℕ) →
        (one : IsDamagedAt first count bytes at) → (two : IsDamagedAt first other bytes there) →
        length one.front ≡ length two.front }
{}

/// And none is damaged where the records can be loaded.
pub fn loadable_records_are_not_damaged()
    ensures { (first count : ℕ) (bytes : List ℕ) (at : ℕ) →
        IsLoadable first count (records_in bytes) → ¬ IsDamagedAt first count bytes at }
{}
