//! The ranges of numbers.
ghost use Rattle.std.specs.Prelude.{◌≡◌, ◌↔◌, IsTrue};
ghost use Rattle.tx_model.specs.Records.{IsPlace};
ghost use Rattle.tx_model.specs.Spelling.{IsNextPlace, IsCount};
ghost use Rattle.tx_model.specs.Reading.{is_place, is_next_place, is_count};

use tx_model::MAX_PLACE;

/// Whether a number may be that of a session or of a record's place: 1 to 2^48 - 1.
pub fn is_place(n: u64) -> bool
    ensures value { result ≡ is_place n }
    ensures range { IsTrue result ↔ IsPlace n }
{
    1 <= n && is_count(n)
}

/// Whether a number may be that of the place after some records: 1 to 2^48.
pub fn is_next_place(n: u64) -> bool
    ensures value { result ≡ is_next_place n }
    ensures range { IsTrue result ↔ IsNextPlace n }
{
    1 <= n && n <= MAX_PLACE + 1
}

/// Whether there may be this many records: 0 to 2^48 - 1.
pub fn is_count(n: u64) -> bool
    ensures value { result ≡ is_count n }
    ensures range { IsTrue result ↔ IsCount n }
{
    n <= MAX_PLACE
}
