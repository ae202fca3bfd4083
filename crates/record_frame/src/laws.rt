//! Laws of the two formats, as contracts of functions that do nothing.
ghost use Rattle.std.specs.Prelude.{◌≡◌, ◌<◌, ◌≤◌, ◌++◌, ℕ, List, Ok, length, take};
ghost use Rattle.tx_model.specs.declared.record.Record.{Record};
ghost use Rattle.tx_model.specs.declared.meta.Meta.{Meta};
ghost use Rattle.tx_model.specs.Spelling.{SpellsRecord, SpellsMeta};
ghost use Rattle.record_frame.specs.Reading.{record_at, meta_at};
ghost use Rattle.tx_model.specs.Framing.{record_len, framed_record, meta_len, framed_meta};

/// A record has one spelling, and none begins the spelling of another record.
pub fn records_have_one_spelling()
    ensures one { (a b : List ℕ) (r : Record) → SpellsRecord a r → SpellsRecord b r → a ≡ b }
    ensures apart { (a b x y : List ℕ) (r s : Record) →
        SpellsRecord a r → SpellsRecord b s → a ++ x ≡ b ++ y → (r ≡ s) × (a ≡ b) }
{}

/// A meta entry has one spelling, and none begins the spelling of another entry.
pub fn metas_have_one_spelling()
    ensures one { (a b : List ℕ) (m : Meta) → SpellsMeta a m → SpellsMeta b m → a ≡ b }
    ensures apart { (a b x y : List ℕ) (m n : Meta) →
        SpellsMeta a m → SpellsMeta b n → a ++ x ≡ b ++ y → (m ≡ n) × (a ≡ b) }
{}

/// What is read at the front rests on the bytes of its frame alone. The lists need not be of bytes.
pub fn records_stand_alone()
    ensures within { (bytes : List ℕ) (r : Record) (n : ℕ) →
        record_at bytes ≡ Ok (r, n) → n ≤ length bytes }
    ensures alone { (bytes other : List ℕ) (r : Record) (n : ℕ) → record_at bytes ≡ Ok (r, n) →
        n ≤ length other → take n other ≡ take n bytes → record_at other ≡ Ok (r, n) }
{}

/// What is read at the front rests on the bytes of its frame alone. The lists need not be of bytes.
pub fn metas_stand_alone()
    ensures within { (bytes : List ℕ) (m : Meta) (n : ℕ) →
        meta_at bytes ≡ Ok (m, n) → n ≤ length bytes }
    ensures alone { (bytes other : List ℕ) (m : Meta) (n : ℕ) → meta_at bytes ≡ Ok (m, n) →
        n ≤ length other → take n other ≡ take n bytes → meta_at other ≡ Ok (m, n) }
{}

/// The whole and right frame of a record at the front: its length and its record rest on its own bytes alone, whatever
/// follows, and it stands where a spelling stands. The lists need not be of bytes.
pub fn record_frames_stand_alone()
    ensures within { (bytes : List ℕ) → record_len bytes ≤ length bytes }
    ensures len { (bytes other : List ℕ) → 0 < record_len bytes →
        record_len bytes ≤ length other →
        take (record_len bytes) other ≡ take (record_len bytes) bytes →
        record_len other ≡ record_len bytes }
    ensures value { (bytes other : List ℕ) → 0 < record_len bytes →
        record_len bytes ≤ length other →
        take (record_len bytes) other ≡ take (record_len bytes) bytes →
        framed_record other ≡ framed_record bytes }
    ensures spelled { (frame rest : List ℕ) (r : Record) → SpellsRecord frame r →
        (record_len (frame ++ rest) ≡ length frame) × (framed_record (frame ++ rest) ≡ r) }
{}

/// The same for the frames of meta entries.
pub fn meta_frames_stand_alone()
    ensures within { (bytes : List ℕ) → meta_len bytes ≤ length bytes }
    ensures len { (bytes other : List ℕ) → 0 < meta_len bytes →
        meta_len bytes ≤ length other →
        take (meta_len bytes) other ≡ take (meta_len bytes) bytes →
        meta_len other ≡ meta_len bytes }
    ensures value { (bytes other : List ℕ) → 0 < meta_len bytes →
        meta_len bytes ≤ length other →
        take (meta_len bytes) other ≡ take (meta_len bytes) bytes →
        framed_meta other ≡ framed_meta bytes }
    ensures spelled { (frame rest : List ℕ) (m : Meta) → SpellsMeta frame m →
        (meta_len (frame ++ rest) ≡ length frame) × (framed_meta (frame ++ rest) ≡ m) }
{}
