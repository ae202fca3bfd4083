ghost use Rattle.std.specs.Prelude.{◌≡◌, ◌≢◌, ◌↔◌, ◌+◌, ◌-◌, ◌<◌, ◌≤◌, ◌++◌, ◌∷◌, [], map, take, length, vec_len, vec_capacity, IfOk, IfSome, IsSome, OnOk, OnErr};
ghost use Rattle.tx_model.specs.Logs.{record_at};
ghost use Rattle.tx_model.specs.Records.{IsBatch, IsRecord, RiseByOne, first_id, head_of};
ghost use Rattle.feed_service.specs.Contents.{shown_heads, part_of};

use std::alloc::{AllocError, Global};
use std::marker::Model;
use tx_model::{Batch, Head, Record};

/// A server's log in memory. The first record has the id 1, and each further one the next id.
#[derive(Drop)]
pub struct Window {
    alloc: Global,
    records: Vec<Record>,
}

impl Model for Window {
    ghost use Rattle.feed_service.specs.Contents.{Contents};
    ghost use Rattle.feed_service.specs.Layout.{contents_of, IsWindow};

    ghost Value = { Contents };

    ghost view = { contents_of };

    ghost invariant = { IsWindow };
}

impl Window {
    /// An empty window. It takes no memory.
    #[tactic(auto, using(crate::proofs::Parts::none_rise))]
    pub fn new(alloc: Global) -> Window
        ensures { result.log ≡ [] }
    {
        Window {
            alloc,
            records: Vec::new(alloc),
        }
    }

    /// How many records there are, which is the last id.
    pub fn len(&self) -> u64
        ensures value { result ≡ length self.now.log }
        ensures rise { RiseByOne 1 self.now.log }
    {
        self.records.len() as u64
    }

    /// Adds a record. With room for one it takes no memory.
    #[tactic(auto, using(crate::proofs::Parts::rise_pushed))]
    pub fn push(&mut self, r: Record) -> Result<(), AllocError>
        requires next { r.id ≡ length self.old.log + 1 }
        requires valid { IsRecord r }
        ensures ok { OnOk result (self.new.log ≡ self.old.log ++ r ∷ []) }
        ensures rise { RiseByOne 1 self.new.log }
        ensures err { OnErr result (self.new ≡ self.old) }
        ensures memory { OnErr result (self.old.room ≡ 0) }
    {
        self.records.reserve(1)?;
        push_in_room(&mut self.records, r);
        Ok(())
    }

    /// Makes room for one record, after which one push can't fail.
    pub fn reserve(&mut self) -> Result<(), AllocError>
        ensures log { self.new.log ≡ self.old.log }
        ensures room { OnOk result (1 ≤ self.new.room) }
        ensures err { OnErr result (self.new ≡ self.old) }
        ensures memory { OnErr result (self.old.room ≡ 0) }
    {
        self.records.reserve(1)?;
        Ok(())
    }

    /// Adds the records of a batch up to an id, all of them or, without memory, none.
    #[tactic(auto, using(crate::proofs::Parts::rise_extended))]
    pub fn extend(&mut self, batch: Batch, upto: u64) -> Result<(), AllocError>
        requires next { first_id batch ≡ length self.old.log + 1 }
        ensures ok { OnOk result
            (self.new.log ≡ self.old.log ++ take (upto - length self.old.log) batch) }
        ensures rise { RiseByOne 1 self.new.log }
        ensures err { OnErr result (self.new ≡ self.old) }
        ensures memory { OnErr result
            (self.old.room < length (take (upto - length self.old.log) batch)) }
    {
        let most = upto.saturating_sub(self.records.len() as u64);
        let mut records = batch.into_records();
        records.truncate(most as usize);
        self.records.reserve(records.len())?;
        append_in_room(&mut self.records, records);
        Ok(())
    }

    /// Takes all records out. It takes no memory.
    #[tactic(auto, using(crate::proofs::Parts::none_rise))]
    pub fn clear(&mut self)
        ensures { self.new.log ≡ [] }
    {
        self.records.clear();
    }

    /// The heads of the records with ids from one on up to the committed mark, in order, so many at most. From above the
    /// mark there are none.
    pub fn heads(&self, from: u64, max: u8, committed: u64) -> Result<Vec<Head>, AllocError>
        requires some { 1 ≤ from }
        requires within { committed ≤ length self.now.log }
        ensures value { IfOk result (λ heads.
            heads.items ≡ shown_heads self.now.log committed from max) }
        ensures rise { RiseByOne 1 self.now.log }
        ensures memory { OnErr result (shown_heads self.now.log committed from max ≢ []) }
    {
        let shown = &self.records[..committed as usize];
        let first = (from as usize - 1).min(shown.len());
        let rest = &shown[first..];
        heads_of(self.alloc, &rest[..rest.len().min(max as usize)])
    }

    /// The record of an id. `None` comes exactly where there is no such id, and takes no memory.
    pub fn entry(&self, id: u64) -> Result<Option<Record>, AllocError>
        ensures value { IfOk result (λ found. found ≡ record_at self.now.log id) }
        ensures some { IfOk result (λ found.
            IsSome found ↔ ((1 ≤ id) × (id ≤ length self.now.log))) }
        ensures valid { IfOk result (λ found. IfSome found IsRecord) }
        ensures memory { OnErr result ((1 ≤ id) × (id ≤ length self.now.log)) }
    {
        let Some(place) = id.checked_sub(1) else {
            return Ok(None);
        };
        match self.records.get(place as usize) {
            Some(entry) => {
                let copy = entry.copy(self.alloc)?;
                Ok(Some(copy))
            }
            None => Ok(None),
        }
    }

    /// Copies of the records after a place up to another one, eight at most: what a Stage or an Append carries.
    pub fn batch_after(&self, place: u64, upto: u64) -> Result<Batch, AllocError>
        requires some { place < upto }
        requires within { upto ≤ length self.now.log }
        ensures value { IfOk result (λ batch. batch ≡ part_of self.now.log place upto) }
        ensures valid { IfOk result IsBatch }
    {
        Batch::after(self.alloc, &self.records[..upto as usize], place)
    }
}

// The records' heads.
fn heads_of(alloc: Global, records: &[Record]) -> Result<Vec<Head>, AllocError>
    ensures ok { IfOk result (λ heads. heads.items ≡ map head_of records.now) }
    ensures memory { OnErr result (map head_of records.now ≢ []) }
{
    let mut heads = Vec::with_capacity(alloc, records.len())?;
    for entry in records {
        heads.push(entry.head(alloc)?)?;
    }
    Ok(heads)
}

// Adds a record for which there is room.
fn push_in_room(records: &mut Vec<Record>, r: Record)
    requires { vec_len records.old + 1 ≤ vec_capacity records.old }
    ensures { records.new.items ≡ records.old.items ++ r ∷ [] }
{
    match records.push(r) {
        Ok(()) => {}
        Err(_) => unreachable!(),
    }
}

// Adds records for which there is room.
fn append_in_room(records: &mut Vec<Record>, mut more: Vec<Record>)
    requires { vec_len records.old + vec_len more ≤ vec_capacity records.old }
    ensures { records.new.items ≡ records.old.items ++ more.items }
{
    let _ = records.append(&mut more);
}
