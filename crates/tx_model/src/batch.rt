ghost use Rattle.std.specs.Prelude.{◌≡◌, ◌↔◌, ◌≤◌, ◌<◌, ℕ, [], All, length, take, drop, IfOk};

use crate::Record;
use std::alloc::{AllocError, Global};
use std::marker::Model;

/// Records of a batch at most.
pub const MAX_BATCH: usize = 8;

/// Why records are no batch. Of several reasons the first of these is told.
#[derive(Clone, Copy, Debug, PartialEq, Eq)]
pub enum BatchFault {
    /// There is no record.
    Empty,
    /// There are more than eight records.
    TooMany,
    /// The record at this place, counted from 0, is the first whose id is not one more than the id before it.
    Gap(u8),
}

/// One to eight records whose ids rise by one, as a message carries them.
#[derive(Drop)]
pub struct Batch {
    records: Vec<Record>,
}

impl Model for Batch {
    ghost use Rattle.std.specs.Prelude.{List};
    ghost use Rattle.tx_model.specs.declared.record.Record.{Record as RecordValue};
    ghost use Rattle.tx_model.specs.Records.{IsBatch};

    ghost Value = { List RecordValue };

    ghost view = { λ b. b.records.items };

    ghost invariant = { λ b. IsBatch b.records.items };
}

impl Batch {
    ghost use Rattle.tx_model.specs.Records.{IsRecord, IsFirstGap, IsBatch, RiseByOne, first_id};

    /// The batch of these records.
    pub fn new(records: Vec<Record>) -> Result<Batch, BatchFault>
        requires { All IsRecord records.items }
        ensures ok { IfOk result (λ batch. batch ≡ records.items) }

        // The refusals, in their order.
        ensures empty { (result ≡ Err BatchFault.Empty) ↔ (records.items ≡ []) }
        ensures many { (result ≡ Err BatchFault.TooMany) ↔ (MAX_BATCH < length records.items) }
        ensures gap { (at : ℕ) → (result ≡ Err (BatchFault.Gap at)) ↔
            ((length records.items ≤ MAX_BATCH) × IsFirstGap records.items at) }
    {
        if records.is_empty() {
            return Err(BatchFault::Empty);
        }
        if records.len() > MAX_BATCH {
            return Err(BatchFault::TooMany);
        }
        for at in 1..records.len() {
            if records[at].id != records[at - 1].id + 1 {
                return Err(BatchFault::Gap(at as u8));
            }
        }
        Ok(Batch { records })
    }

    /// The batch of records that are known to be one, as a decoder has tested them.
    pub fn of_records(records: Vec<Record>) -> Batch
        requires { IsBatch records.items }
        ensures { result ≡ records.items }
    {
        Batch { records }
    }

    /// Copies of the records of a log after a place, eight at most: what a message takes from a log.
    pub fn after(alloc: Global, log: &[Record], place: u64) -> Result<Batch, AllocError>
        requires rise { RiseByOne 1 log.now }
        requires within { place < length log.now }
        ensures { IfOk result (λ batch. batch ≡ take 8 (drop place log.now)) }
    {
        let rest = &log[place as usize..];
        let records = copies_of(alloc, &rest[..rest.len().min(MAX_BATCH)])?;
        Ok(Batch { records })
    }

    /// The id of the first record.
    pub fn first(&self) -> u64
        ensures value { result ≡ first_id self.now }
        ensures valid { IsBatch self.now }
    {
        self.records[0].id
    }

    /// How many records there are, from 1 to 8: a batch is never empty.
    pub fn len(&self) -> u8
        ensures value { result ≡ length self.now }
        ensures valid { IsBatch self.now }
    {
        self.records.len() as u8
    }

    /// The records, in the order of their ids.
    pub fn records(&self) -> &[Record]
        ensures value { result.now ≡ self.now }
        ensures valid { IsBatch self.now }
    {
        &self.records
    }

    /// The records, in the order of their ids.
    pub fn into_records(self) -> Vec<Record>
        ensures value { result.items ≡ self }
        ensures valid { IsBatch self }
    {
        self.records
    }

    /// An equal batch.
    pub fn copy(&self, alloc: Global) -> Result<Batch, AllocError>
        ensures { IfOk result (λ batch. batch ≡ self.now) }
    {
        let records = copies_of(alloc, &self.records)?;
        Ok(Batch { records })
    }
}

// Equal records.
fn copies_of(alloc: Global, records: &[Record]) -> Result<Vec<Record>, AllocError>
    ensures { IfOk result (λ copies. copies.items ≡ records.now) }
{
    let mut copies = Vec::with_capacity(alloc, records.len())?;
    for entry in records {
        copies.push(entry.copy(alloc)?)?;
    }
    Ok(copies)
}
