//! Records by their ids.
ghost use Rattle.std.specs.Prelude.{◌≡◌, ◌↔◌, ◌+◌, ◌-◌, ◌<◌, ◌≤◌, None, Some, Ok, Err, ℕ, List, [], length, take, drop, slice_get, slice_index, slice_index_or, IfOk, IfSome, IfNone, IsErrOf, IsTrue, MatchResult};
ghost use Rattle.std.specs.List.{AllByRecursion};
ghost use Rattle.tx_model.specs.Records.{IsRecord, RiseByOne};
ghost use Rattle.tx_model.specs.Framing.{record_len, framed_record};
ghost use Rattle.tx_model.specs.Frames.{IsFrame, joined};
ghost use Rattle.disk_model.specs.History.{KeepsWorking};
ghost use Rattle.disk_model.specs.LoadFaults.{IfDamaged, IsNotDamaged, HasDiskCause};
ghost use Rattle.tx_model.specs.Contents.{records_of};
ghost use Rattle.segment_store.specs.Records.{records_at};
ghost use Rattle.segment_store.specs.Index.{HasId, count_of, start_of, place_of, run_length, IsIndexOf};
ghost use Rattle.disk_model.specs.declared.unloaded.LoadFault.TheVariants.{Disk as Broke};

use crate::{Segment, SegmentFault};
use disk_model::{Disk, read_full};
use record_frame::{FrameFault, decode_record};
use std::alloc::{AllocError, Global};
use tx_model::Record;

// The record at the front and the length of its frame, where its id is the one `k` after a first one.
fn record_with(
    alloc: Global,
    first: u64,
    k: u64,
    bytes: &[u8],
) -> Result<Option<(Record, usize)>, AllocError>
    ensures some { IfOk result (λ found. IfSome found (λ x. (x.0.id ≡ first + k) × IsRecord x.0
        × (x.0 ≡ framed_record bytes.now) × (x.1 ≡ record_len bytes.now)
        × (x.1 ≤ length bytes.now))) }
    ensures none { IfOk result (λ found. IfNone found
        (0 < record_len bytes.now → (framed_record bytes.now).id ≡ first + k → ⊥)) }
{
    match decode_record(alloc, bytes) {
        Ok((entry, len)) => {
            if first <= entry.id && entry.id - first == k {
                Ok(Some((entry, len)))
            } else {
                Ok(None)
            }
        }
        Err(FrameFault::Memory) => Err(AllocError),
        Err(_) => Ok(None),
    }
}

// The records at the front, at most so many, up to the first whose id does not go on from a first one.
fn records_from(
    alloc: Global,
    first: u64,
    count: usize,
    bytes: &[u8],
) -> Result<Vec<Record>, AllocError>
    ensures ids { IfOk result (λ records. RiseByOne first records.items) }
    ensures most { IfOk result (λ records. length records.items ≤ count) }
    ensures all { IfOk result (λ records. (frames : List (List ℕ)) →
        AllByRecursion (IsFrame record_len) frames → bytes.now ≡ joined frames →
        length frames ≡ count →
        RiseByOne first (records_of frames) → records.items ≡ records_of frames) }
{
    let mut records = Vec::with_capacity(alloc, count)?;
    let mut rest = bytes;
    'frames: while records.len() < count {
        let Some((entry, len)) = record_with(alloc, first, records.len() as u64, rest)? else {
            return Ok(records);
        };
        records.push(entry)?;
        let (_, after) = rest.split_at(len);
        rest = after;
    }
    Ok(records)
}

impl Segment {
    // The place of this id's record among the segment's.
    fn index_of(&self, id: u64) -> Option<usize>
        ensures none { IfNone result (HasId self.now id → ⊥) }
        ensures some { IfSome result (λ k. HasId self.now id × (k ≡ id - self.now.first)) }
    {
        let k = id.checked_sub(self.first)? as usize;
        if k < self.starts.len() { Some(k) } else { None }
    }

    /// Whether it has a record with this id.
    pub fn has(&self, id: u64) -> bool
        ensures { IsTrue result ↔ HasId self.now id }
    {
        self.index_of(id).is_some()
    }

    // How many of so many ids from one on it has.
    fn run_length(&self, from: u64, count: u8) -> usize
        ensures { result ≡ run_length self.now from count }
    {
        match from.checked_sub(self.first) {
            Some(k) => self
                .starts
                .len()
                .saturating_sub(k as usize)
                .min(count as usize),
            None => 0,
        }
    }

    // Where the frame at this place among them begins. Behind the last one, where that ends.
    fn place_of(&self, k: usize) -> u64
        ensures { result ≡ place_of self.now k }
    {
        self.starts.get(k).copied().unwrap_or(self.end)
    }

    // So many frames in a row, from the one at this place among them on. They are read at once.
    fn frames_at<D: Disk>(
        &self,
        disk: &mut D,
        k: usize,
        count: usize,
    ) -> Result<Vec<u8>, SegmentFault>
        requires { k + count ≤ count_of self.now }
        ensures bytes { IfOk result (λ bytes. D.tells →
            (index : IsIndexOf self.now ((D.history disk.old).now self.now.file).reads) →
            bytes.items ≡ joined (take count (drop k index.frames))) }
        ensures history { D.tells → D.history disk.new ≡ D.history disk.old }
        ensures not_damaged { IsNotDamaged result }
        ensures cause { HasDiskCause (D.faults disk.old) (D.faults disk.new) result }
        ensures keeps { KeepsWorking D.reliable D.unfailing disk.old disk.new
            (IsErrOf result Broke) }
    {
        let file = self.file;
        let start = self.place_of(k);
        let len = self.place_of(k + count).saturating_sub(start) as usize;
        let mut bytes = vec![in self.alloc; 0u8; len]?;
        read_full(disk, file, start, &mut bytes)?;
        Ok(bytes)
    }

    /// The record with this id, read from the disk.
    ///
    /// `Damaged` comes only where what is read at the record's place is not the frame that was written there, and so
    /// never from a disk that tells its content.
    pub fn get<D: Disk>(&self, disk: &mut D, id: u64) -> Result<Option<Record>, SegmentFault>
        requires { D.tells → IsIndexOf self.now ((D.history disk.old).now self.now.file).reads }
        ensures none { (result ≡ Ok None) ↔ (HasId self.now id → ⊥) }
        ensures found { IfOk result (λ found. IfSome found
            (λ r. HasId self.now id × (r.id ≡ id) × IsRecord r)) }
        ensures same { IfOk result (λ found. IfSome found (λ r. D.tells →
            slice_get (records_at (D.history disk.old) self.now.file) (id - self.now.first)
            ≡ Some r)) }
        ensures damaged { IfDamaged result (λ file at. (file ≡ self.now.file) × HasId self.now id
            × (at ≡ start_of self.now id)) }
        ensures not_damaged { D.tells → IsNotDamaged result }
        ensures history { D.tells → D.history disk.new ≡ D.history disk.old }
        ensures cause { HasDiskCause (D.faults disk.old) (D.faults disk.new) result }
        ensures keeps { KeepsWorking D.reliable D.unfailing disk.old disk.new
            (IsErrOf result Broke) }
    {
        let Some(k) = self.index_of(id) else {
            return Ok(None);
        };
        let bytes = self.frames_at(disk, k, 1)?;
        match record_with(self.alloc, id, 0, &bytes)? {
            Some((entry, _)) => Ok(Some(entry)),
            None => Err(SegmentFault::Damaged(self.file, self.place_of(k))),
        }
    }

    /// The records with ids from `from` on, at most `count` of them, read from the disk at once.
    ///
    /// It answers as many as the segment has: fewer where it ends before, and none where `from` is below its first id or
    /// above its last one. `Damaged` comes as for `get`, for the first record that is not there.
    pub fn get_run<D: Disk>(
        &self,
        disk: &mut D,
        from: u64,
        count: u8,
    ) -> Result<Vec<Record>, SegmentFault>
        requires { D.tells → IsIndexOf self.now ((D.history disk.old).now self.now.file).reads }
        ensures count { IfOk result (λ found. length found.items ≡ run_length self.now from count) }
        ensures found { IfOk result (λ found. RiseByOne from found.items) }
        ensures same { IfOk result (λ found. D.tells →
            found.items ≡ take (run_length self.now from count)
            (drop (from - self.now.first) (records_at (D.history disk.old) self.now.file))) }
        ensures damaged { IfDamaged result (λ file at. (file ≡ self.now.file)
            × ((k : ℕ) × (k < run_length self.now from count)
            × (at ≡ start_of self.now (from + k)))) }
        ensures not_damaged { D.tells → IsNotDamaged result }
        ensures history { D.tells → D.history disk.new ≡ D.history disk.old }
        ensures cause { HasDiskCause (D.faults disk.old) (D.faults disk.new) result }
        ensures keeps { KeepsWorking D.reliable D.unfailing disk.old disk.new
            (IsErrOf result Broke) }
    {
        let count = self.run_length(from, count);
        if count == 0 {
            return Ok(Vec::new(self.alloc));
        }
        let k = (from - self.first) as usize;
        let bytes = self.frames_at(disk, k, count)?;
        let records = records_from(self.alloc, from, count, &bytes)?;
        if records.len() < count {
            return Err(SegmentFault::Damaged(self.file, self.place_of(k + records.len())));
        }
        Ok(records)
    }
}
