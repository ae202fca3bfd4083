//! Appending: the frames of a batch are written by one call of the disk and synced by another.
ghost use Rattle.std.specs.Prelude.{◌≡◌, ℕ, List, ◌+◌, ◌-◌, ◌^◌, ◌<◌, ◌≤◌, ◌++◌, min, All, length, IfOk, OnOk, OnErr, IsErrOf, vec_len, vec_capacity};
ghost use Rattle.tx_model.specs.Records.{IsRecord, RiseByOne};
ghost use Rattle.disk_model.specs.File.{IsImage};
ghost use Rattle.tx_model.specs.Frames.{joined};
ghost use Rattle.disk_model.specs.History.{EachMoment, KeepsWorking};
ghost use Rattle.tx_model.specs.Contents.{records_in};
ghost use Rattle.segment_store.specs.Records.{frames_of, records_at, HasPrefixOf, EachLeftHolds};
ghost use Rattle.segment_store.specs.Index.{count_of, starts_of, IsIndexOfAll, IsTidy, IsLoadable};
ghost use Rattle.disk_model.specs.LoadFaults.{IsNotDamaged, HasDiskCause};
ghost use Rattle.disk_model.specs.declared.unloaded.LoadFault.TheVariants.{Disk as Broke, Memory as NoMemory};

use crate::{Segment, SegmentFault};
use disk_model::Disk;
use record_frame::{body_len, encode_record};
use std::alloc::{AllocError, Global};
use tx_model::Record;

// Frames in a row, and the places at which they begin in a file.
#[derive(Drop)]
struct Frames {
    bytes: Vec<u8>,
    starts: Vec<u64>,
}

/// Bytes of a frame around its body: the length in front and the check behind.
const AROUND: usize = 12;

// How many bytes the frames of the records have.
fn frames_len(records: &[Record]) -> usize
    ensures { result ≡ min (length (joined (frames_of records.now))) (2 ^ 64 - 1) }
{
    let mut len: usize = 0;
    for entry in records {
        len = len.saturating_add(AROUND + body_len(entry));
    }
    len
}

// The frames of the records, of which the first will stand at a place. The places are right where a file has room for
// the frames; else a disk refuses them.
fn encode_all(alloc: Global, at: u64, records: &[Record]) -> Result<Frames, AllocError>
    requires { All IsRecord records.now }
    ensures bytes { IfOk result (λ frames. frames.bytes.items ≡ joined (frames_of records.now)) }
    ensures starts { IfOk result (λ frames. at + length frames.bytes.items < 2 ^ 64 →
        frames.starts.items ≡ starts_of at (frames_of records.now)) }
    ensures count { IfOk result (λ frames. length frames.starts.items ≡ length records.now) }
{
    let mut bytes = Vec::with_capacity(alloc, frames_len(records))?;
    let mut starts = Vec::with_capacity(alloc, records.len())?;
    for entry in records {
        starts.push(at.saturating_add(bytes.len() as u64))?;
        encode_record(alloc, entry, &mut bytes)?;
    }
    Ok(Frames { bytes, starts })
}

// Adds places for which there is room, and so takes no memory.
fn add_in_room(starts: &mut Vec<u64>, more: &[u64])
    requires { vec_len starts.old + length more.now ≤ vec_capacity starts.old }
    ensures { starts.new.items ≡ starts.old.items ++ more.now }
{
    let _ = starts.extend_from_slice(more);
}

impl Segment {
    /// Writes the records' frames behind the last one, and syncs the file.
    ///
    /// After `Disk` nothing is promised of the file but what holds at each moment: load the segment anew.
    pub fn append<D: Disk>(&mut self, disk: &mut D, records: &[Record]) -> Result<(), SegmentFault>
        requires tidy { D.tells → IsTidy self.old ((D.history disk.old).now self.old.file) }
        requires ids { RiseByOne (self.old.first + count_of self.old) records.now }

        // Whatever a crash may leave at any moment has the records of before and a prefix of the new ones, so that loading
        // never finds it damaged.
        ensures any_moment { D.tells → EachMoment self.old.file
            (EachLeftHolds D.plain
            (HasPrefixOf (records_at (D.history disk.old) self.old.file) records.now))
            (D.history disk.old) (D.history disk.new) }
        ensures loadable { D.tells → EachMoment self.old.file
            (EachLeftHolds D.plain (IsLoadable self.old.first (count_of self.old)))
            (D.history disk.old) (D.history disk.new) }

        // Then each image has all of them, and the file is tidy again.
        ensures every_image { OnOk result (D.tells →
            (image : List ℕ) → IsImage ((D.history disk.new).now self.old.file) image →
            records_in image ≡ records_at (D.history disk.old) self.old.file ++ records.now) }
        ensures records { OnOk result (D.tells → records_at (D.history disk.new) self.old.file
            ≡ records_at (D.history disk.old) self.old.file ++ records.now) }
        ensures tidy { OnOk result (D.tells →
            IsTidy self.new ((D.history disk.new).now self.new.file)) }
        ensures count { OnOk result (count_of self.new ≡ count_of self.old + length records.now) }
        ensures place { (self.new.file ≡ self.old.file) × (self.new.first ≡ self.old.first) }

        // A refusal leaves the segment as it was, and running out of memory the disk too.
        ensures err { OnErr result (self.new ≡ self.old) }
        ensures memory { IsErrOf result NoMemory → D.tells →
            D.history disk.new ≡ D.history disk.old }
        ensures not_damaged { IsNotDamaged result }
        ensures cause { HasDiskCause (D.faults disk.old) (D.faults disk.new) result }
        ensures keeps { KeepsWorking D.reliable D.unfailing disk.old disk.new
            (IsErrOf result Broke) }
    {
        let frames = encode_all(self.alloc, self.end, records)?;
        self.starts.reserve(frames.starts.len())?;
        disk.write_at(self.file, self.end, &frames.bytes)?;
        disk.sync(self.file)?;
        add_in_room(&mut self.starts, &frames.starts);
        self.end += frames.bytes.len() as u64;
        Ok(())
    }

    /// Writes the records' frames behind the last one, and does not sync the file: until it is synced, a crash may leave
    /// any part of them. For a file that nothing names yet.
    pub fn stage<D: Disk>(&mut self, disk: &mut D, records: &[Record]) -> Result<(), SegmentFault>
        requires all { D.tells →
            IsIndexOfAll self.old ((D.history disk.old).now self.old.file).reads }
        requires ids { RiseByOne (self.old.first + count_of self.old) records.now }
        ensures all { OnOk result (D.tells →
            IsIndexOfAll self.new ((D.history disk.new).now self.new.file).reads) }
        ensures records { OnOk result (D.tells → records_at (D.history disk.new) self.old.file
            ≡ records_at (D.history disk.old) self.old.file ++ records.now) }
        ensures count { OnOk result (count_of self.new ≡ count_of self.old + length records.now) }
        ensures place { (self.new.file ≡ self.old.file) × (self.new.first ≡ self.old.first) }

        // At each moment the other files are as they were. A refusal leaves the segment so, and running out of memory the disk.
        ensures others { D.tells →
            EachMoment self.old.file (λ f. Unit {0}) (D.history disk.old) (D.history disk.new) }
        ensures err { OnErr result (self.new ≡ self.old) }
        ensures memory { IsErrOf result NoMemory → D.tells →
            D.history disk.new ≡ D.history disk.old }
        ensures not_damaged { IsNotDamaged result }
        ensures cause { HasDiskCause (D.faults disk.old) (D.faults disk.new) result }
        ensures keeps { KeepsWorking D.reliable D.unfailing disk.old disk.new
            (IsErrOf result Broke) }
    {
        let staged = encode_all(self.alloc, self.end, records)?;
        self.starts.reserve(staged.starts.len())?;
        disk.write_at(self.file, self.end, &staged.bytes)?;
        add_in_room(&mut self.starts, &staged.starts);
        self.end += staged.bytes.len() as u64;
        Ok(())
    }
}
