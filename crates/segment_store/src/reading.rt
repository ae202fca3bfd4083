//! Reading a file: each frame is read and checked once, a piece of the file at a time.
ghost use Rattle.std.specs.Prelude.{◌≡◌, ℕ, List, ◌+◌, ◌-◌, ◌^◌, ◌<◌, ◌≤◌, ◌++◌, true, false, length, drop, IfOk, OnOk, IsErrOf};
ghost use Rattle.tx_model.specs.Framing.{record_len};
ghost use Rattle.disk_model.specs.History.{KeepsWorking};
ghost use Rattle.disk_model.specs.LoadFaults.{IfDamaged, HasDiskCause};
ghost use Rattle.disk_model.specs.declared.unloaded.LoadFault.TheVariants.{Disk as Broke};
ghost use Rattle.segment_store.specs.Index.{IsDamagedWithin};
ghost use Rattle.segment_store.specs.Loading.{IsReadingOf, IsWholeReadingOf, IsAligned, IsReadOf, IsSameFile, IsFit};

use crate::{Segment, SegmentFault};
use disk_model::{Disk, Stretch};
use record_frame::{FrameFault, check_record, framed_id};
use std::alloc::Global;

/// Bytes that one call of the disk reads at most while a file is loaded.
const PIECE: usize = 65536;

// What was read of a file so far.
#[derive(Drop)]
pub(crate) struct Reading {
    // The records in front of the first wrong id.
    pub(crate) segment: Segment,
    // How many records are counted. None of them has a wrong id.
    count: u64,
    // How many frames were read, and where the last of them ends.
    pub(crate) frames: u64,
    end: u64,
}

impl Reading {
    // Nothing is read yet.
    pub(crate) fn new(alloc: Global, file: u32, first: u64, count: u64) -> Reading
        ensures same { (result.segment.file ≡ file) × (result.segment.first ≡ first)
            × (result.count ≡ count) }
        ensures none { result.end ≡ 0 }
        ensures fit { IsFit result }
        ensures reading { (bytes : List ℕ) → IsReadingOf result bytes }
    {
        Reading {
            segment: Segment::new(alloc, file, first),
            count,
            frames: 0,
            end: 0,
        }
    }

    // Takes in the frame with this length at the front of the bytes, which stand in the file where the last frame ends.
    fn note(&mut self, bytes: &[u8], len: usize) -> Result<(), SegmentFault>
        requires frame { (len ≡ record_len bytes.now) × (0 < len) }
        requires room { self.old.end + len < 2 ^ 64 }
        requires fit { IsFit self.old }
        ensures fit { OnOk result (IsFit self.new) }
        ensures same { IsSameFile self.old self.new }
        ensures end { OnOk result (self.new.end ≡ self.old.end + len) }
        ensures reading { OnOk result
            ((all more : List ℕ) → drop self.old.end all ≡ bytes.now ++ more →
            IsReadingOf self.old all → IsReadingOf self.new all) }
        ensures damaged { IfDamaged result (λ file at. (file ≡ self.old.segment.file) ×
            ((all more : List ℕ) → drop self.old.end all ≡ bytes.now ++ more →
            IsReadingOf self.old all →
            IsDamagedWithin self.old.segment.first self.old.count all at)) }
        ensures no_fault { IsErrOf result Broke → ⊥ }
    {
        let is_right = self.segment.count() == self.frames;
        self.frames += 1;
        self.end += len as u64;
        if !is_right {
            return Ok(());
        }
        if self.segment.is_next(framed_id(bytes)) {
            self.segment.note(len)?;
            return Ok(());
        }
        if self.segment.count() < self.count {
            return Err(SegmentFault::Damaged(self.segment.file, self.segment.end));
        }
        Ok(())
    }

    // Takes in each whole and right frame at the front of the bytes, which stand in the file where the last frame ends.
    // Answers whether more bytes may make another.
    fn note_all(&mut self, bytes: &[u8]) -> Result<bool, SegmentFault>
        requires room { self.old.end + length bytes.now < 2 ^ 64 }
        requires fit { IsFit self.old }
        ensures fit { OnOk result (IsFit self.new) }
        ensures same { IsSameFile self.old self.new }
        ensures used { OnOk result ((self.old.end ≤ self.new.end)
            × (self.new.end ≤ self.old.end + length bytes.now)) }
        ensures reading { OnOk result
            ((all more : List ℕ) → drop self.old.end all ≡ bytes.now ++ more →
            IsReadingOf self.old all → IsReadingOf self.new all) }
        ensures none { OnOk result (record_len (drop (self.new.end - self.old.end) bytes.now) ≡ 0) }
        ensures last { IfOk result (λ may_go_on. may_go_on ≡ false → (more : List ℕ) →
            record_len (drop (self.new.end - self.old.end) bytes.now ++ more) ≡ 0) }
        ensures damaged { IfDamaged result (λ file at. (file ≡ self.old.segment.file) ×
            ((all more : List ℕ) → drop self.old.end all ≡ bytes.now ++ more →
            IsReadingOf self.old all →
            IsDamagedWithin self.old.segment.first self.old.count all at)) }
        ensures no_fault { IsErrOf result Broke → ⊥ }
    {
        let mut rest = bytes;
        'frames: loop {
            match check_record(rest) {
                Ok(len) => {
                    self.note(rest, len)?;
                    let (_, after) = rest.split_at(len);
                    rest = after;
                }
                Err(FrameFault::Short) => return Ok(true),
                Err(_) => return Ok(false),
            }
        }
    }

    // Reads the next piece of the file, and takes in what is whole. Answers whether there may be more.
    fn read_on<D: Disk>(
        &mut self,
        disk: &mut D,
        stretch: &mut Stretch,
    ) -> Result<bool, SegmentFault>
        requires aligned { IsAligned self.old stretch.old }
        requires fit { IsFit self.old }
        ensures fit { OnOk result (IsFit self.new) }
        ensures same { IsSameFile self.old self.new }
        ensures aligned { OnOk result
            (IsAligned self.new stretch.new × (stretch.new.end ≡ stretch.old.end)) }
        ensures progress { IfOk result (λ more. more ≡ true → stretch.old.next < stretch.new.next) }
        ensures read { IfOk result (λ more. more ≡ true → D.tells →
            IsReadOf self.old stretch.old ((D.history disk.old).now self.old.segment.file).reads →
            IsReadOf self.new stretch.new ((D.history disk.old).now self.old.segment.file).reads) }
        ensures last { IfOk result (λ more. more ≡ false → D.tells →
            IsReadOf self.old stretch.old ((D.history disk.old).now self.old.segment.file).reads →
            IsWholeReadingOf self.new ((D.history disk.old).now self.old.segment.file).reads) }
        ensures damaged { IfDamaged result (λ file at. (file ≡ self.old.segment.file) ×
            (D.tells → IsReadOf self.old stretch.old
            ((D.history disk.old).now self.old.segment.file).reads →
            IsDamagedWithin self.old.segment.first self.old.count
            ((D.history disk.old).now self.old.segment.file).reads at)) }
        ensures history { D.tells → D.history disk.new ≡ D.history disk.old }
        ensures cause { HasDiskCause (D.faults disk.old) (D.faults disk.new) result }
        ensures keeps { KeepsWorking D.reliable D.unfailing disk.old disk.new
            (IsErrOf result Broke) }
    {
        if stretch.refill(disk)? == 0 {
            return Ok(false);
        }
        let before = self.end;
        let more = self.note_all(&stretch.bytes)?;
        stretch.forget((self.end - before) as usize);
        Ok(more)
    }

    // Takes in all whole and right frames from the front of the file.
    pub(crate) fn read_all<D: Disk>(&mut self, disk: &mut D) -> Result<(), SegmentFault>
        requires none { self.old.end ≡ 0 }
        requires fit { IsFit self.old }
        requires reading { (bytes : List ℕ) → IsReadingOf self.old bytes }
        ensures fit { OnOk result (IsFit self.new) }
        ensures same { IsSameFile self.old self.new }
        ensures reading { OnOk result (D.tells →
            IsWholeReadingOf self.new ((D.history disk.old).now self.old.segment.file).reads) }
        ensures damaged { IfDamaged result (λ file at. (file ≡ self.old.segment.file) ×
            (D.tells → IsDamagedWithin self.old.segment.first self.old.count
            ((D.history disk.old).now self.old.segment.file).reads at)) }
        ensures history { D.tells → D.history disk.new ≡ D.history disk.old }
        ensures cause { HasDiskCause (D.faults disk.old) (D.faults disk.new) result }
        ensures keeps { KeepsWorking D.reliable D.unfailing disk.old disk.new
            (IsErrOf result Broke) }
    {
        let len = disk.len(self.segment.file)?;
        let mut stretch = Stretch::new(
            self.segment.alloc,
            self.segment.file,
            self.end,
            len,
            PIECE,
        )?;
        'pieces: while stretch.next < stretch.end {
            if !self.read_on(disk, &mut stretch)? {
                return Ok(());
            }
        }
        Ok(())
    }
}
