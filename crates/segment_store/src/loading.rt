//! Loading a file of records.
ghost use Rattle.std.specs.Prelude.{◌≡◌, ◌+◌, ◌^◌, ◌≤◌, length, IfNone, IfOk, IfSome, OnOk, IsErrOf};
ghost use Rattle.tx_model.specs.Framing.{record_len};
ghost use Rattle.tx_model.specs.Frames.{joined, frames_in};
ghost use Rattle.tx_model.specs.Contents.{IsDamagedAt};
ghost use Rattle.disk_model.specs.Frames.{IsFirm, HasFirmFrames};
ghost use Rattle.disk_model.specs.History.{EachMoment, KeepsWorking};
ghost use Rattle.disk_model.specs.LoadFaults.{IfDamaged, IsNotDamaged, IsRefusal, HasDiskCause};
ghost use Rattle.disk_model.specs.declared.unloaded.LoadFault.TheVariants.{Disk as Broke};
ghost use Rattle.segment_store.specs.Records.{records_at, EachLeftHolds};
ghost use Rattle.segment_store.specs.Index.{count_of, IsIndexOf, IsWholeIndexOf, IsTidy, IsLoadable, IsDamagedWithin, IsDamagedBehind};

use crate::reading::Reading;
use crate::{Segment, SegmentFault};
use disk_model::Disk;
use std::alloc::Global;

/// What was read of a file.
#[derive(Drop)]
pub struct Found {
    /// All records of the file, or those in front of the first one with a wrong id.
    pub segment: Segment,
    /// How many whole and right frames the file begins with, those from the wrong id on among them.
    pub frames: u64,
    /// Where, behind the counted records, a whole and right frame with another id than the next stands.
    pub wrong: Option<u64>,
}

impl Segment {
    /// Reads a file whose first record has the id `first`, cuts it at the first frame that is not whole and right, and
    /// syncs it, also where nothing was cut.
    ///
    /// `Damaged` comes for a place at which no whole and right frame stands though fewer than `count` stand before it,
    /// or one with another id than the next. The file is then neither cut nor synced.
    pub fn load<D: Disk>(
        alloc: Global,
        disk: &mut D,
        file: u32,
        first: u64,
        count: u64,
    ) -> Result<Segment, SegmentFault>
        // It has all records of the file, which has no tail then and is on the disk.
        ensures place { IfOk result
            (λ s. (s.file ≡ file) × (s.first ≡ first) × (count ≤ count_of s)) }
        ensures tidy { IfOk result (λ s. D.tells → IsTidy s ((D.history disk.new).now s.file)) }
        ensures records { OnOk result (D.tells →
            records_at (D.history disk.new) file ≡ records_at (D.history disk.old) file) }
        ensures cut { OnOk result (D.tells →
            ((D.history disk.new).now file).reads
            ≡ joined (frames_in record_len ((D.history disk.old).now file).reads)) }

        // A place is damaged exactly so.
        ensures loadable { OnOk result (D.tells →
            IsLoadable first count (records_at (D.history disk.old) file)) }
        ensures damaged { IfDamaged result (λ other at. (other ≡ file) ×
            (D.tells → IsDamagedAt first count ((D.history disk.old).now file).reads at)) }
        ensures not_damaged { D.tells →
            IsLoadable first count (records_at (D.history disk.old) file) → IsNotDamaged result }

        // After `Damaged` and `Memory` each image is one of before.
        ensures refused { IsRefusal result → D.tells → D.history disk.new ≡ D.history disk.old }

        // Where the frames that are read are synced and were put, and no frame was put behind them, it is so at each
        // moment, also for a loading after this one. Then whatever a crash may leave holds the records of before.
        ensures firm { D.tells → HasFirmFrames record_len ((D.history disk.old).now file) →
            EachMoment file
            (IsFirm record_len (frames_in record_len ((D.history disk.old).now file).reads))
            (D.history disk.old) (D.history disk.new) }
        ensures any_moment { D.tells → HasFirmFrames record_len ((D.history disk.old).now file) →
            EachMoment file
            (EachLeftHolds D.plain (λ records. records ≡ records_at (D.history disk.old) file))
            (D.history disk.old) (D.history disk.new) }
        ensures cause { HasDiskCause (D.faults disk.old) (D.faults disk.new) result }
        ensures keeps { KeepsWorking D.reliable D.unfailing disk.old disk.new
            (IsErrOf result Broke) }
    {
        let found = Segment::read(alloc, disk, file, first, count)?;
        if let Some(at) = found.wrong {
            return Err(SegmentFault::Damaged(file, at));
        }
        found.segment.trim(disk)?;
        Ok(found.segment)
    }

    /// The first part of `load`: it reads, and leaves the disk as it is.
    ///
    /// `Damaged` comes for a place among the counted records alone. One behind them is told beside the records in front
    /// of it, for a caller who looks at other files first.
    pub fn read<D: Disk>(
        alloc: Global,
        disk: &mut D,
        file: u32,
        first: u64,
        count: u64,
    ) -> Result<Found, SegmentFault>
        ensures place { IfOk result (λ found. (found.segment.file ≡ file)
            × (found.segment.first ≡ first) × (count ≤ count_of found.segment)) }
        ensures ids { IfOk result (λ found. first ≤ 2 ^ 48 → first + count_of found.segment ≤ 2 ^ 48) }
        ensures frames { IfOk result (λ found. D.tells →
            found.frames ≡ length (records_at (D.history disk.old) file)) }

        // With no wrong id, the segment has all records of the file.
        ensures all { IfOk result (λ found. IfNone found.wrong
            (found.frames ≡ count_of found.segment)) }
        ensures whole { IfOk result (λ found. IfNone found.wrong (D.tells →
            IsWholeIndexOf found.segment ((D.history disk.old).now file).reads)) }
        ensures loadable { IfOk result (λ found. IfNone found.wrong (D.tells →
            IsLoadable first count (records_at (D.history disk.old) file))) }

        // Behind the counted records a place is damaged exactly so, and the segment has those in front of it.
        ensures wrong { IfOk result (λ found. IfSome found.wrong (λ at. D.tells →
            IsIndexOf found.segment ((D.history disk.old).now file).reads
            × (at ≡ found.segment.end)
            × IsDamagedBehind first count ((D.history disk.old).now file).reads at)) }

        // Among them a place is damaged exactly so.
        ensures damaged { IfDamaged result (λ other at. (other ≡ file) ×
            (D.tells → IsDamagedWithin first count ((D.history disk.old).now file).reads at)) }
        ensures not_damaged { D.tells →
            IsLoadable first count (records_at (D.history disk.old) file) → IsNotDamaged result }
        ensures history { D.tells → D.history disk.new ≡ D.history disk.old }
        ensures cause { HasDiskCause (D.faults disk.old) (D.faults disk.new) result }
        ensures keeps { KeepsWorking D.reliable D.unfailing disk.old disk.new
            (IsErrOf result Broke) }
    {
        let mut reading = Reading::new(alloc, file, first, count);
        reading.read_all(disk)?;
        let Reading {
            segment,
            frames,
            ..
        } = reading;
        let right = segment.count();
        let end = segment.end;
        if right < count {
            return Err(SegmentFault::Damaged(file, end));
        }
        if right < frames {
            return Ok(Found {
                segment,
                frames,
                wrong: Some(end),
            });
        }
        Ok(Found {
            segment,
            frames,
            wrong: None,
        })
    }

    /// The second part of `load`: cuts the file where the last frame ends, and syncs it, also where nothing was cut.
    pub fn trim<D: Disk>(&self, disk: &mut D) -> Result<(), SegmentFault>
        requires { D.tells →
            IsWholeIndexOf self.now ((D.history disk.old).now self.now.file).reads }
        ensures tidy { OnOk result (D.tells →
            IsTidy self.now ((D.history disk.new).now self.now.file)) }
        ensures cut { OnOk result (D.tells → ((D.history disk.new).now self.now.file).reads
            ≡ joined (frames_in record_len ((D.history disk.old).now self.now.file).reads)) }
        ensures records { OnOk result (D.tells → records_at (D.history disk.new) self.now.file
            ≡ records_at (D.history disk.old) self.now.file) }
        ensures memory { IsRefusal result → D.tells → D.history disk.new ≡ D.history disk.old }
        ensures not_damaged { IsNotDamaged result }

        // As for `load`.
        ensures firm { D.tells → HasFirmFrames record_len ((D.history disk.old).now self.now.file) →
            EachMoment self.now.file
            (IsFirm record_len (frames_in record_len ((D.history disk.old).now self.now.file).reads))
            (D.history disk.old) (D.history disk.new) }
        ensures any_moment { D.tells → HasFirmFrames record_len ((D.history disk.old).now self.now.file) →
            EachMoment self.now.file
            (EachLeftHolds D.plain (λ records. records ≡ records_at (D.history disk.old) self.now.file))
            (D.history disk.old) (D.history disk.new) }
        ensures cause { HasDiskCause (D.faults disk.old) (D.faults disk.new) result }
        ensures keeps { KeepsWorking D.reliable D.unfailing disk.old disk.new
            (IsErrOf result Broke) }
    {
        disk.cut(self.file, self.end)?;
        disk.sync(self.file)?;
        Ok(())
    }
}
