//! Writing: an entry is written behind the last one by one call of the disk, and synced by another.
ghost use Rattle.std.specs.Prelude.{◌≡◌, ◌<◌, ◌^◌, ℕ, OnOk, OnErr, IsErrOf};
ghost use Rattle.tx_model.specs.declared.meta.Meta.TheVariants.{Promise, Adopt, Low, Roll};
ghost use Rattle.tx_model.specs.Spelling.{IsMeta, IsNextPlace, IsCount};
ghost use Rattle.tx_model.specs.Records.{IsPlace};
ghost use Rattle.io_core.specs.Causes.{Rose};
ghost use Rattle.disk_model.specs.History.{EachMoment, KeepsWorking};
ghost use Rattle.meta_journal.specs.Entries.{entries_at, HasEntry, EachLeftHas, IsTidy, IsEntered};
ghost use Rattle.meta_journal.specs.Faults.{HasDiskCause};
ghost use Rattle.meta_journal.specs.declared.fault.JournalFault.TheVariants.{Disk as Broke, Memory as NoMemory};

use crate::JournalFault;
use disk_model::Disk;
use record_frame::{META_FRAME, encode_meta};
use std::marker::Model;
use tx_model::Meta;

/// A journal of meta entries in file 0. It keeps where the last entry ends.
#[derive(Drop)]
pub struct Journal {
    pub(crate) end: u64,
}

impl Model for Journal {
    ghost Value = { ℕ };

    ghost view = { λ j. j.end };
}

impl Journal {
    // Writes an entry behind the last one, and syncs the file. It takes no memory of its own.
    fn write<D: Disk>(&mut self, disk: &mut D, entry: Meta) -> Result<(), JournalFault>
        requires tidy { D.tells → IsTidy self.old ((D.history disk.old).now 0) }
        requires valid { IsMeta entry }
        ensures any_moment { D.tells → EachMoment 0
            (EachLeftHas D.plain (HasEntry (entries_at (D.history disk.old)) entry))
            (D.history disk.old) (D.history disk.new) }
        ensures done { OnOk result (D.tells →
            IsEntered entry self.new (D.history disk.old) (D.history disk.new)) }
        ensures err { OnErr result (self.new ≡ self.old) }
        ensures memory { IsErrOf result NoMemory → D.tells →
            D.history disk.new ≡ D.history disk.old }
        ensures cause { HasDiskCause (D.faults disk.old) (D.faults disk.new) result }
        ensures want { IsErrOf result NoMemory → Rose (D.wants disk.old) (D.wants disk.new) }
        ensures keeps { KeepsWorking D.reliable D.unfailing disk.old disk.new
            (IsErrOf result Broke) }
    {
        let mut frame = [0; META_FRAME];
        let len = encode_meta(&entry, &mut frame);
        let (bytes, _) = frame.split_at(len);
        disk.write_at(0, self.end, bytes)?;
        disk.sync(0)?;
        self.end += len as u64;
        Ok(())
    }

    /// Writes that no session below this one is taken part in.
    ///
    /// At each moment of the call the entry is there or not, and after Ok it is. After `Disk` nothing is promised of the
    /// file but what holds at each moment: load the journal anew. `Memory` is the disk's own. So it is of each entry.
    pub fn promise<D: Disk>(&mut self, disk: &mut D, session: u64) -> Result<(), JournalFault>
        requires tidy { D.tells → IsTidy self.old ((D.history disk.old).now 0) }
        requires range { IsPlace session }
        ensures any_moment { D.tells → EachMoment 0
            (EachLeftHas D.plain (HasEntry (entries_at (D.history disk.old)) (Promise session)))
            (D.history disk.old) (D.history disk.new) }
        ensures done { OnOk result (D.tells →
            IsEntered (Promise session) self.new (D.history disk.old) (D.history disk.new)) }
        ensures err { OnErr result (self.new ≡ self.old) }
        ensures memory { IsErrOf result NoMemory → D.tells →
            D.history disk.new ≡ D.history disk.old }
        ensures cause { HasDiskCause (D.faults disk.old) (D.faults disk.new) result }
        ensures want { IsErrOf result NoMemory → Rose (D.wants disk.old) (D.wants disk.new) }
        ensures keeps { KeepsWorking D.reliable D.unfailing disk.old disk.new
            (IsErrOf result Broke) }
    {
        self.write(disk, Meta::Promise(session))
    }

    /// Writes that a session's log was adopted: its records from `first` on stand in a file of their own, and it has
    /// `count` in all.
    pub fn adopt<D: Disk>(
        &mut self,
        disk: &mut D,
        session: u64,
        first: u64,
        file: u32,
        count: u64,
    ) -> Result<(), JournalFault>
        requires tidy { D.tells → IsTidy self.old ((D.history disk.old).now 0) }
        requires session { IsPlace session }
        requires first { IsNextPlace first }
        requires count { IsCount count }
        ensures any_moment { D.tells → EachMoment 0
            (EachLeftHas D.plain (HasEntry (entries_at (D.history disk.old)) (Adopt session first file count)))
            (D.history disk.old) (D.history disk.new) }
        ensures done { OnOk result (D.tells →
            IsEntered (Adopt session first file count) self.new (D.history disk.old) (D.history disk.new)) }
        ensures err { OnErr result (self.new ≡ self.old) }
        ensures memory { IsErrOf result NoMemory → D.tells →
            D.history disk.new ≡ D.history disk.old }
        ensures cause { HasDiskCause (D.faults disk.old) (D.faults disk.new) result }
        ensures want { IsErrOf result NoMemory → Rose (D.wants disk.old) (D.wants disk.new) }
        ensures keeps { KeepsWorking D.reliable D.unfailing disk.old disk.new
            (IsErrOf result Broke) }
    {
        self.write(disk, Meta::Adopt(session, first, file, count))
    }

    /// Writes that the records from `first` on stand in a new file.
    pub fn roll<D: Disk>(&mut self, disk: &mut D, file: u32, first: u64) -> Result<(), JournalFault>
        requires tidy { D.tells → IsTidy self.old ((D.history disk.old).now 0) }
        requires range { IsNextPlace first }
        ensures any_moment { D.tells → EachMoment 0
            (EachLeftHas D.plain (HasEntry (entries_at (D.history disk.old)) (Roll file first)))
            (D.history disk.old) (D.history disk.new) }
        ensures done { OnOk result (D.tells →
            IsEntered (Roll file first) self.new (D.history disk.old) (D.history disk.new)) }
        ensures err { OnErr result (self.new ≡ self.old) }
        ensures memory { IsErrOf result NoMemory → D.tells →
            D.history disk.new ≡ D.history disk.old }
        ensures cause { HasDiskCause (D.faults disk.old) (D.faults disk.new) result }
        ensures want { IsErrOf result NoMemory → Rose (D.wants disk.old) (D.wants disk.new) }
        ensures keeps { KeepsWorking D.reliable D.unfailing disk.old disk.new
            (IsErrOf result Broke) }
    {
        self.write(disk, Meta::Roll(file, first))
    }

    /// Writes the low mark.
    pub fn low<D: Disk>(&mut self, disk: &mut D, low: u64) -> Result<(), JournalFault>
        requires tidy { D.tells → IsTidy self.old ((D.history disk.old).now 0) }
        requires range { IsCount low }
        ensures any_moment { D.tells → EachMoment 0
            (EachLeftHas D.plain (HasEntry (entries_at (D.history disk.old)) (Low low)))
            (D.history disk.old) (D.history disk.new) }
        ensures done { OnOk result (D.tells →
            IsEntered (Low low) self.new (D.history disk.old) (D.history disk.new)) }
        ensures err { OnErr result (self.new ≡ self.old) }
        ensures memory { IsErrOf result NoMemory → D.tells →
            D.history disk.new ≡ D.history disk.old }
        ensures cause { HasDiskCause (D.faults disk.old) (D.faults disk.new) result }
        ensures want { IsErrOf result NoMemory → Rose (D.wants disk.old) (D.wants disk.new) }
        ensures keeps { KeepsWorking D.reliable D.unfailing disk.old disk.new
            (IsErrOf result Broke) }
    {
        self.write(disk, Meta::Low(low))
    }
}
