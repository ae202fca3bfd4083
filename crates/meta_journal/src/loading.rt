//! Loading: the file is read at once, and its entries up to the first frame that is not whole and right are taken.
ghost use Rattle.std.specs.Prelude.{◌≡◌, ℕ, List, [], ◌∷◌, ◌+◌, ◌++◌, ◌<◌, ◌≤◌, ◌^◌, All, length, IfOk, OnOk, IsErrOf};
ghost use Rattle.std.specs.List.{flat_map};
ghost use Rattle.tx_model.specs.Spelling.{IsMeta, meta_frame};
ghost use Rattle.tx_model.specs.Framing.{meta_len};
ghost use Rattle.tx_model.specs.Frames.{joined, frames_in};
ghost use Rattle.disk_model.specs.Frames.{IsFirm, HasFirmFrames};
ghost use Rattle.disk_model.specs.History.{EachMoment, KeepsWorking};
ghost use Rattle.tx_model.specs.Contents.{entries_in};
ghost use Rattle.meta_journal.specs.Entries.{entries_at, EachLeftHas, IsTidy};
ghost use Rattle.meta_journal.specs.Faults.{HasDiskCause};
ghost use Rattle.meta_journal.specs.declared.fault.JournalFault.TheVariants.{Disk as Broke, Memory as NoMemory};

use crate::{Journal, JournalFault};
use disk_model::{Disk, read_full};
use record_frame::decode_meta;
use std::alloc::{AllocError, Global};
use tx_model::Meta;

// Entries, and the place where the last one's frame ends.
#[derive(Drop)]
struct Front {
    entries: Vec<Meta>,
    end: u64,
}

// All of file 0.
fn read_all<D: Disk>(alloc: Global, disk: &mut D) -> Result<Vec<u8>, JournalFault>
    ensures bytes { IfOk result (λ v. D.tells → v.items ≡ ((D.history disk.old).now 0).reads) }
    ensures history { D.tells → D.history disk.new ≡ D.history disk.old }
    ensures cause { HasDiskCause (D.faults disk.old) (D.faults disk.new) result }
    ensures keeps { KeepsWorking D.reliable D.unfailing disk.old disk.new (IsErrOf result Broke) }
{
    let len = disk.len(0)?;
    let mut bytes = vec![in alloc; 0u8; len as usize]?;
    read_full(disk, 0, 0, &mut bytes)?;
    Ok(bytes)
}

// The entries of the whole and right frames at the front.
fn decode_all(alloc: Global, bytes: &[u8]) -> Result<Front, AllocError>
    ensures entries { IfOk result (λ front. front.entries.items ≡ entries_in bytes.now) }
    ensures end { IfOk result (λ front.
        front.end ≡ length (joined (frames_in meta_len bytes.now))) }
    ensures valid { IfOk result (λ front. All IsMeta front.entries.items) }
    ensures places { IfOk result (λ front. (front.end ≡ length (flat_map meta_frame front.entries.items))
        × (front.end < 2 ^ 64)) }
{
    let mut entries = Vec::new(alloc);
    let mut rest = bytes;
    'frames: loop {
        match decode_meta(rest) {
            Ok((entry, len)) => {
                entries.push(entry)?;
                let (_, after) = rest.split_at(len);
                rest = after;
            }
            Err(_) => {
                return Ok(Front {
                    entries,
                    end: (bytes.len() - rest.len()) as u64,
                });
            }
        }
    }
}

impl Journal {
    /// Reads the entries of file 0, cuts the file at the first frame that is not whole and right, and syncs it, also
    /// where nothing was cut.
    pub fn load<D: Disk>(alloc: Global, disk: &mut D) -> Result<(Journal, Vec<Meta>), JournalFault>
        ensures entries { IfOk result (λ x. D.tells →
            x.1.items ≡ entries_at (D.history disk.old)) }
        ensures tidy { IfOk result (λ x. D.tells → IsTidy x.0 ((D.history disk.new).now 0)) }
        ensures cut { OnOk result (D.tells → ((D.history disk.new).now 0).reads
            ≡ joined (frames_in meta_len ((D.history disk.old).now 0).reads)) }
        ensures same { OnOk result (D.tells →
            entries_at (D.history disk.new) ≡ entries_at (D.history disk.old)) }
        ensures memory { IsErrOf result NoMemory → D.tells →
            D.history disk.new ≡ D.history disk.old }

        // Where the frames that are read are synced and were put, and no frame was put behind them, it is so at each
        // moment, also for a loading after this one. Then whatever a crash may leave holds the entries of before.
        ensures firm { D.tells → HasFirmFrames meta_len ((D.history disk.old).now 0) →
            EachMoment 0
            (IsFirm meta_len (frames_in meta_len ((D.history disk.old).now 0).reads))
            (D.history disk.old) (D.history disk.new) }
        ensures any_moment { D.tells → HasFirmFrames meta_len ((D.history disk.old).now 0) →
            EachMoment 0
            (EachLeftHas D.plain (λ entries. entries ≡ entries_at (D.history disk.old)))
            (D.history disk.old) (D.history disk.new) }
        ensures cause { HasDiskCause (D.faults disk.old) (D.faults disk.new) result }
        ensures keeps { KeepsWorking D.reliable D.unfailing disk.old disk.new (IsErrOf result Broke) }
    {
        let (journal, entries) = Journal::read(alloc, disk)?;
        journal.trim(disk)?;
        Ok((journal, entries))
    }

    /// The first part of `load`: it reads, and leaves the disk as it is.
    pub fn read<D: Disk>(alloc: Global, disk: &mut D) -> Result<(Journal, Vec<Meta>), JournalFault>
        ensures valid { IfOk result (λ x. All IsMeta x.1.items) }
        ensures places { IfOk result (λ x. (x.0 ≡ length (flat_map meta_frame x.1.items)) × (x.0 < 2 ^ 64)) }
        ensures entries { IfOk result (λ x. D.tells →
            x.1.items ≡ entries_at (D.history disk.old)) }
        ensures end { IfOk result (λ x. D.tells →
            x.0 ≡ length (joined (frames_in meta_len ((D.history disk.old).now 0).reads))) }
        ensures history { D.tells → D.history disk.new ≡ D.history disk.old }
        ensures cause { HasDiskCause (D.faults disk.old) (D.faults disk.new) result }
        ensures keeps { KeepsWorking D.reliable D.unfailing disk.old disk.new (IsErrOf result Broke) }
    {
        let bytes = read_all(alloc, disk)?;
        let front = decode_all(alloc, &bytes)?;
        Ok((Journal { end: front.end }, front.entries))
    }

    /// Where the last entry ends.
    pub fn end(&self) -> u64
        ensures { result ≡ self.now }
    {
        self.end
    }

    /// The second part of `load`: cuts the file where the last entry ends, and syncs it, also where nothing was cut.
    pub fn trim<D: Disk>(&self, disk: &mut D) -> Result<(), JournalFault>
        requires { D.tells →
            self.now ≡ length (joined (frames_in meta_len ((D.history disk.old).now 0).reads)) }
        ensures tidy { OnOk result (D.tells → IsTidy self.now ((D.history disk.new).now 0)) }
        ensures cut { OnOk result (D.tells → ((D.history disk.new).now 0).reads
            ≡ joined (frames_in meta_len ((D.history disk.old).now 0).reads)) }
        ensures same { OnOk result (D.tells →
            entries_at (D.history disk.new) ≡ entries_at (D.history disk.old)) }
        ensures memory { IsErrOf result NoMemory → D.tells →
            D.history disk.new ≡ D.history disk.old }

        // As for `load`.
        ensures firm { D.tells → HasFirmFrames meta_len ((D.history disk.old).now 0) →
            EachMoment 0
            (IsFirm meta_len (frames_in meta_len ((D.history disk.old).now 0).reads))
            (D.history disk.old) (D.history disk.new) }
        ensures any_moment { D.tells → HasFirmFrames meta_len ((D.history disk.old).now 0) →
            EachMoment 0
            (EachLeftHas D.plain (λ entries. entries ≡ entries_at (D.history disk.old)))
            (D.history disk.old) (D.history disk.new) }
        ensures cause { HasDiskCause (D.faults disk.old) (D.faults disk.new) result }
        ensures keeps { KeepsWorking D.reliable D.unfailing disk.old disk.new (IsErrOf result Broke) }
    {
        disk.cut(0, self.end)?;
        disk.sync(0)?;
        Ok(())
    }
}
