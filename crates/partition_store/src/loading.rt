//! Loading: the journal and the files that its entries name are read, and only then are tails cut away.
ghost use Rattle.std.specs.Prelude.{◌≡◌, ℕ, false, true, None, Some, IfOk, OnOk, OnErr, IsErrOf};
ghost use Rattle.disk_model.specs.History.{AtEach, KeepsWorking};
ghost use Rattle.disk_model.specs.LoadFaults.{IfDamaged, IsNotDamaged, HasDiskCause};
ghost use Rattle.disk_model.specs.declared.unloaded.LoadFault.TheVariants.{Disk as Broke, Memory as NoMemory};
ghost use Rattle.proto_model.specs.Held.{Held, held_in, replica_of};
ghost use Rattle.proto_model.specs.Damages.{IsDamaged};
ghost use Rattle.partition_store.specs.Stands.{reads_of, held_now, LeavesAtEach};
ghost use Rattle.partition_store.specs.Stores.{state_by, IsDurable};
ghost use Rattle.partition_store.specs.Loading.{IsLoadedFit, AreReadFrom, IsLoadedFrom, frames_of, AreFirm, HasFirmFiles, AreTrimmedOf, disk_of, answer_of};

use crate::Store;
use crate::taking::{Loaded, take_all};
use crate::trimming::trim;
use disk_model::{Disk, LoadFault, Unloaded};
use meta_journal::Journal;
use std::alloc::Global;
use tx_model::Meta;

// What was read of a disk.
#[derive(Drop)]
struct Parts {
    journal: Journal,
    entries: Vec<Meta>,
    loaded: Loaded,
}

// The first part of loading: it reads, and leaves the disk as it is.
fn read_parts<D: Disk>(alloc: Global, disk: &mut D) -> Result<Parts, LoadFault>
    ensures fit { IfOk result (λ parts. IsLoadedFit parts.loaded × (parts.loaded.wrong ≡ None)) }
    ensures read { IfOk result (λ parts. D.tells →
        AreReadFrom (D.history disk.old).now parts.journal parts.entries.items parts.loaded) }
    ensures damaged { IfDamaged result (λ file at. D.tells →
        IsDamaged (reads_of (D.history disk.old).now) file at) }
    ensures history { D.tells → D.history disk.new ≡ D.history disk.old }
    ensures cause { HasDiskCause (D.faults disk.old) (D.faults disk.new) result }
    ensures keeps { KeepsWorking D.reliable D.unfailing disk.old disk.new (IsErrOf result Broke) }
{
    let (journal, entries) = Journal::read(alloc, disk)?;
    let loaded = take_all(alloc, disk, &entries)?;
    Ok(Parts {
        journal,
        entries,
        loaded,
    })
}

// Both parts: it cuts tails away once all is read.
fn load_parts<D: Disk>(alloc: Global, disk: &mut D) -> Result<Parts, LoadFault>
    ensures fit { IfOk result (λ parts. IsLoadedFit parts.loaded × (parts.loaded.wrong ≡ None)) }
    ensures loaded { IfOk result (λ parts. D.tells →
        IsLoadedFrom (D.history disk.old).now (D.history disk.new).now
        parts.journal parts.entries.items parts.loaded) }
    ensures damaged { IfDamaged result (λ file at. D.tells →
        IsDamaged (reads_of (D.history disk.old).now) file at
        × (D.history disk.new ≡ D.history disk.old)) }
    ensures firm { D.tells → HasFirmFiles (D.history disk.old).now →
        AtEach (AreFirm (frames_of (D.history disk.old).now))
        (D.history disk.old) (D.history disk.new) }
    ensures memory { IsErrOf result NoMemory → D.tells →
        held_in (reads_of (D.history disk.new).now) ≡ held_in (reads_of (D.history disk.old).now) }
    ensures cause { HasDiskCause (D.faults disk.old) (D.faults disk.new) result }
    ensures keeps { KeepsWorking D.reliable D.unfailing disk.old disk.new (IsErrOf result Broke) }
{
    let parts = read_parts(alloc, disk)?;
    trim(disk, &parts.journal, &parts.loaded.last, &parts.entries)?;
    Ok(parts)
}

impl<D: Disk> Store<D> {
    /// The store of what the files of a disk stand for, with nothing staged. Each file is read once.
    ///
    /// Where no place is damaged, the journal and the last file are cut behind their last whole and right frames, and the
    /// journal and each file that an entry names are synced, also where nothing was cut.
    pub fn load(alloc: Global, disk: D) -> Result<Store<D>, Unloaded<D>>
        // The files stand for what they stood for, and it has that state. They end with whole frames and are on the disk.
        ensures held { IfOk result (λ store. D.tells →
            held_in (reads_of (D.history disk).now) ≡ Some (held_now (D.history store.disk).now)) }
        ensures state { IfOk result (λ store. D.tells →
            state_by D.history store ≡ replica_of (held_now (D.history store.disk).now)) }
        ensures durable { IfOk result (λ store. D.tells →
            IsDurable D.plain (D.history store.disk).now store) }
        ensures fresh { IfOk result (λ store. (store.staged ≡ None) × (store.shut ≡ false)) }

        // Each file has lost a tail that holds no frame, or nothing.
        ensures files { IfOk result (λ store. D.tells →
            AreTrimmedOf (D.history disk).now (D.history store.disk).now) }

        // A place is damaged exactly so, and then the disk is as it was.
        ensures damaged { IfDamaged (answer_of result) (λ file at. D.tells →
            IsDamaged (reads_of (D.history disk).now) file at
            × (D.history (disk_of result) ≡ D.history disk)) }
        ensures not_damaged { D.tells → (h : Held) →
            held_in (reads_of (D.history disk).now) ≡ Some h → IsNotDamaged (answer_of result) }

        // Where the frames that are read are synced and were put, and no frame was put behind them, it is so at each
        // moment, also for a loading after this one. Then whatever a crash may leave stands for what the files stood for.
        ensures firm { D.tells → HasFirmFiles (D.history disk).now →
            AtEach (AreFirm (frames_of (D.history disk).now))
            (D.history disk) (D.history (disk_of result)) }
        ensures any_moment { D.tells → HasFirmFiles (D.history disk).now → (h : Held) →
            held_in (reads_of (D.history disk).now) ≡ Some h →
            LeavesAtEach D.plain (λ r. r ≡ replica_of h)
            (D.history disk) (D.history (disk_of result)) }

        // On a plain disk it is always so.
        ensures plain { D.tells → D.plain → HasFirmFiles (D.history disk).now }
        ensures kept { D.tells → D.plain → (h : Held) →
            held_in (reads_of (D.history disk).now) ≡ Some h →
            held_in (reads_of (D.history (disk_of result)).now) ≡ Some h }

        // After want of memory the files stand for what they stood for, if for anything.
        ensures memory { IsErrOf (answer_of result) NoMemory → D.tells →
            held_in (reads_of (D.history (disk_of result)).now)
            ≡ held_in (reads_of (D.history disk).now) }
        ensures cause { HasDiskCause (D.faults disk) (D.faults (disk_of result)) (answer_of result) }
        ensures keeps { KeepsWorking D.reliable D.unfailing disk (disk_of result)
            (IsErrOf (answer_of result) Broke) }
    {
        let mut disk = disk;
        match load_parts(alloc, &mut disk) {
            Ok(parts) => {
                let Parts {
                    journal,
                    loaded,
                    ..
                } = parts;
                Ok(Store {
                    alloc,
                    disk,
                    journal,
                    status: loaded.status,
                    closed: loaded.closed,
                    last: loaded.last,
                    staged: None,
                    shut: false,
                })
            }
            Err(fault) => Err(Unloaded { disk, fault }),
        }
    }

    /// Loads it again from its own disk, also where it is shut. What is staged is lost.
    ///
    /// It takes its disk through the same calls as `load`. A refused one leaves it shut, and showing what it showed.
    pub fn reload(&mut self) -> Result<(), LoadFault>
        ensures held { OnOk result (D.tells →
            held_in (reads_of (D.history self.old.disk).now)
            ≡ Some (held_now (D.history self.new.disk).now)) }
        ensures state { OnOk result (D.tells →
            state_by D.history self.new ≡ replica_of (held_now (D.history self.new.disk).now)) }
        ensures durable { OnOk result (D.tells →
            IsDurable D.plain (D.history self.new.disk).now self.new) }
        ensures fresh { OnOk result ((self.new.staged ≡ None) × (self.new.shut ≡ false)) }
        ensures files { OnOk result (D.tells →
            AreTrimmedOf (D.history self.old.disk).now (D.history self.new.disk).now) }
        ensures refused { OnErr result
            (self.new ≡ record self.old { disk = self.new.disk; shut = true }) }

        // As for `load`.
        ensures damaged { IfDamaged result (λ file at. D.tells →
            IsDamaged (reads_of (D.history self.old.disk).now) file at
            × (D.history self.new.disk ≡ D.history self.old.disk)) }
        ensures not_damaged { D.tells → (h : Held) →
            held_in (reads_of (D.history self.old.disk).now) ≡ Some h → IsNotDamaged result }
        ensures firm { D.tells → HasFirmFiles (D.history self.old.disk).now →
            AtEach (AreFirm (frames_of (D.history self.old.disk).now))
            (D.history self.old.disk) (D.history self.new.disk) }
        ensures any_moment { D.tells → HasFirmFiles (D.history self.old.disk).now → (h : Held) →
            held_in (reads_of (D.history self.old.disk).now) ≡ Some h →
            LeavesAtEach D.plain (λ r. r ≡ replica_of h)
            (D.history self.old.disk) (D.history self.new.disk) }
        ensures plain { D.tells → D.plain → HasFirmFiles (D.history self.old.disk).now }
        ensures kept { D.tells → D.plain → (h : Held) →
            held_in (reads_of (D.history self.old.disk).now) ≡ Some h →
            held_in (reads_of (D.history self.new.disk).now) ≡ Some h }
        ensures memory { IsErrOf result NoMemory → D.tells →
            held_in (reads_of (D.history self.new.disk).now)
            ≡ held_in (reads_of (D.history self.old.disk).now) }
        ensures cause { HasDiskCause (D.faults self.old.disk) (D.faults self.new.disk) result }
        ensures keeps { KeepsWorking D.reliable D.unfailing self.old.disk self.new.disk
            (IsErrOf result Broke) }
    {
        match load_parts(self.alloc, &mut self.disk) {
            Ok(parts) => {
                let Parts {
                    journal,
                    loaded,
                    ..
                } = parts;
                self.journal = journal;
                self.status = loaded.status;
                self.closed = loaded.closed;
                self.last = loaded.last;
                self.staged = None;
                self.shut = false;
                Ok(())
            }
            Err(fault) => {
                self.shut = true;
                Err(fault)
            }
        }
    }
}
