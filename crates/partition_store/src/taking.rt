//! Loading a store's files: the entries of the journal are taken in one after the other, and with each the file that it
//! names.
ghost use Rattle.std.specs.Prelude.{◌≡◌, ◌↔◌, ◌+◌, ◌-◌, ◌<◌, ◌≤◌, ◌^◌, ◌++◌, ◌∷◌, [], ℕ, List, true, None, Some, length, All, IfOk, OnOk, IsErrOf, IsTrue};
ghost use Rattle.std.specs.List.{flat_map};
ghost use Rattle.tx_model.specs.declared.meta.Meta.{Meta as MetaValue};
ghost use Rattle.tx_model.specs.declared.meta.Meta.TheVariants.{Adopt, Roll};
ghost use Rattle.tx_model.specs.Spelling.{IsMeta, IsNextPlace, meta_frame};
ghost use Rattle.tx_model.specs.Contents.{entries_in};
ghost use Rattle.disk_model.specs.History.{KeepsWorking};
ghost use Rattle.disk_model.specs.LoadFaults.{IfDamaged, HasDiskCause};
ghost use Rattle.disk_model.specs.declared.unloaded.LoadFault.TheVariants.{Disk as Broke, Memory as NoMemory};
ghost use Rattle.proto_model.specs.Held.{Contents, Held, held_after, is_legal, none_held, table_of};
ghost use Rattle.proto_model.specs.Damages.{named_by, IsDamaged};
ghost use Rattle.partition_store.specs.Stands.{reads_of};
ghost use Rattle.partition_store.specs.Loading.{IsLoadedOf, IsLoadedFit, AreLoaded};

use crate::closing::retire;
use disk_model::{Disk, LoadFault};
use proto_model::Status;
use record_frame::meta_frame_len;
use segment_store::Segment;
use std::alloc::Global;
use tx_model::Meta;

// What was taken in so far.
#[derive(Drop)]
pub(crate) struct Loaded {
    pub(crate) status: Status,
    pub(crate) closed: Vec<Segment>,
    pub(crate) last: Option<Segment>,
    // The id that the last file's records begin with.
    pub(crate) first: u64,
    // Where the last file has a wrong id behind its counted records.
    pub(crate) wrong: Option<u64>,
}

impl Loaded {
    // Nothing yet.
    pub(crate) fn new(alloc: Global) -> Loaded
        ensures fit { IsLoadedFit result }
        ensures none { (c : Contents) → IsLoadedOf c [] none_held result }
    {
        Loaded {
            status: Status {
                promised: 0,
                adopted: 0,
                low: 0,
                length: 0,
                file: 1,
            },
            closed: Vec::new(alloc),
            last: None,
            first: 1,
            wrong: None,
        }
    }

    // Whether an adoption is legal, but for what its file holds.
    fn may_adopt(&self, session: u64, first: u64, file: u32) -> bool
        ensures { IsTrue result ↔ ((session ≡ self.now.status.promised)
            × ((self.now.status.adopted < session)
            × ((first ≡ self.now.status.low + 1) × (self.now.status.file < file)))) }
    {
        session == self.status.promised
            && self.status.adopted < session
            && self.status.low < first
            && first - self.status.low == 1
            && self.status.file < file
    }

    // Whether a roll is legal, but for what its file holds.
    fn may_roll(&self, first: u64, file: u32) -> bool
        ensures { IsTrue result ↔ ((0 < self.now.status.adopted)
            × ((self.now.status.low < first) × ((self.now.first ≤ first)
            × ((first - 1 ≤ self.now.status.length) × (self.now.status.file < file))))) }
    {
        0 < self.status.adopted
            && self.status.low < first
            && self.first <= first
            && first - 1 <= self.status.length
            && self.status.file < file
    }

    // Takes over to a file that the next entry names, which is legal: its records follow those with ids below `first`.
    // So many of them are counted.
    fn take_file<D: Disk>(
        &mut self,
        alloc: Global,
        disk: &mut D,
        session: u64,
        file: u32,
        first: u64,
        count: u64,
    ) -> Result<(), LoadFault>
        requires some { self.old.status.low < first }
        requires within { first - 1 ≤ self.old.status.length }
        requires session { session ≤ self.old.status.promised }
        requires fit { IsLoadedFit self.old }
        ensures fit { OnOk result (IsLoadedFit self.new) }
        ensures taken { OnOk result (D.tells → (entries : List MetaValue) (h : Held) (e : MetaValue) →
            let c = reads_of (D.history disk.old).now in
            IsLoadedOf c entries h self.old →
            named_by e ≡ Some (record { file = file; first = first; count = count }) →
            is_legal h e ≡ true → (held_after (table_of c) h e).adopted ≡ session →
            IsLoadedOf c (entries ++ e ∷ []) (held_after (table_of c) h e) self.new) }
        ensures damaged { IfDamaged result (λ other at. D.tells →
            (entries more : List MetaValue) (h : Held) (e : MetaValue) →
            let c = reads_of (D.history disk.old).now in
            entries_in (c 0) ≡ entries ++ e ∷ more → IsLoadedOf c entries h self.old →
            named_by e ≡ Some (record { file = file; first = first; count = count }) →
            is_legal h e ≡ true → IsDamaged c other at) }
        ensures history { D.tells → D.history disk.new ≡ D.history disk.old }
        ensures cause { HasDiskCause (D.faults disk.old) (D.faults disk.new) result }
        ensures keeps { KeepsWorking D.reliable D.unfailing disk.old disk.new (IsErrOf result Broke) }
    {
        if let Some(at) = self.wrong {
            return Err(LoadFault::Damaged(self.status.file, at));
        }
        self.closed.reserve(1)?;
        let found = Segment::read(alloc, disk, file, first, count)?;
        retire(
            &mut self.closed,
            self.last.take(),
            self.status.length,
            first - 1,
        );
        self.status.adopted = session;
        self.status.length = (first - 1).saturating_add(found.frames);
        self.status.file = file;
        self.last = Some(found.segment);
        self.first = first;
        self.wrong = found.wrong;
        Ok(())
    }

    // Takes in the next entry, which stands at a place of the journal, and the file that it names.
    pub(crate) fn take<D: Disk>(
        &mut self,
        alloc: Global,
        disk: &mut D,
        place: u64,
        entry: Meta,
    ) -> Result<(), LoadFault>
        requires valid { IsMeta entry }
        requires fit { IsLoadedFit self.old }
        ensures fit { OnOk result (IsLoadedFit self.new) }
        ensures taken { OnOk result (D.tells → (entries : List MetaValue) (h : Held) →
            let c = reads_of (D.history disk.old).now in
            IsLoadedOf c entries h self.old →
            IsLoadedOf c (entries ++ entry ∷ []) (held_after (table_of c) h entry) self.new) }
        ensures damaged { IfDamaged result (λ file at. D.tells →
            (entries more : List MetaValue) (h : Held) →
            let c = reads_of (D.history disk.old).now in
            entries_in (c 0) ≡ entries ++ entry ∷ more →
            place ≡ length (flat_map meta_frame entries) →
            IsLoadedOf c entries h self.old → IsDamaged c file at) }
        ensures history { D.tells → D.history disk.new ≡ D.history disk.old }
        ensures cause { HasDiskCause (D.faults disk.old) (D.faults disk.new) result }
        ensures keeps { KeepsWorking D.reliable D.unfailing disk.old disk.new (IsErrOf result Broke) }
    {
        match entry {
            Meta::Promise(session) => {
                if session <= self.status.promised {
                    return Err(LoadFault::Damaged(0, place));
                }
                self.status.promised = session;
                Ok(())
            }
            Meta::Low(low) => {
                if low <= self.status.low {
                    return Err(LoadFault::Damaged(0, place));
                }
                if self.status.length < low {
                    return Err(LoadFault::Damaged(0, place));
                }
                self.status.low = low;
                Ok(())
            }
            Meta::Adopt(session, first, file, count) => {
                if !self.may_adopt(session, first, file) {
                    return Err(LoadFault::Damaged(0, place));
                }
                self.take_file(alloc, disk, session, file, first, count)
            }
            Meta::Roll(file, first) => {
                if !self.may_roll(first, file) {
                    return Err(LoadFault::Damaged(0, place));
                }
                let session = self.status.adopted;
                self.take_file(alloc, disk, session, file, first, 0)
            }
            Meta::Value(_) => Err(LoadFault::Damaged(0, place)),
        }
    }
    // All of it, once the tail of the last file is known to be in order.
    fn whole(self) -> Result<Loaded, LoadFault>
        ensures ok { IfOk result (λ loaded. (loaded ≡ self) × (loaded.wrong ≡ None)) }
        ensures damaged { IfDamaged result (λ file at. (file ≡ self.status.file) × (self.wrong ≡ Some at)) }
        ensures only { (IsErrOf result Broke → ⊥) × (IsErrOf result NoMemory → ⊥) }
    {
        match self.wrong {
            Some(at) => Err(LoadFault::Damaged(self.status.file, at)),
            None => Ok(self),
        }
    }
}

// Takes in each entry, but for the tail of the last file.
fn take_each<D: Disk>(alloc: Global, disk: &mut D, entries: &[Meta]) -> Result<Loaded, LoadFault>
    requires valid { All IsMeta entries.now }
    requires short { length (flat_map meta_frame entries.now) < 2 ^ 64 }
    ensures fit { IfOk result IsLoadedFit }
    ensures taken { IfOk result (λ loaded. D.tells →
        AreLoaded (reads_of (D.history disk.old).now) entries.now loaded) }
    ensures damaged { IfDamaged result (λ file at. D.tells →
        let c = reads_of (D.history disk.old).now in
        entries_in (c 0) ≡ entries.now → IsDamaged c file at) }
    ensures history { D.tells → D.history disk.new ≡ D.history disk.old }
    ensures cause { HasDiskCause (D.faults disk.old) (D.faults disk.new) result }
    ensures keeps { KeepsWorking D.reliable D.unfailing disk.old disk.new (IsErrOf result Broke) }
{
    let mut loaded = Loaded::new(alloc);
    let mut place: u64 = 0;
    for entry in entries {
        loaded.take(alloc, disk, place, *entry)?;
        place += meta_frame_len(entry) as u64;
    }
    Ok(loaded)
}

/// What the entries of the journal and the files that they name come to. It leaves the disk as it is.
pub(crate) fn take_all<D: Disk>(
    alloc: Global,
    disk: &mut D,
    entries: &[Meta],
) -> Result<Loaded, LoadFault>
    requires valid { All IsMeta entries.now }
    requires short { length (flat_map meta_frame entries.now) < 2 ^ 64 }
    ensures fit { IfOk result IsLoadedFit }
    ensures whole { IfOk result (λ loaded. loaded.wrong ≡ None) }
    ensures taken { IfOk result (λ loaded. D.tells →
        AreLoaded (reads_of (D.history disk.old).now) entries.now loaded) }
    ensures damaged { IfDamaged result (λ file at. D.tells →
        let c = reads_of (D.history disk.old).now in
        entries_in (c 0) ≡ entries.now → IsDamaged c file at) }
    ensures history { D.tells → D.history disk.new ≡ D.history disk.old }
    ensures cause { HasDiskCause (D.faults disk.old) (D.faults disk.new) result }
    ensures keeps { KeepsWorking D.reliable D.unfailing disk.old disk.new (IsErrOf result Broke) }
{
    let loaded = take_each(alloc, disk, entries)?;
    let loaded = loaded.whole()?;
    Ok(loaded)
}
