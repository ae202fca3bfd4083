//! Staging: records are written to the next file, which no entry names, and are not synced.
ghost use Rattle.std.specs.Prelude.{◌≡◌, ◌↔◌, ◌+◌, ◌-◌, ◌^◌, ◌<◌, [], false, true, length, None, Some, IfOk, OnOk, IsErrOf};
ghost use Rattle.tx_model.specs.Records.{first_id, RiseByOne};
ghost use Rattle.tx_model.specs.Contents.{records_in};
ghost use Rattle.disk_model.specs.File.{settled};
ghost use Rattle.disk_model.specs.History.{EachMoment, KeepsWorking};
ghost use Rattle.disk_model.specs.LoadFaults.{IsNotDamaged, HasDiskCause};
ghost use Rattle.disk_model.specs.declared.unloaded.LoadFault.TheVariants.{Disk as DiskBroke};
ghost use Rattle.segment_store.specs.Index.{count_of, IsIndexOfAll};
ghost use Rattle.proto_model.specs.Crashes.{unstaged};
ghost use Rattle.proto_model.specs.Nodes.{HasNodeCause, IsUndamaged};
ghost use Rattle.proto_model.specs.Parts.{staged_more};
ghost use Rattle.proto_model.specs.declared.replica.NodeFault.TheVariants.{Disk as Broke, Full};
ghost use Rattle.partition_store.specs.Stands.{LeavesAtEach};
ghost use Rattle.partition_store.specs.Stores.{staged_count, state_by, IsDurable, IsAnswer};

use crate::Store;
use disk_model::{Disk, LoadFault};
use proto_model::NodeFault;
use segment_store::Segment;
use std::alloc::Global;
use tx_model::{Batch, Record};

// Empties a file that no entry names, also on the disk.
pub(crate) fn prepare<D: Disk>(disk: &mut D, file: u32) -> Result<(), LoadFault>
    ensures others { D.tells →
        EachMoment file (λ f. Unit {0}) (D.history disk.old) (D.history disk.new) }
    ensures empty { OnOk result (D.tells → (D.history disk.new).now file ≡ settled []) }
    ensures not_damaged { IsNotDamaged result }
    ensures cause { HasDiskCause (D.faults disk.old) (D.faults disk.new) result }
    ensures keeps { KeepsWorking D.reliable D.unfailing disk.old disk.new
        (IsErrOf result DiskBroke) }
{
    disk.cut(file, 0)?;
    disk.sync(file)?;
    Ok(())
}

// Writes the first records to a file that no entry names, which is emptied before.
fn begin<D: Disk>(
    alloc: Global,
    disk: &mut D,
    file: u32,
    first: u64,
    records: &[Record],
) -> Result<Segment, LoadFault>
    requires { RiseByOne first records.now }
    ensures place { IfOk result (λ s. (s.file ≡ file) × (s.first ≡ first)
        × (count_of s ≡ length records.now)) }
    ensures all { IfOk result (λ s. D.tells →
        IsIndexOfAll s ((D.history disk.new).now file).reads) }
    ensures records { OnOk result (D.tells →
        records_in ((D.history disk.new).now file).reads ≡ records.now) }
    ensures others { D.tells →
        EachMoment file (λ f. Unit {0}) (D.history disk.old) (D.history disk.new) }
    ensures not_damaged { IsNotDamaged result }
    ensures cause { HasDiskCause (D.faults disk.old) (D.faults disk.new) result }
    ensures keeps { KeepsWorking D.reliable D.unfailing disk.old disk.new
        (IsErrOf result DiskBroke) }
{
    prepare(disk, file)?;
    let mut segment = Segment::new(alloc, file, first);
    segment.stage(disk, records)?;
    Ok(segment)
}

impl<D: Disk> Store<D> {
    /// Keeps these records for an adoption, behind those that are staged. A crash loses them.
    pub fn stage(&mut self, b: &Batch) -> Result<(), NodeFault>
        requires { first_id b.now ≡ self.old.status.low + staged_count self.old.staged + 1 }

        // At each moment whatever a crash may leave stands for the old state, with nothing staged.
        ensures any_moment { D.tells → self.old.shut ≡ false → LeavesAtEach D.plain
            (λ r. r ≡ unstaged (state_by D.history self.old))
            (D.history self.old.disk) (D.history self.new.disk) }
        ensures durable { D.tells → self.new.shut ≡ false →
            IsDurable D.plain (D.history self.new.disk).now self.new }
        ensures state { OnOk result (D.tells →
            state_by D.history self.new ≡ staged_more (state_by D.history self.old) b.now) }
        ensures status { OnOk result ((self.new.status ≡ self.old.status)
            × (staged_count self.new.staged ≡ staged_count self.old.staged + length b.now)) }

        ensures answer { IsAnswer D.tells D.history self.old self.new result }
        ensures full { IsErrOf result Full →
            (self.old.staged ≡ None) × (self.old.status.file ≡ 2 ^ 32 - 1) }
        ensures no_file { self.old.shut ≡ false → self.old.staged ≡ None →
            self.old.status.file ≡ 2 ^ 32 - 1 → IsErrOf result Full }
        ensures never { IsUndamaged result }
        ensures cause { HasNodeCause (D.faults self.old.disk) (D.faults self.new.disk) result }
        ensures keeps { KeepsWorking D.reliable D.unfailing self.old.disk self.new.disk
            (IsErrOf result Broke) }
    {
        if self.shut {
            return Err(NodeFault::Shut);
        }
        if self.staged.is_some() {
            self.stage_more(b.records())
        } else {
            self.stage_first(b.records())
        }
    }

    // Stages the first records, in the next file.
    fn stage_first(&mut self, records: &[Record]) -> Result<(), NodeFault>
        requires on { self.old.shut ≡ false }
        requires none { self.old.staged ≡ None }
        requires some { 0 < length records.now }
        requires ids { RiseByOne (self.old.status.low + 1) records.now }
        ensures any_moment { D.tells → LeavesAtEach D.plain
            (λ r. r ≡ unstaged (state_by D.history self.old))
            (D.history self.old.disk) (D.history self.new.disk) }
        ensures durable { D.tells → self.new.shut ≡ false →
            IsDurable D.plain (D.history self.new.disk).now self.new }
        ensures state { OnOk result (D.tells →
            state_by D.history self.new ≡ staged_more (state_by D.history self.old) records.now) }
        ensures status { OnOk result ((self.new.status ≡ self.old.status)
            × (staged_count self.new.staged ≡ length records.now)) }
        ensures answer { IsAnswer D.tells D.history self.old self.new result }
        ensures full { IsErrOf result Full ↔ (self.old.status.file ≡ 2 ^ 32 - 1) }
        ensures never { IsUndamaged result }
        ensures cause { HasNodeCause (D.faults self.old.disk) (D.faults self.new.disk) result }
        ensures keeps { KeepsWorking D.reliable D.unfailing self.old.disk self.new.disk
            (IsErrOf result Broke) }
    {
        let Some(file) = self.status.file.checked_add(1) else {
            return Err(NodeFault::Full);
        };
        let first = self.status.low + 1;
        match begin(self.alloc, &mut self.disk, file, first, records) {
            Ok(segment) => {
                self.staged = Some(segment);
                Ok(())
            }
            Err(LoadFault::Memory) => Err(NodeFault::Memory),
            Err(LoadFault::Disk) => {
                self.shut = true;
                Err(NodeFault::Disk)
            }
            Err(LoadFault::Damaged(file, at)) => {
                self.shut = true;
                Err(NodeFault::Damaged(file, at))
            }
        }
    }

    // Stages records behind others.
    fn stage_more(&mut self, records: &[Record]) -> Result<(), NodeFault>
        requires on { self.old.shut ≡ false }
        requires behind { self.old.staged ≡ None → ⊥ }
        requires some { 0 < length records.now }
        requires ids { RiseByOne (self.old.status.low + staged_count self.old.staged + 1) records.now }
        ensures any_moment { D.tells → LeavesAtEach D.plain
            (λ r. r ≡ unstaged (state_by D.history self.old))
            (D.history self.old.disk) (D.history self.new.disk) }
        ensures durable { D.tells → self.new.shut ≡ false →
            IsDurable D.plain (D.history self.new.disk).now self.new }
        ensures state { OnOk result (D.tells →
            state_by D.history self.new ≡ staged_more (state_by D.history self.old) records.now) }
        ensures status { OnOk result ((self.new.status ≡ self.old.status)
            × (staged_count self.new.staged ≡ staged_count self.old.staged + length records.now)) }
        ensures answer { IsAnswer D.tells D.history self.old self.new result }
        ensures never { (IsErrOf result Full → ⊥) × IsUndamaged result }
        ensures cause { HasNodeCause (D.faults self.old.disk) (D.faults self.new.disk) result }
        ensures keeps { KeepsWorking D.reliable D.unfailing self.old.disk self.new.disk
            (IsErrOf result Broke) }
    {
        let Some(segment) = &mut self.staged else {
            return Ok(());
        };
        match segment.stage(&mut self.disk, records) {
            Ok(()) => Ok(()),
            Err(LoadFault::Memory) => Err(NodeFault::Memory),
            Err(LoadFault::Disk) => {
                self.shut = true;
                Err(NodeFault::Disk)
            }
            Err(LoadFault::Damaged(file, at)) => {
                self.shut = true;
                Err(NodeFault::Damaged(file, at))
            }
        }
    }
}
