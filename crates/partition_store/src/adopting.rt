//! An adoption: the staged records are synced, or the new file is emptied, and then an entry names their file.
ghost use Rattle.std.specs.Prelude.{◌≡◌, ◌+◌, ◌-◌, ◌^◌, ◌<◌, ◌≤◌, false, None, Some, OnOk, IsErrOf};
ghost use Rattle.disk_model.specs.History.{KeepsWorking};
ghost use Rattle.proto_model.specs.Crashes.{unstaged};
ghost use Rattle.proto_model.specs.Nodes.{HasNodeCause, IsUndamaged};
ghost use Rattle.proto_model.specs.Parts.{adopted_to};
ghost use Rattle.proto_model.specs.declared.replica.NodeFault.TheVariants.{Disk as Broke, Full};
ghost use Rattle.partition_store.specs.Stands.{LeavesAtEach, IsOldOrNew};
ghost use Rattle.partition_store.specs.Stores.{staged_count, begun, state_by, IsReady, IsDurable, IsAnswer};

use crate::Store;
use crate::closing::retire;
use crate::staging::prepare;
use disk_model::{Disk, LoadFault};
use meta_journal::JournalFault;
use proto_model::NodeFault;
use segment_store::Segment;
use std::alloc::Global;

// The segment of the staged records, or one without a record where none is staged.
fn begun(alloc: Global, file: u32, first: u64, staged: Option<Segment>) -> Segment
    ensures { result ≡ begun file first staged }
{
    match staged {
        Some(segment) => segment,
        None => Segment::new(alloc, file, first),
    }
}

impl<D: Disk> Store<D> {
    /// Makes the staged records the log from the low mark on, as that of the session.
    pub fn adopt(&mut self, session: u64) -> Result<(), NodeFault>
        requires promised { session ≡ self.old.status.promised }
        requires later { self.old.status.adopted < session }

        // At each moment whatever a crash may leave stands for the old state or the new one, and after Ok for that.
        ensures any_moment { D.tells → self.old.shut ≡ false → LeavesAtEach D.plain
            (IsOldOrNew (state_by D.history self.old)
            (adopted_to (state_by D.history self.old) session))
            (D.history self.old.disk) (D.history self.new.disk) }
        ensures durable { D.tells → self.new.shut ≡ false →
            IsDurable D.plain (D.history self.new.disk).now self.new }
        ensures state { OnOk result (D.tells →
            state_by D.history self.new ≡ adopted_to (state_by D.history self.old) session) }
        ensures status { OnOk result ((self.new.status ≡ record self.old.status {
          adopted = session;
          length = self.old.status.low + staged_count self.old.staged;
          file = self.old.status.file + 1;
        }) × (self.new.staged ≡ None)) }

        ensures answer { IsAnswer D.tells D.history self.old self.new result }
        ensures full { IsErrOf result Full → self.old.status.file ≡ 2 ^ 32 - 1 }
        ensures no_file { self.old.shut ≡ false → self.old.status.file ≡ 2 ^ 32 - 1 →
            IsErrOf result Full }
        ensures never { IsUndamaged result }
        ensures cause { HasNodeCause (D.faults self.old.disk) (D.faults self.new.disk) result }
        ensures keeps { KeepsWorking D.reliable D.unfailing self.old.disk self.new.disk
            (IsErrOf result Broke) }
    {
        if self.shut {
            return Err(NodeFault::Shut);
        }
        let Some(file) = self.status.file.checked_add(1) else {
            return Err(NodeFault::Full);
        };
        match self.ready(file) {
            Err(fault) => Err(fault),
            Ok(()) => self.name(session, file),
        }
    }

    // Puts the file that an adoption will name on the disk: that of the staged records, or an empty one.
    fn ready(&mut self, file: u32) -> Result<(), NodeFault>
        requires on { self.old.shut ≡ false }
        requires next { file ≡ self.old.status.file + 1 }
        ensures any_moment { D.tells → LeavesAtEach D.plain
            (λ r. r ≡ unstaged (state_by D.history self.old))
            (D.history self.old.disk) (D.history self.new.disk) }
        ensures durable { D.tells → self.new.shut ≡ false →
            IsDurable D.plain (D.history self.new.disk).now self.new }
        ensures ready { OnOk result (D.tells →
            IsReady (D.history self.new.disk).now file self.new.staged) }
        ensures same { OnOk result (self.new ≡ record self.old { disk = self.new.disk }) }
        ensures state { OnOk result (D.tells →
            state_by D.history self.new ≡ state_by D.history self.old) }
        ensures answer { IsAnswer D.tells D.history self.old self.new result }
        ensures never { (IsErrOf result Full → ⊥) × IsUndamaged result }
        ensures cause { HasNodeCause (D.faults self.old.disk) (D.faults self.new.disk) result }
        ensures keeps { KeepsWorking D.reliable D.unfailing self.old.disk self.new.disk
            (IsErrOf result Broke) }
    {
        if self.staged.is_some() {
            self.settle(file)
        } else {
            self.empty(file)
        }
    }

    // Syncs the file of the staged records.
    fn settle(&mut self, file: u32) -> Result<(), NodeFault>
        requires on { self.old.shut ≡ false }
        requires next { file ≡ self.old.status.file + 1 }
        requires some { self.old.staged ≡ None → ⊥ }
        ensures any_moment { D.tells → LeavesAtEach D.plain
            (λ r. r ≡ unstaged (state_by D.history self.old))
            (D.history self.old.disk) (D.history self.new.disk) }
        ensures durable { D.tells → self.new.shut ≡ false →
            IsDurable D.plain (D.history self.new.disk).now self.new }
        ensures ready { OnOk result (D.tells →
            IsReady (D.history self.new.disk).now file self.new.staged) }
        ensures same { OnOk result (self.new ≡ record self.old { disk = self.new.disk }) }
        ensures state { OnOk result (D.tells →
            state_by D.history self.new ≡ state_by D.history self.old) }
        ensures answer { IsAnswer D.tells D.history self.old self.new result }
        ensures never { (IsErrOf result Full → ⊥) × IsUndamaged result }
        ensures cause { HasNodeCause (D.faults self.old.disk) (D.faults self.new.disk) result }
        ensures keeps { KeepsWorking D.reliable D.unfailing self.old.disk self.new.disk
            (IsErrOf result Broke) }
    {
        match self.disk.sync(file) {
            Ok(()) => Ok(()),
            Err(_) => {
                self.shut = true;
                Err(NodeFault::Disk)
            }
        }
    }

    // Empties the file, as nothing is staged.
    fn empty(&mut self, file: u32) -> Result<(), NodeFault>
        requires on { self.old.shut ≡ false }
        requires next { file ≡ self.old.status.file + 1 }
        requires none { self.old.staged ≡ None }
        ensures any_moment { D.tells → LeavesAtEach D.plain
            (λ r. r ≡ unstaged (state_by D.history self.old))
            (D.history self.old.disk) (D.history self.new.disk) }
        ensures durable { D.tells → self.new.shut ≡ false →
            IsDurable D.plain (D.history self.new.disk).now self.new }
        ensures ready { OnOk result (D.tells →
            IsReady (D.history self.new.disk).now file self.new.staged) }
        ensures same { OnOk result (self.new ≡ record self.old { disk = self.new.disk }) }
        ensures state { OnOk result (D.tells →
            state_by D.history self.new ≡ state_by D.history self.old) }
        ensures answer { IsAnswer D.tells D.history self.old self.new result }
        ensures never { (IsErrOf result Full → ⊥) × IsUndamaged result }
        ensures cause { HasNodeCause (D.faults self.old.disk) (D.faults self.new.disk) result }
        ensures keeps { KeepsWorking D.reliable D.unfailing self.old.disk self.new.disk
            (IsErrOf result Broke) }
    {
        match prepare(&mut self.disk, file) {
            Ok(()) => Ok(()),
            Err(LoadFault::Memory) => Err(NodeFault::Memory),
            Err(LoadFault::Disk) => {
                self.shut = true;
                Err(NodeFault::Disk)
            }
            Err(LoadFault::Damaged(file, at)) => {
                self.shut = true;
                Err(NodeFault::Damaged(file, at))
            }
        }
    }

    // Names the file of the staged records, which is on the disk, in the journal.
    fn name(&mut self, session: u64, file: u32) -> Result<(), NodeFault>
        requires on { self.old.shut ≡ false }
        requires promised { session ≡ self.old.status.promised }
        requires later { self.old.status.adopted < session }
        requires next { file ≡ self.old.status.file + 1 }
        requires ready { D.tells → IsReady (D.history self.old.disk).now file self.old.staged }
        ensures any_moment { D.tells → LeavesAtEach D.plain
            (IsOldOrNew (state_by D.history self.old)
            (adopted_to (state_by D.history self.old) session))
            (D.history self.old.disk) (D.history self.new.disk) }
        ensures durable { D.tells → self.new.shut ≡ false →
            IsDurable D.plain (D.history self.new.disk).now self.new }
        ensures state { OnOk result (D.tells →
            state_by D.history self.new ≡ adopted_to (state_by D.history self.old) session) }
        ensures status { OnOk result ((self.new.status ≡ record self.old.status {
          adopted = session;
          length = self.old.status.low + staged_count self.old.staged;
          file = file;
        }) × (self.new.staged ≡ None)) }
        ensures answer { IsAnswer D.tells D.history self.old self.new result }
        ensures never { (IsErrOf result Full → ⊥) × IsUndamaged result }
        ensures cause { HasNodeCause (D.faults self.old.disk) (D.faults self.new.disk) result }
        ensures keeps { KeepsWorking D.reliable D.unfailing self.old.disk self.new.disk
            (IsErrOf result Broke) }
    {
        let count = self.staged();
        if self.closed.reserve(1).is_err() {
            return Err(NodeFault::Memory);
        }
        let first = self.status.low + 1;
        match self
            .journal
            .adopt(&mut self.disk, session, first, file, count)
        {
            Ok(()) => {
                let last = self.last.take();
                retire(&mut self.closed, last, self.status.length, self.status.low);
                self.last = Some(begun(self.alloc, file, first, self.staged.take()));
                self.status.adopted = session;
                self.status.length = self.status.low + count;
                self.status.file = file;
                Ok(())
            }
            Err(JournalFault::Memory) => Err(NodeFault::Memory),
            Err(JournalFault::Disk) => {
                self.shut = true;
                Err(NodeFault::Disk)
            }
        }
    }
}
