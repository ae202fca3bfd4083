//! Steps that write one entry of the journal.
ghost use Rattle.std.specs.Prelude.{◌≡◌, ◌<◌, ◌≤◌, false, None, OnOk, IsErrOf};
ghost use Rattle.tx_model.specs.Records.{IsPlace};
ghost use Rattle.io_core.specs.Causes.{Rose};
ghost use Rattle.disk_model.specs.History.{KeepsWorking};
ghost use Rattle.proto_model.specs.Nodes.{HasNodeCause, IsUndamaged};
ghost use Rattle.proto_model.specs.Parts.{promised_to, lowered_to};
ghost use Rattle.proto_model.specs.declared.replica.NodeFault.TheVariants.{Disk as Broke, Full, Memory as NoMemory};
ghost use Rattle.partition_store.specs.Stands.{LeavesAtEach, IsOldOrNew};
ghost use Rattle.partition_store.specs.Stores.{state_by, IsDurable, IsAnswer};

use crate::Store;
use disk_model::Disk;
use meta_journal::JournalFault;
use proto_model::NodeFault;

impl<D: Disk> Store<D> {
    /// Takes part in no session below this one any more. What is staged is lost.
    ///
    /// It takes no memory of its own: `Memory` is the disk's.
    pub fn promise(&mut self, session: u64) -> Result<(), NodeFault>
        requires above { self.old.status.promised < session }
        requires range { IsPlace session }

        // At each moment whatever a crash may leave stands for the old state or the new one, and after Ok for that.
        ensures any_moment { D.tells → self.old.shut ≡ false → LeavesAtEach D.plain
            (IsOldOrNew (state_by D.history self.old)
            (promised_to (state_by D.history self.old) session))
            (D.history self.old.disk) (D.history self.new.disk) }
        ensures durable { D.tells → self.new.shut ≡ false →
            IsDurable D.plain (D.history self.new.disk).now self.new }
        ensures state { OnOk result (D.tells →
            state_by D.history self.new ≡ promised_to (state_by D.history self.old) session) }
        ensures status { OnOk result
            ((self.new.status ≡ record self.old.status { promised = session })
            × (self.new.staged ≡ None)) }

        ensures answer { IsAnswer D.tells D.history self.old self.new result }
        ensures never { (IsErrOf result Full → ⊥) × IsUndamaged result }
        ensures cause { HasNodeCause (D.faults self.old.disk) (D.faults self.new.disk) result }
        ensures want { IsErrOf result NoMemory → Rose (D.wants self.old.disk) (D.wants self.new.disk) }
        ensures keeps { KeepsWorking D.reliable D.unfailing self.old.disk self.new.disk
            (IsErrOf result Broke) }
    {
        if self.shut {
            return Err(NodeFault::Shut);
        }
        match self.journal.promise(&mut self.disk, session) {
            Ok(()) => {
                self.status.promised = session;
                self.staged = None;
                Ok(())
            }
            Err(JournalFault::Memory) => Err(NodeFault::Memory),
            Err(JournalFault::Disk) => {
                self.shut = true;
                Err(NodeFault::Disk)
            }
        }
    }

    /// The records up to this id are committed.
    ///
    /// It takes no memory of its own: `Memory` is the disk's.
    pub fn low(&mut self, k: u64) -> Result<(), NodeFault>
        requires none { self.old.staged ≡ None }
        requires above { self.old.status.low < k }
        requires within { k ≤ self.old.status.length }

        // At each moment whatever a crash may leave stands for the old state or the new one, and after Ok for that.
        ensures any_moment { D.tells → self.old.shut ≡ false → LeavesAtEach D.plain
            (IsOldOrNew (state_by D.history self.old)
            (lowered_to (state_by D.history self.old) k))
            (D.history self.old.disk) (D.history self.new.disk) }
        ensures durable { D.tells → self.new.shut ≡ false →
            IsDurable D.plain (D.history self.new.disk).now self.new }
        ensures state { OnOk result (D.tells →
            state_by D.history self.new ≡ lowered_to (state_by D.history self.old) k) }
        ensures status { OnOk result ((self.new.status ≡ record self.old.status { low = k })
            × (self.new.staged ≡ None)) }

        ensures answer { IsAnswer D.tells D.history self.old self.new result }
        ensures never { (IsErrOf result Full → ⊥) × IsUndamaged result }
        ensures cause { HasNodeCause (D.faults self.old.disk) (D.faults self.new.disk) result }
        ensures want { IsErrOf result NoMemory → Rose (D.wants self.old.disk) (D.wants self.new.disk) }
        ensures keeps { KeepsWorking D.reliable D.unfailing self.old.disk self.new.disk
            (IsErrOf result Broke) }
    {
        if self.shut {
            return Err(NodeFault::Shut);
        }
        match self.journal.low(&mut self.disk, k) {
            Ok(()) => {
                self.status.low = k;
                Ok(())
            }
            Err(JournalFault::Memory) => Err(NodeFault::Memory),
            Err(JournalFault::Disk) => {
                self.shut = true;
                Err(NodeFault::Disk)
            }
        }
    }
}
