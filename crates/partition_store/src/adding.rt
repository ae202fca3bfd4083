//! Appending: the records of a batch that the log lacks are written behind its last one, and synced.
ghost use Rattle.std.specs.Prelude.{◌≡◌, ◌+◌, ◌-◌, ◌++◌, ◌<◌, ◌≤◌, false, length, max, None, OnOk, IsErrOf};
ghost use Rattle.tx_model.specs.Records.{first_id, RiseByOne};
ghost use Rattle.disk_model.specs.History.{KeepsWorking};
ghost use Rattle.proto_model.specs.Nodes.{HasNodeCause, IsUndamaged};
ghost use Rattle.proto_model.specs.Replicas.{grown};
ghost use Rattle.proto_model.specs.Parts.{with_batch};
ghost use Rattle.proto_model.specs.declared.replica.NodeFault.TheVariants.{Disk as Broke, Full};
ghost use Rattle.partition_store.specs.Stands.{LeavesAtEach, HasSome};
ghost use Rattle.partition_store.specs.Stores.{state_by, lacking, IsDurable, IsAnswer};

use crate::Store;
use disk_model::{Disk, LoadFault};
use proto_model::NodeFault;
use tx_model::{Batch, Record};

impl<D: Disk> Store<D> {
    /// Adds the records of a batch that the log lacks.
    pub fn append(&mut self, b: &Batch) -> Result<(), NodeFault>
        requires adopted { 0 < self.old.status.adopted }
        requires none { self.old.staged ≡ None }
        requires first { first_id b.now ≤ self.old.status.length + 1 }

        // At each moment whatever a crash may leave stands for the old state with a prefix of the new records, and after
        // Ok with all of them.
        ensures any_moment { D.tells → self.old.shut ≡ false → LeavesAtEach D.plain
            (HasSome (state_by D.history self.old)
            (lacking (state_by D.history self.old).log b.now))
            (D.history self.old.disk) (D.history self.new.disk) }
        ensures durable { D.tells → self.new.shut ≡ false →
            IsDurable D.plain (D.history self.new.disk).now self.new }
        ensures state { OnOk result (D.tells →
            state_by D.history self.new ≡ with_batch (state_by D.history self.old) b.now) }
        ensures status { OnOk result ((self.new.status ≡ record self.old.status {
          length = max self.old.status.length (first_id b.now + length b.now - 1);
        }) × (self.new.staged ≡ None)) }

        ensures answer { IsAnswer D.tells D.history self.old self.new result }
        ensures never { (IsErrOf result Full → ⊥) × IsUndamaged result }
        ensures cause { HasNodeCause (D.faults self.old.disk) (D.faults self.new.disk) result }
        ensures keeps { KeepsWorking D.reliable D.unfailing self.old.disk self.new.disk
            (IsErrOf result Broke) }
    {
        if self.shut {
            return Err(NodeFault::Shut);
        }
        let known = self.status.length + 1 - b.first();
        if b.len() as u64 <= known {
            return Ok(());
        }
        let (_, lacking) = b.records().split_at(known as usize);
        self.add(lacking)
    }

    // Adds records behind the last one, and syncs them.
    fn add(&mut self, records: &[Record]) -> Result<(), NodeFault>
        requires on { self.old.shut ≡ false }
        requires some { self.old.last ≡ None → ⊥ }
        requires none { self.old.staged ≡ None }
        requires ids { RiseByOne (self.old.status.length + 1) records.now }
        ensures any_moment { D.tells → LeavesAtEach D.plain
            (HasSome (state_by D.history self.old) records.now)
            (D.history self.old.disk) (D.history self.new.disk) }
        ensures durable { D.tells → self.new.shut ≡ false →
            IsDurable D.plain (D.history self.new.disk).now self.new }
        ensures state { OnOk result (D.tells →
            let old = state_by D.history self.old in
            state_by D.history self.new ≡ record old { log = old.log ++ records.now }) }
        ensures status { OnOk result ((self.new.status ≡ record self.old.status {
          length = self.old.status.length + length records.now;
        }) × (self.new.staged ≡ None)) }
        ensures answer { IsAnswer D.tells D.history self.old self.new result }
        ensures never { (IsErrOf result Full → ⊥) × IsUndamaged result }
        ensures cause { HasNodeCause (D.faults self.old.disk) (D.faults self.new.disk) result }
        ensures keeps { KeepsWorking D.reliable D.unfailing self.old.disk self.new.disk
            (IsErrOf result Broke) }
    {
        let Some(last) = &mut self.last else {
            return Ok(());
        };
        match last.append(&mut self.disk, records) {
            Ok(()) => {
                self.status.length += records.len() as u64;
                Ok(())
            }
            Err(LoadFault::Memory) => Err(NodeFault::Memory),
            Err(LoadFault::Disk) => {
                self.shut = true;
                Err(NodeFault::Disk)
            }
            Err(LoadFault::Damaged(file, at)) => {
                self.shut = true;
                Err(NodeFault::Damaged(file, at))
            }
        }
    }
}
