ghost use Rattle.std.specs.Prelude.{◌≡◌, ◌⊎◌, ℕ, [], false, None, Some, IfOk, IfErr, IsErrOf};
ghost use Rattle.disk_model.specs.Chance.{PassesByChance};
ghost use Rattle.disk_model.specs.History.{AtEach, KeepsWorking};
ghost use Rattle.disk_model.specs.LoadFaults.{IfDamaged, IsNotDamaged, HasDiskCause};
ghost use Rattle.disk_model.specs.MemDisk.{mem_history, IsUnfailing};
ghost use Rattle.disk_model.specs.declared.unloaded.LoadFault.TheVariants.{Disk as Broke, Memory as NoMemory};
ghost use Rattle.proto_model.specs.Held.{Held, held_in, replica_of};
ghost use Rattle.proto_model.specs.Damages.{IsDamaged};
ghost use Rattle.proto_model.specs.Replicas.{fresh_replica};
ghost use Rattle.partition_store.specs.Stands.{reads_of, held_now, framing_of, LeavesAtEach};
ghost use Rattle.partition_store.specs.Stores.{state_by, IsStanding, IsDurable};
ghost use Rattle.partition_store.specs.Loading.{frames_of, AreFirm, HasFirmFiles, AreTrimmedOf};
ghost use Rattle.storage_node.specs.Steps.{IsSettled, IsHeldNear, disk_by, answer_by};

use crate::steps::take;
use disk_model::{Disk, LoadFault, MemDisk, Unloaded};
use partition_store::Store;
use proto_model::{FromNode, NodeFault, Replica, Status, ToNode};
use std::alloc::Global;

/// A storage node's replica of the log, in the files of a disk.
#[derive(Drop)]
pub struct Node<D: Disk> {
    pub(crate) store: Store<D>,
    // What it shows: once it is shut, what it showed before the call that shut it.
    pub(crate) shown: Status,
    ghost shows: { store.shut ≡ false → shown ≡ store.status },
    ghost standing: { D.tells → store.shut ≡ false → IsStanding (D.history store.disk).now store },
    ghost settled: { IsSettled store },
    ghost near: { D.tells → D.plain → IsHeldNear shown.file (D.history store.disk).now },
}

impl<D: Disk> Node<D> {
    /// The replica of what the files of a disk stand for, with nothing staged.
    pub fn load(alloc: Global, disk: D) -> Result<Node<D>, Unloaded<D>>
        // The files stand for what they stood for, and it has that state, with nothing staged.
        ensures held { IfOk result (λ node. D.tells →
            held_in (reads_of (D.history disk).now)
            ≡ Some (held_now (D.history node.store.disk).now)) }
        ensures state { IfOk result (λ node. D.tells →
            state_by D.history node.store
            ≡ replica_of (held_now (D.history node.store.disk).now)) }
        ensures durable { IfOk result (λ node. D.tells →
            IsDurable D.plain (D.history node.store.disk).now node.store) }
        ensures fresh { IfOk result (λ node.
            (node.store.staged ≡ None) × (node.store.shut ≡ false)) }
        ensures shown { IfOk result (λ node. node.shown ≡ node.store.status) }
        ensures files { IfOk result (λ node. D.tells →
            AreTrimmedOf (D.history disk).now (D.history node.store.disk).now) }

        // As for `Store::load`.
        ensures damaged { IfDamaged (answer_by result) (λ file at. D.tells →
            IsDamaged (reads_of (D.history disk).now) file at
            × (D.history (disk_by (λ node. node.store.disk) result) ≡ D.history disk)) }
        ensures not_damaged { D.tells → (h : Held) →
            held_in (reads_of (D.history disk).now) ≡ Some h →
            IsNotDamaged (answer_by result) }
        ensures firm { D.tells → HasFirmFiles (D.history disk).now →
            AtEach (AreFirm (frames_of (D.history disk).now))
            (D.history disk) (D.history (disk_by (λ node. node.store.disk) result)) }
        ensures any_moment { D.tells → HasFirmFiles (D.history disk).now → (h : Held) →
            held_in (reads_of (D.history disk).now) ≡ Some h →
            LeavesAtEach D.plain (λ r. r ≡ replica_of h)
            (D.history disk) (D.history (disk_by (λ node. node.store.disk) result)) }
        ensures plain { D.tells → D.plain → HasFirmFiles (D.history disk).now }
        ensures memory { IsErrOf (answer_by result) NoMemory → D.tells →
            held_in (reads_of (D.history (disk_by (λ node. node.store.disk) result)).now)
            ≡ held_in (reads_of (D.history disk).now) }
        ensures cause { HasDiskCause (D.faults disk)
            (D.faults (disk_by (λ node. node.store.disk) result)) (answer_by result) }
        ensures keeps { KeepsWorking D.reliable D.unfailing disk
            (disk_by (λ node. node.store.disk) result)
            (IsErrOf (answer_by result) Broke) }
    {
        match Store::load(alloc, disk) {
            Ok(store) => {
                let shown = store.status();
                Ok(Node { store, shown })
            }
            Err(unloaded) => Err(unloaded),
        }
    }

    /// The disk, as it is.
    pub fn into_disk(self) -> D
        ensures { result ≡ self.store.disk }
    {
        self.store.into_disk()
    }
}

impl Node<MemDisk> {
    /// A replica that has promised nothing, over an empty disk.
    pub fn fresh(alloc: Global) -> Result<Node<MemDisk>, LoadFault>
        ensures state { IfOk result (λ node.
            state_by mem_history node.store ≡ fresh_replica) }
        ensures files { IfOk result (λ node. (q : ℕ) →
            reads_of (mem_history node.store.disk).now q ≡ []) }
        ensures shown { IfOk result (λ node. node.shown.file ≡ 1) }
        ensures on { IfOk result (λ node. node.store.shut ≡ false) }
        ensures faultless { IfOk result (λ node.
            IsUnfailing node.store.disk × (node.store.disk.faults ≡ 0)) }
        ensures only { IfErr result (λ fault. fault ≡ NoMemory) }
    {
        match Node::load(alloc, MemDisk::new(alloc)) {
            Ok(node) => Ok(node),
            Err(unloaded) => Err(unloaded.fault),
        }
    }
}

impl<D: Disk> Replica for Node<D> {
    ghost tells = { D.tells };

    ghost state = { λ r. state_by D.history r.store };

    ghost files = { λ r. reads_of (D.history r.store.disk).now };

    ghost sure = { λ r. (q : ℕ) → D.plain ⊎ (PassesByChance (framing_of q)
        ((D.history r.store.disk).now q) ((D.history r.store.disk).now q).reads → ⊥) };

    ghost faults = { λ r. D.faults r.store.disk };

    ghost shut = { λ r. r.store.shut };

    ghost shown = { λ r. r.shown };

    ghost is_faultless = { λ r. D.tells × (D.unfailing r.store.disk × (r.store.shut ≡ false)) };

    ghost use Rattle.storage_node.specs.Standing.{node-stands};

    ghost standing = { λ r t on. node-stands (D.history r.store.disk).now r.store r.shown
        (r.shows on) (r.standing t on) };

    ghost going = { λ r it. it.1.1 };

    fn step(&mut self, m: &ToNode) -> Result<FromNode, NodeFault> {
        if self.store.is_shut() {
            return Err(NodeFault::Shut);
        }
        match take(&mut self.store, m) {
            Ok(reply) => {
                self.shown = self.store.status();
                Ok(reply)
            }
            Err(fault) => Err(fault),
        }
    }

    fn status(&self) -> Status {
        self.shown
    }
}
