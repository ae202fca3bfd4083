//! Stops between steps and within them, over a disk in memory.
ghost use Rattle.std.specs.Prelude.{◌≡◌, ◌⊎◌, ◌+◌, ◌-◌, ℕ, length, min, take, drop, false};
ghost use Rattle.std.proofs.Common.{inl};
ghost use Rattle.disk_model.specs.MemDisk.{mem_history};
ghost use Rattle.proto_model.specs.Validity.{IsValidToNode};
ghost use Rattle.storage_node.specs.Steps.{IsSteady, IsSettled};
ghost use Rattle.storage_node.specs.Tears.{IsRestart, IsStop, IsTear};

use crate::Node;
use crate::steps::take;
use disk_model::{LoadFault, MemDisk};
use partition_store::Store;
use proto_model::{Crashing, NodeFault, ToNode};

// Stops it, and loads it again.
fn restart(store: &mut Store<MemDisk>) -> Result<(), NodeFault>
    requires { IsSettled store.old }
    ensures { IsRestart store.old store.new result }
{
    store.crash();
    match store.reload() {
        Ok(()) => Ok(()),
        Err(LoadFault::Disk) => Err(NodeFault::Disk),
        Err(LoadFault::Damaged(file, at)) => Err(NodeFault::Damaged(file, at)),
        Err(LoadFault::Memory) => Err(NodeFault::Memory),
    }
}

// Takes a message, and no call of the disk succeeds once so many bytes are written. It answers whether memory sufficed.
fn stop_within(store: &mut Store<MemDisk>, m: &ToNode, keep: u64) -> bool
    requires valid { IsValidToNode m.now }
    requires steady { IsSteady (Unit {0}) mem_history store.old }
    requires on { store.old.shut ≡ false }
    ensures { IsStop m.now store.old store.new }
{
    store.fuse(keep);
    match take(store, m) {
        Ok(_) => true,
        Err(fault) => fault != NodeFault::Memory,
    }
}

// Stops it within a step, once so many bytes are written, and loads it again.
fn tear(store: &mut Store<MemDisk>, m: &ToNode, keep: u64) -> Result<(), NodeFault>
    requires valid { IsValidToNode m.now }
    requires steady { IsSteady (Unit {0}) mem_history store.old }
    requires on { store.old.shut ≡ false }
    ensures { IsTear m.now keep store.old store.new result }
{
    if keep == 0 {
        return restart(store);
    }
    if stop_within(store, m, keep) {
        return restart(store);
    }
    store.shut();
    Err(NodeFault::Memory)
}

// Copies what stands from this place on, as much as there is room for.
fn copy_out(bytes: &[u8], at: u64, into: &mut [u8]) -> usize
    ensures count { result ≡ min (length into.old) (length bytes.now - at) }
    ensures copied { take result into.new ≡ take (length into.old) (drop at bytes.now) }
{
    if at >= bytes.len() as u64 {
        return 0;
    }
    let (_, rest) = bytes.split_at(at as usize);
    let count = into.len().min(rest.len());
    into[..count].copy_from_slice(&rest[..count]);
    count
}

impl Crashing for Node<MemDisk> {
    ghost telling = { tt };

    ghost surely = { λ r q. inl tt };

    fn step_torn(&mut self, m: &ToNode, keep: u64) -> Result<(), NodeFault> {
        if self.store.is_shut() {
            return Err(NodeFault::Shut);
        }
        match tear(&mut self.store, m, keep) {
            Ok(()) => {
                self.shown = self.store.status();
                Ok(())
            }
            Err(fault) => Err(fault),
        }
    }

    fn crash(&mut self) -> Result<(), NodeFault> {
        match restart(&mut self.store) {
            Ok(()) => {
                self.shown = self.store.status();
                Ok(())
            }
            Err(fault) => Err(fault),
        }
    }

    fn peek(&self, file: u32, at: u64, into: &mut [u8]) -> (u64, usize) {
        let bytes = self.store.disk().bytes(file);
        let count = copy_out(bytes, at, into);
        (bytes.len() as u64, count)
    }
}
