ghost use Rattle.std.specs.Prelude.{◌≡◌, ◌<◌, ◌⊎◌, ℕ, List, false};
ghost use Rattle.io_core.specs.Causes.{Rose};
ghost use Rattle.disk_model.specs.History.{History};
ghost use Rattle.partition_store.specs.Stores.{state_by};
ghost use Rattle.node_loops.specs.declared.end.End.{End as EndValue};
ghost use Rattle.node_loops.specs.Ends.{status_of, serving_text, Prints, IsBroken};
ghost use Rattle.node_loops.specs.Serving.{desk, Runs};
ghost use Rattle.node_loops.specs.Storage.{goes_on};
ghost use Rattle.serve_commands.specs.Storages.{Suiting, Breaking, unbroken, GoesFrom, IsUndamaged, ServesNode};

use crate::front::Front;
use crate::unloaded::end_of;
use core::mem::replace_with;
use disk_model::Disk;
use io_core::{Port, Sink};
use node_loops::{finish, serve_storage};
use std::alloc::Global;
use storage_node::Node;

// Serves a node, and gives its disk back with the status.
fn serve_node<D: Disk, P: Port, W: Sink>(
    alloc: Global,
    node: Node<D>,
    port: &mut P,
    number: u16,
    sink: &mut W,
) -> (D, u8)
    requires on { node.store.shut ≡ false }
    ensures serves { (end : EndValue)
        × (P.tells → Runs (Unit {0}) Suiting Breaking goes_on
        (desk (P.coming port.old) (P.answers port.old) tt)
        (desk (P.coming port.new) (P.answers port.new) tt) end)
        × (D.tells → IsUndamaged end)
        × (D.tells → P.tells →
        GoesFrom D.plain (unbroken (state_by D.history node.store) node.shown.file)
        (P.coming port.old) (P.coming port.new)
        (P.answers port.old) (P.answers port.new) end (D.history result.0).now)
        × Prints (W.contents sink.old) (W.contents sink.new) (serving_text number end)
        (status_of end) result.1 }
    ensures write { result.1 ≡ 11 → Rose (W.faults sink.old) (W.faults sink.new) }
    ensures told { W.faults sink.old < W.faults sink.new → result.1 ≡ 11 }
    ensures broken { result.1 ≡ 12 → Rose (D.faults node.store.disk) (D.faults result.0) }
    ensures broken_told { D.faults node.store.disk < D.faults result.0 →
        (result.1 ≡ 12) ⊎ IsBroken result.1 }
    ensures peer { result.1 ≡ 13 → Rose (P.faults port.old) (P.faults port.new) }
    ensures peer_told { P.faults port.old < P.faults port.new →
        (result.1 ≡ 13) ⊎ IsBroken result.1 }
    ensures undamaged { result.1 ≡ 15 → D.tells → ⊥ }
    ensures others { (result.1 ≡ 16) ⊎ (result.1 ≡ 19) → ⊥ }
{
    let mut node = node;
    let status = serve_storage(alloc, &mut node, port, number, sink);
    (node.into_disk(), status)
}

// Loads a node from a disk and serves it, and gives the disk back with the status.
fn serve_disk<D: Disk, P: Port, W: Sink>(
    alloc: Global,
    disk: D,
    port: &mut P,
    number: u16,
    sink: &mut W,
) -> (D, u8)
    ensures serves { ServesNode D.tells D.plain P.tells number (D.history disk) (D.history result.0) (P.coming port.old) (P.coming port.new) (P.answers port.old) (P.answers port.new) (W.contents sink.old) (W.contents sink.new) result.1 }
    ensures write { result.1 ≡ 11 → Rose (W.faults sink.old) (W.faults sink.new) }
    ensures told { W.faults sink.old < W.faults sink.new → result.1 ≡ 11 }
    ensures broken { result.1 ≡ 12 → Rose (D.faults disk) (D.faults result.0) }
    ensures broken_told { D.faults disk < D.faults result.0 → (result.1 ≡ 12) ⊎ IsBroken result.1 }
    ensures peer { result.1 ≡ 13 → Rose (P.faults port.old) (P.faults port.new) }
    ensures peer_told { P.faults port.old < P.faults port.new →
        (result.1 ≡ 13) ⊎ IsBroken result.1 }
    ensures others { (result.1 ≡ 16) ⊎ (result.1 ≡ 19) → ⊥ }
{
    match Node::load(alloc, disk) {
        Ok(node) => serve_node(alloc, node, port, number, sink),
        Err(unloaded) => {
            let status = finish(alloc, sink, end_of(unloaded.fault));
            (unloaded.disk, status)
        }
    }
}

// The same at a front, which is given back too.
fn serve_front<'a, D: Disk, P: Port, W: Sink>(
    disk: D,
    front: Front<'a, P, W>,
) -> (D, (u8, Front<'a, P, W>))
    ensures port { result.1.1.port.ghost_name ≡ front.entry.port.ghost_name }
    ensures sink { result.1.1.sink.ghost_name ≡ front.entry.sink.ghost_name }
    ensures serves { ServesNode D.tells D.plain P.tells front.entry.number (D.history disk) (D.history result.0) (P.coming front.entry.port.now) (P.coming result.1.1.port.now) (P.answers front.entry.port.now) (P.answers result.1.1.port.now) (W.contents front.entry.sink.now) (W.contents result.1.1.sink.now) result.1.0 }
    ensures write { result.1.0 ≡ 11 →
        Rose (W.faults front.entry.sink.now) (W.faults result.1.1.sink.now) }
    ensures told { W.faults front.entry.sink.now < W.faults result.1.1.sink.now →
        result.1.0 ≡ 11 }
    ensures broken { result.1.0 ≡ 12 → Rose (D.faults disk) (D.faults result.0) }
    ensures broken_told { D.faults disk < D.faults result.0 →
        (result.1.0 ≡ 12) ⊎ IsBroken result.1.0 }
    ensures peer { result.1.0 ≡ 13 →
        Rose (P.faults front.entry.port.now) (P.faults result.1.1.port.now) }
    ensures peer_told { P.faults front.entry.port.now < P.faults result.1.1.port.now →
        (result.1.0 ≡ 13) ⊎ IsBroken result.1.0 }
    ensures others { (result.1.0 ≡ 16) ⊎ (result.1.0 ≡ 19) → ⊥ }
{
    let Front {
        alloc,
        port,
        number,
        sink,
    } = front;
    let (disk, status) = serve_disk(alloc, disk, &mut *port, number, &mut *sink);
    let front = Front {
        alloc,
        port,
        number,
        sink,
    };
    (disk, (status, front))
}

/// Serves a storage node over the files of a disk at a port, up to an end, and gives the status.
pub fn storage<D: Disk, P: Port, W: Sink>(
    alloc: Global,
    disk: &mut D,
    port: &mut P,
    number: u16,
    sink: &mut W,
) -> u8
    // What was answered and printed, and what the disk stands for then.
    ensures serves { ServesNode D.tells D.plain P.tells number (D.history disk.old) (D.history disk.new) (P.coming port.old) (P.coming port.new) (P.answers port.old) (P.answers port.new) (W.contents sink.old) (W.contents sink.new) result }

    // A fault is told only where it was counted, and is told where it was, unless the output or memory failed.
    ensures write { result ≡ 11 → Rose (W.faults sink.old) (W.faults sink.new) }
    ensures broken { result ≡ 12 → Rose (D.faults disk.old) (D.faults disk.new) }
    ensures peer { result ≡ 13 → Rose (P.faults port.old) (P.faults port.new) }
    ensures told { W.faults sink.old < W.faults sink.new → result ≡ 11 }
    ensures broken_told { D.faults disk.old < D.faults disk.new → (result ≡ 12) ⊎ IsBroken result }
    ensures peer_told { P.faults port.old < P.faults port.new → (result ≡ 13) ⊎ IsBroken result }
    ensures others { (result ≡ 16) ⊎ (result ≡ 19) → ⊥ }
{
    let front = Front {
        alloc,
        port,
        number,
        sink,
    };
    let (status, _) = replace_with(disk, front, serve_front::<D, P, W>);
    status
}
