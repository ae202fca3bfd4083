ghost use Rattle.std.specs.Prelude.{◌≡◌, ◌≤◌, ◌+◌, ℕ, List, map, length, IfOk, OnOk};
ghost use Rattle.std.specs.List.{AllByRecursion};
ghost use Rattle.proto_model.specs.Tables.{put};
ghost use Rattle.proto_model.specs.Crashes.{unstaged, IsCrashOf};
ghost use Rattle.proto_model.specs.Nodes.{IsShown};
ghost use Rattle.proto_model.specs.Replicas.{ReplicaState, replica_after, replica_reply};
ghost use Rattle.proto_model.specs.Validity.{IsValidToNode, IsValidFromNode};
ghost use Rattle.world_law.specs.Outcomes.{dump_outcome};
ghost use Rattle.world_core.specs.Kept.{nodes_of, files_of};
ghost use Rattle.world_core.specs.Fit.{IsGoing, max_events};
ghost use Rattle.world_core.specs.Files.{SetsNode};

use net_model::{Bytes, Outcome};
use proto_model::{Crashing, FromNode, NodeFault, Replica, Status, ToNode};
use std::alloc::{AllocError, Global};

/// So many bytes of a file are shown at most.
const SHOWN: usize = 256;

/// Lets a node take a request.
pub(crate) fn step_node<R: Crashing>(
    nodes: &mut Vec<R>,
    i: u8,
    m: &ToNode,
) -> Result<FromNode, AllocError>
    requires node { (1 ≤ i) × (i ≤ length nodes.old.items) }
    requires valid { IsValidToNode m.now }
    requires going { AllByRecursion (IsGoing R.is_faultless R.shown max_events) nodes.old.items }
    ensures nodes { OnOk result (SetsNode R.state R.files nodes.old.items nodes.new.items i
        (replica_after (nodes_of (map R.state nodes.old.items) i) m.now)) }
    ensures reply { IfOk result (λ reply. reply ≡ replica_reply (nodes_of (map R.state nodes.old.items) i) m.now) }
    ensures valid { IfOk result IsValidFromNode }
    ensures size { length nodes.new.items ≡ length nodes.old.items }
    ensures going { (most : ℕ) → AllByRecursion (IsGoing R.is_faultless R.shown most) nodes.old.items →
        OnOk result (AllByRecursion (IsGoing R.is_faultless R.shown (most + 1)) nodes.new.items) }
{
    let node = &mut nodes[i as usize - 1];
    match node.step(m) {
        Ok(reply) => Ok(reply),
        Err(NodeFault::Memory) => Err(AllocError),
        Err(_) => unreachable!(),
    }
}

/// Stops a node between two steps, and loads it again.
pub(crate) fn crash_node<R: Crashing>(nodes: &mut Vec<R>, i: u8) -> Result<Status, AllocError>
    requires node { (1 ≤ i) × (i ≤ length nodes.old.items) }
    requires going { AllByRecursion (IsGoing R.is_faultless R.shown max_events) nodes.old.items }
    ensures nodes { OnOk result (SetsNode R.state R.files nodes.old.items nodes.new.items i
        (unstaged (nodes_of (map R.state nodes.old.items) i))) }
    ensures status { IfOk result (IsShown (unstaged (nodes_of (map R.state nodes.old.items) i))) }
    ensures size { length nodes.new.items ≡ length nodes.old.items }
    ensures going { (most : ℕ) → AllByRecursion (IsGoing R.is_faultless R.shown most) nodes.old.items →
        OnOk result (AllByRecursion (IsGoing R.is_faultless R.shown (most + 1)) nodes.new.items) }
{
    let node = &mut nodes[i as usize - 1];
    match node.crash() {
        Ok(()) => {
            let status = node.status();
            Ok(status)
        }
        Err(NodeFault::Memory) => Err(AllocError),
        Err(_) => unreachable!(),
    }
}

/// Lets a node take a request and stop within the step, and loads it again.
pub(crate) fn tear_node<R: Crashing>(
    nodes: &mut Vec<R>,
    i: u8,
    m: &ToNode,
    keep: u32,
) -> Result<Status, AllocError>
    requires node { (1 ≤ i) × (i ≤ length nodes.old.items) }
    requires valid { IsValidToNode m.now }
    requires going { AllByRecursion (IsGoing R.is_faultless R.shown max_events) nodes.old.items }
    ensures torn { IfOk result (λ status. (after : ReplicaState) × IsCrashOf (nodes_of (map R.state nodes.old.items) i) m.now after ×
        SetsNode R.state R.files nodes.old.items nodes.new.items i after × IsShown after status) }
    ensures size { length nodes.new.items ≡ length nodes.old.items }
    ensures going { (most : ℕ) → AllByRecursion (IsGoing R.is_faultless R.shown most) nodes.old.items →
        OnOk result (AllByRecursion (IsGoing R.is_faultless R.shown (most + 1)) nodes.new.items) }
{
    let node = &mut nodes[i as usize - 1];
    match node.step_torn(m, u64::from(keep)) {
        Ok(()) => {
            let status = node.status();
            Ok(status)
        }
        Err(NodeFault::Memory) => Err(AllocError),
        Err(_) => unreachable!(),
    }
}

/// The numbers of a node's state.
pub(crate) fn node_status<R: Crashing>(nodes: &Vec<R>, i: u8) -> Status
    requires node { (1 ≤ i) × (i ≤ length nodes.now.items) }
    requires faultless { AllByRecursion R.is_faultless nodes.now.items }
    ensures { IsShown (nodes_of (map R.state nodes.now.items) i) result }
{
    let node = &nodes[i as usize - 1];
    node.status()
}

// The bytes of a node's file from a place on.
fn dump_file<R: Crashing>(
    alloc: Global,
    node: &R,
    file: u32,
    at: u32,
) -> Result<Outcome, AllocError>
    ensures { IfOk result (λ outcome. outcome ≡ dump_outcome (R.files node.now file) at) }
{
    let mut room = [0; SHOWN];
    let (len, count) = node.peek(file, u64::from(at), &mut room);
    let bytes = room[..count].to_vec(alloc)?;
    Ok(Outcome::Dump(len, Bytes::new(bytes)))
}

/// The bytes of a node's file from a place on.
pub(crate) fn dump_node<R: Crashing>(
    alloc: Global,
    nodes: &Vec<R>,
    i: u8,
    file: u32,
    at: u32,
) -> Result<Outcome, AllocError>
    requires { (1 ≤ i) × (i ≤ length nodes.now.items) }
    ensures { IfOk result (λ outcome. outcome ≡ dump_outcome (files_of (map R.files nodes.now.items) i file) at) }
{
    let node = &nodes[i as usize - 1];
    let outcome = dump_file(alloc, node, file, at)?;
    Ok(outcome)
}
