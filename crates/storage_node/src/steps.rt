//! A step of a store on a message: the refusals in their order, and then the call that the message asks for.
ghost use Rattle.std.specs.Prelude.{◌≡◌, ◌≤◌, false, IfSome, IfNone, IsErrOf};
ghost use Rattle.tx_model.specs.Records.{IsPlace};
ghost use Rattle.tx_model.specs.Spelling.{IsCount, IsNextPlace};
ghost use Rattle.disk_model.specs.History.{KeepsWorking};
ghost use Rattle.proto_model.specs.Nodes.{HasNodeCause};
ghost use Rattle.proto_model.specs.Replicas.{ReplicaState};
ghost use Rattle.proto_model.specs.Sanity.{request_session};
ghost use Rattle.proto_model.specs.Validity.{IsUpTo, IsValidToNode, IsValidFromNode};
ghost use Rattle.proto_model.specs.declared.replica.NodeFault.TheVariants.{Disk as Broke};
ghost use Rattle.partition_store.specs.Stores.{IsInRange};
ghost use Rattle.storage_node.specs.Steps.{is_open, IsCurrent, IsIdle, IsSteady, IsStep};

use disk_model::Disk;
use partition_store::Store;
use proto_model::{FromNode, NodeFault, Status, ToNode};
use tx_model::Batch;

// The session of a message.
fn session_of(m: &ToNode) -> u64
    ensures { result ≡ request_session m.now }
{
    match m {
        ToNode::Open(session)
        | ToNode::Fetch(session, _, _)
        | ToNode::Stage(session, _)
        | ToNode::Adopt(session, _)
        | ToNode::Append(session, _)
        | ToNode::Low(session, _) => *session,
    }
}

fn is_open(m: &ToNode) -> bool
    ensures { result ≡ is_open m.now }
{
    matches!(m, ToNode::Open(_))
}

// The reply to a message whose session is not taken.
fn refusal(status: Status, m: &ToNode) -> Option<FromNode>
    requires range { IsInRange status }
    requires valid { IsValidToNode m.now }
    ensures refused { IfSome result (λ reply. (r : ReplicaState) →
        r.promised ≡ status.promised → IsIdle r m.now reply) }
    ensures valid { IfSome result IsValidFromNode }
    ensures taken { IfNone result (IsCurrent status.promised m.now) }
{
    let session = session_of(m);
    if session < status.promised {
        return Some(FromNode::Stale(session, status.promised));
    }
    if is_open(m) {
        return None;
    }
    if status.promised < session {
        return Some(FromNode::Unopened(session, status.promised));
    }
    None
}

/// Takes a message, and answers it.
pub(crate) fn take<D: Disk>(store: &mut Store<D>, m: &ToNode) -> Result<FromNode, NodeFault>
    requires valid { IsValidToNode m.now }
    requires steady { IsSteady D.tells D.history store.old }
    requires on { store.old.shut ≡ false }
    ensures step { IsStep D.tells D.plain D.history m.now store.old store.new result }
    ensures cause { HasNodeCause (D.faults store.old.disk) (D.faults store.new.disk) result }
    ensures keeps { KeepsWorking D.reliable D.unfailing store.old.disk store.new.disk
        (IsErrOf result Broke) }
{
    if let Some(reply) = refusal(store.status(), m) {
        return Ok(reply);
    }
    effect(store, m)
}

// Takes a message whose session is taken.
fn effect<D: Disk>(store: &mut Store<D>, m: &ToNode) -> Result<FromNode, NodeFault>
    requires valid { IsValidToNode m.now }
    requires steady { IsSteady D.tells D.history store.old }
    requires on { store.old.shut ≡ false }
    requires current { IsCurrent store.old.status.promised m.now }
    ensures step { IsStep D.tells D.plain D.history m.now store.old store.new result }
    ensures cause { HasNodeCause (D.faults store.old.disk) (D.faults store.new.disk) result }
    ensures keeps { KeepsWorking D.reliable D.unfailing store.old.disk store.new.disk
        (IsErrOf result Broke) }
{
    match m {
        ToNode::Open(session) => open(store, *session),
        ToNode::Fetch(session, from, max) => fetch(store, *session, *from, *max),
        ToNode::Stage(session, batch) => stage(store, *session, batch),
        ToNode::Adopt(session, length) => adopt(store, *session, *length),
        ToNode::Append(session, batch) => append(store, *session, batch),
        ToNode::Low(session, mark) => low(store, *session, *mark),
    }
}

fn open<D: Disk>(store: &mut Store<D>, session: u64) -> Result<FromNode, NodeFault>
    requires valid { IsPlace session }
    requires steady { IsSteady D.tells D.history store.old }
    requires on { store.old.shut ≡ false }
    requires current { store.old.status.promised ≤ session }
    ensures step { IsStep D.tells D.plain D.history (ToNode.Open session)
        store.old store.new result }
    ensures cause { HasNodeCause (D.faults store.old.disk) (D.faults store.new.disk) result }
    ensures keeps { KeepsWorking D.reliable D.unfailing store.old.disk store.new.disk
        (IsErrOf result Broke) }
{
    let status = store.status();
    let reply = FromNode::Opened(session, status.adopted, status.low, status.length);
    if session == status.promised {
        return Ok(reply);
    }
    match store.promise(session) {
        Ok(()) => Ok(reply),
        Err(fault) => Err(fault),
    }
}

fn fetch<D: Disk>(
    store: &mut Store<D>,
    session: u64,
    from: u64,
    max: u8,
) -> Result<FromNode, NodeFault>
    requires valid { IsPlace session × IsNextPlace from × IsUpTo 8 max }
    requires steady { IsSteady D.tells D.history store.old }
    requires on { store.old.shut ≡ false }
    requires current { session ≡ store.old.status.promised }
    ensures step { IsStep D.tells D.plain D.history (ToNode.Fetch session from max)
        store.old store.new result }
    ensures cause { HasNodeCause (D.faults store.old.disk) (D.faults store.new.disk) result }
    ensures keeps { KeepsWorking D.reliable D.unfailing store.old.disk store.new.disk
        (IsErrOf result Broke) }
{
    let length = store.status().length;
    if length < from {
        return Ok(FromNode::Gap(session, length));
    }
    match store.get_run(from, max) {
        Ok(records) => Ok(FromNode::Records(session, Batch::of_records(records))),
        Err(fault) => Err(fault),
    }
}

fn stage<D: Disk>(store: &mut Store<D>, session: u64, batch: &Batch) -> Result<FromNode, NodeFault>
    requires valid { IsPlace session }
    requires steady { IsSteady D.tells D.history store.old }
    requires on { store.old.shut ≡ false }
    requires current { session ≡ store.old.status.promised }
    ensures step { IsStep D.tells D.plain D.history (ToNode.Stage session batch.now)
        store.old store.new result }
    ensures cause { HasNodeCause (D.faults store.old.disk) (D.faults store.new.disk) result }
    ensures keeps { KeepsWorking D.reliable D.unfailing store.old.disk store.new.disk
        (IsErrOf result Broke) }
{
    let status = store.status();
    if status.adopted == session {
        return Ok(FromNode::Adopted(session, status.length));
    }
    let upto = status.low + store.staged();
    if batch.first() != upto + 1 {
        return Ok(FromNode::StageAt(session, upto + 1));
    }
    match store.stage(batch) {
        Ok(()) => Ok(FromNode::Staged(session, status.low + store.staged())),
        Err(fault) => Err(fault),
    }
}

fn adopt<D: Disk>(store: &mut Store<D>, session: u64, length: u64) -> Result<FromNode, NodeFault>
    requires valid { IsPlace session × IsCount length }
    requires steady { IsSteady D.tells D.history store.old }
    requires on { store.old.shut ≡ false }
    requires current { session ≡ store.old.status.promised }
    ensures step { IsStep D.tells D.plain D.history (ToNode.Adopt session length)
        store.old store.new result }
    ensures cause { HasNodeCause (D.faults store.old.disk) (D.faults store.new.disk) result }
    ensures keeps { KeepsWorking D.reliable D.unfailing store.old.disk store.new.disk
        (IsErrOf result Broke) }
{
    let status = store.status();
    if status.adopted == session {
        return Ok(FromNode::Adopted(session, status.length));
    }
    let upto = status.low + store.staged();
    if length != upto {
        return Ok(FromNode::StageAt(session, upto + 1));
    }
    match store.adopt(session) {
        Ok(()) => Ok(FromNode::Adopted(session, length)),
        Err(fault) => Err(fault),
    }
}

fn append<D: Disk>(store: &mut Store<D>, session: u64, batch: &Batch) -> Result<FromNode, NodeFault>
    requires valid { IsPlace session }
    requires steady { IsSteady D.tells D.history store.old }
    requires on { store.old.shut ≡ false }
    requires current { session ≡ store.old.status.promised }
    ensures step { IsStep D.tells D.plain D.history (ToNode.Append session batch.now)
        store.old store.new result }
    ensures cause { HasNodeCause (D.faults store.old.disk) (D.faults store.new.disk) result }
    ensures keeps { KeepsWorking D.reliable D.unfailing store.old.disk store.new.disk
        (IsErrOf result Broke) }
{
    let status = store.status();
    if status.adopted != session {
        return Ok(FromNode::NotAdopted(session, status.adopted));
    }
    if status.length + 1 < batch.first() {
        return Ok(FromNode::Gap(session, status.length));
    }
    match store.append(batch) {
        Ok(()) => Ok(FromNode::Acked(session, store.status().length)),
        Err(fault) => Err(fault),
    }
}

fn low<D: Disk>(store: &mut Store<D>, session: u64, mark: u64) -> Result<FromNode, NodeFault>
    requires valid { IsPlace session × IsCount mark }
    requires steady { IsSteady D.tells D.history store.old }
    requires on { store.old.shut ≡ false }
    requires current { session ≡ store.old.status.promised }
    ensures step { IsStep D.tells D.plain D.history (ToNode.Low session mark)
        store.old store.new result }
    ensures cause { HasNodeCause (D.faults store.old.disk) (D.faults store.new.disk) result }
    ensures keeps { KeepsWorking D.reliable D.unfailing store.old.disk store.new.disk
        (IsErrOf result Broke) }
{
    let status = store.status();
    if status.adopted != session {
        return Ok(FromNode::NotAdopted(session, status.adopted));
    }
    if status.length < mark {
        return Ok(FromNode::Gap(session, status.length));
    }
    if mark <= status.low {
        return Ok(FromNode::LowSet(session, status.low));
    }
    match store.low(mark) {
        Ok(()) => Ok(FromNode::LowSet(session, mark)),
        Err(fault) => Err(fault),
    }
}
