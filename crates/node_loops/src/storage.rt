ghost use Rattle.std.specs.Prelude.{◌≡◌, ◌<◌, ◌^◌, ◌-◌, ◌⊎◌, ℕ, Bool, true, false, None, Some, IfOk, IfErr, IsOk, OnOk, Err};
ghost use Rattle.io_core.specs.Causes.{Rose};
ghost use Rattle.proto_model.specs.Validity.{IsValidToNode};
ghost use Rattle.wire_codec.specs.Spelling.{IsValidMessage};
ghost use Rattle.node_loops.specs.declared.end.End.{End as EndValue};
ghost use Rattle.node_loops.specs.declared.requests.Asked.TheVariants as asks;
ghost use Rattle.node_loops.specs.Ends.{status_of, serving_text, Prints, IsBroken, Counts, HasItsCause, IsFailing, IsOwn, IsBlind};
ghost use Rattle.node_loops.specs.Serving.{desk, Runs};
ghost use Rattle.node_loops.specs.Storage.{IsNodeReply, IsNodeFault, goes_on, NodeTells, NodeHides};

use crate::{Asked, End, Serving, serve};
use io_core::{Port, Sink};
use proto_model::{NodeFault, Replica, ToNode};
use std::alloc::Global;
use wire_codec::{Control, Message};

// Lets the node take a message.
fn step_of<R: Replica>(node: &mut R, m: &ToNode) -> Result<Message, End>
    requires valid { IsValidToNode m.now }
    requires works { R.shut node.old ≡ false }
    ensures replied { IfOk result (λ reply. IsNodeReply R.tells R.state R.shut R.shown
        (asks.Node m.now) reply node.old node.new) }
    ensures valid { IfOk result IsValidMessage }
    ensures failed { IfErr result (λ end. IsNodeFault R.tells R.state R.files R.sure R.shut R.shown
        (asks.Node m.now) end node.old node.new) }
    ensures ends { IfErr result IsFailing }
    ensures disk { Counts (R.faults node.old) (R.faults node.new) (result ≡ Err End.Disk) }
    ensures blind { IfErr result (λ end. IsBlind end → NodeHides R.tells end) }
    ensures own { IfErr result (λ end. IsOwn end →
        NodeTells R.tells (R.shown node.new).file end) }
{
    match node.step(m) {
        Ok(reply) => Ok(Message::FromNode(reply)),
        Err(NodeFault::Disk) => Err(End::Disk),
        Err(NodeFault::Damaged(file, at)) => Err(End::Damaged(file, at)),
        Err(NodeFault::Shut) => unreachable!(),
        Err(NodeFault::Full) => Err(End::Full),
        Err(NodeFault::Memory) => Err(End::Memory),
    }
}

impl<R: Replica> Serving<ToNode> for R {
    ghost replies = { IsNodeReply R.tells R.state R.shut R.shown };

    ghost fails = { IsNodeFault R.tells R.state R.files R.sure R.shut R.shown };

    ghost over = { goes_on };

    ghost works = { λ r. R.shut r ≡ false };

    ghost faults = { R.faults };

    ghost blind = { λ _. NodeHides R.tells };

    ghost own = { λ r end. NodeTells R.tells (R.shown r).file end };

    fn reply_to(&mut self, asked: Asked) -> Result<Message, End> {
        match asked {
            Asked::Node(m) => step_of(self, &m),
            Asked::Bye => Ok(Message::Control(Control::Done)),
            Asked::Server(_) => Ok(Message::Control(Control::No)),
            Asked::Register(_) => Ok(Message::Control(Control::No)),
            Asked::Other => Ok(Message::Control(Control::No)),
        }
    }

    fn end(&self) -> Option<End> {
        None
    }
}

/// Serves a storage node at a port, up to an end, and gives the status.
pub fn serve_storage<R: Replica, P: Port, W: Sink>(
    alloc: Global,
    node: &mut R,
    port: &mut P,
    number: u16,
    sink: &mut W,
) -> u8
    requires works { R.shut node.old ≡ false }
    ensures runs { (end : EndValue)
        × (P.tells → Runs R (IsNodeReply R.tells R.state R.shut R.shown)
        (IsNodeFault R.tells R.state R.files R.sure R.shut R.shown) goes_on
        (desk (P.coming port.old) (P.answers port.old) node.old)
        (desk (P.coming port.new) (P.answers port.new) node.new) end)
        × Prints (W.contents sink.old) (W.contents sink.new) (serving_text number end)
        (status_of end) result
        × HasItsCause (P.faults port.old) (P.faults port.new)
        (R.faults node.old) (R.faults node.new)
        (NodeTells R.tells (R.shown node.new).file) (NodeHides R.tells) end }

    // A fault is told only where it was counted, and is told where it was, unless the output or memory failed.
    ensures write { result ≡ 11 → Rose (W.faults sink.old) (W.faults sink.new) }
    ensures disk { result ≡ 12 → Rose (R.faults node.old) (R.faults node.new) }
    ensures peer { result ≡ 13 → Rose (P.faults port.old) (P.faults port.new) }
    ensures told { W.faults sink.old < W.faults sink.new → result ≡ 11 }
    ensures disk_told { R.faults node.old < R.faults node.new → (result ≡ 12) ⊎ IsBroken result }
    ensures peer_told { P.faults port.old < P.faults port.new → (result ≡ 13) ⊎ IsBroken result }
    ensures damaged { result ≡ 15 → R.tells → ⊥ }
    ensures full { result ≡ 21 → R.tells → (R.shown node.new).file ≡ 2 ^ 32 - 1 }
    ensures others { (result ≡ 16) ⊎ (result ≡ 19) → ⊥ }
{
    serve::<ToNode, R, P, W>(alloc, node, port, number, sink)
}
