ghost use Rattle.std.specs.Prelude.{◌≡◌, ◌≤◌, ◌<◌, ◌||◌, ℕ, true, set, slice_index_or, length, Ok, IfOk, OnOk, OnErr};
ghost use Rattle.wire_codec.specs.Spelling.{IsValidMessage};
ghost use Rattle.server_loop.specs.Failures.{HasAnswerCause, HasCounted};
ghost use Rattle.server_loop.specs.Drives.{driving, out_after, state_after, work, AnswersOf, IsCutDrive, IsCutRound, IsDrive, IsLess, IsCutVisit, IsRound, IsValidAnswer, IsVisit, IsWanted};

use crate::awaiting::{Answer, answer_of, is_awaited_by};
use crate::driven::Driven;
use crate::exchanges::exchange;
use io_core::Link;
use std::alloc::{AllocError, Global};
use wire_codec::{MAX_FRAME, Message};

/// Whether a node takes part in a drive.
#[derive(Clone, Copy, Debug, PartialEq, Eq)]
pub enum Out {
    /// It does.
    In,
    /// An exchange with it failed.
    Failed,
    /// It gave another reply than the awaited one.
    Other,
}

// One exchange with a node.
#[tactic(auto, using(crate::proofs::Counting::answer_cause))]
fn ask_node<L: Link>(
    alloc: Global,
    link: &mut L,
    port: u16,
    message: &Message,
    room: &mut [u8],
) -> Result<Answer, AllocError>
    requires valid { IsValidMessage message.now }
    requires room { length room.old ≡ MAX_FRAME }
    ensures told { L.tells →
        AnswersOf port message.now (L.transcript link.old) (L.transcript link.new) result }
    ensures valid { IfOk result IsValidAnswer }
    ensures room { length room.new ≡ length room.old }
    ensures cause { IfOk result (HasAnswerCause (L.faults link.old) (L.faults link.new)) }
{
    match exchange(alloc, link, port, message, room) {
        Ok(reply) => Ok(answer_of(reply)),
        Err(_) => Err(AllocError),
    }
}

// Takes what came back of an exchange.
fn hear<S: Driven>(
    server: &mut S,
    outs: &mut [Out; 8],
    node: u8,
    sent: &Message,
    answer: Answer,
) -> Result<(), AllocError>
    requires some { 1 ≤ node }
    requires within { node ≤ (S.config server.old).nodes }
    requires few { node ≤ 7 }
    requires valid { IsValidAnswer answer }
    requires is_in { slice_index_or outs.old node Out.In ≡ Out.In }
    requires wanted { IsWanted (S.config server.old) (S.state server.old) node sent.now }
    ensures state { OnOk result (S.state server.new ≡
        state_after (S.config server.old) (S.state server.old) node answer) }
    ensures config { S.config server.new ≡ S.config server.old }
    ensures outs { OnOk result (outs.new ≡
        set outs.old node (out_after (S.state server.old) sent.now answer)) }
    ensures less { OnOk result (work outs.new (S.lack server.new) < work outs.old (S.lack server.old)) }

    // The link's count of faults before and after the exchange.
    ensures counted { OnOk result ((before now : ℕ) → HasAnswerCause before now answer →
        HasCounted before now outs.old outs.new) }
{
    let last = server.last();
    match answer {
        Answer::From(reply) => {
            outs[node as usize] = if is_awaited_by(sent, &reply, last) {
                Out::In
            } else {
                Out::Other
            };
            server.receive(node, reply)
        }
        Answer::Garbled => {
            outs[node as usize] = Out::Other;
            Ok(())
        }
        Answer::Failed => {
            outs[node as usize] = Out::Failed;
            Ok(())
        }
    }
}

// Lets a node have its next message, and says whether there was one.
#[tactic(auto, using(crate::proofs::Moving::wanted_next, crate::proofs::Counting::none_counted))]
fn visit<S: Driven, L: Link>(
    alloc: Global,
    server: &mut S,
    link: &mut L,
    ports: &[u16],
    outs: &mut [Out; 8],
    node: u8,
    room: &mut [u8],
) -> Result<bool, AllocError>
    requires some { 1 ≤ node }
    requires within { node ≤ (S.config server.old).nodes }
    requires few { node ≤ 7 }
    requires ports { length ports.now ≡ (S.config server.old).nodes }
    requires room { length room.old ≡ MAX_FRAME }
    ensures visit { IfOk result (λ sent. L.tells → IsVisit (S.config server.old) ports.now node sent
        (driving (S.state server.old) outs.old (L.transcript link.old))
        (driving (S.state server.new) outs.new (L.transcript link.new))) }
    ensures cut { OnErr result (L.tells → IsCutVisit (S.config server.old) ports.now node
        (driving (S.state server.old) outs.old (L.transcript link.old)) (L.transcript link.new)) }
    ensures config { S.config server.new ≡ S.config server.old }
    ensures room { length room.new ≡ length room.old }
    ensures less { IfOk result (λ sent. IsLess sent
        (work outs.old (S.lack server.old)) (work outs.new (S.lack server.new))) }
    ensures counted { OnOk result (HasCounted (L.faults link.old) (L.faults link.new) outs.old outs.new) }
{
    if outs[node as usize] != Out::In {
        return Ok(false);
    }
    let Some(sent) = server.next_for(node)? else {
        return Ok(false);
    };
    let message = Message::ToNode(sent);
    let answer = ask_node(alloc, link, ports[node as usize - 1], &message, room)?;
    hear(server, outs, node, &message, answer)?;
    Ok(true)
}

fn either(a: bool, b: bool) -> bool
    ensures { result ≡ (a || b) }
{
    a || b
}

// One round, and whether another one follows.
#[tactic(auto, using(crate::proofs::Moving::closed_round, crate::proofs::Moving::whole_round, crate::proofs::Moving::less_sent))]
fn round<S: Driven, L: Link>(
    alloc: Global,
    server: &mut S,
    link: &mut L,
    ports: &[u16],
    outs: &mut [Out; 8],
    room: &mut [u8],
) -> Result<bool, AllocError>
    requires ports { length ports.now ≡ (S.config server.old).nodes }
    requires room { length room.old ≡ MAX_FRAME }
    ensures round { IfOk result (λ on. L.tells → IsRound (S.config server.old) ports.now on
        (driving (S.state server.old) outs.old (L.transcript link.old))
        (driving (S.state server.new) outs.new (L.transcript link.new))) }
    ensures cut { OnErr result (L.tells → IsCutRound (S.config server.old) ports.now
        (driving (S.state server.old) outs.old (L.transcript link.old)) (L.transcript link.new)) }
    ensures config { S.config server.new ≡ S.config server.old }
    ensures room { length room.new ≡ length room.old }
    ensures less { result ≡ Ok true → work outs.new (S.lack server.new) < work outs.old (S.lack server.old) }
    ensures counted { OnOk result (HasCounted (L.faults link.old) (L.faults link.new) outs.old outs.new) }
{
    let mut sent = false;
    for before in 0..server.nodes() {
        if server.is_closed() {
            return Ok(false);
        }
        let more = visit(alloc, server, link, ports, outs, before + 1, room)?;
        sent = either(sent, more);
    }
    if server.is_closed() {
        return Ok(false);
    }
    Ok(sent)
}

/// Brings the nodes forward as far as they answer. Each exchange puts its node out or moves it forward, so a drive ends.
/// Where memory runs out, nothing is sent behind the message whose reply is lost.
pub fn drive<S: Driven, L: Link>(
    alloc: Global,
    server: &mut S,
    link: &mut L,
    ports: &[u16],
    outs: &mut [Out; 8],
    room: &mut [u8],
) -> Result<(), AllocError>
    requires ports { length ports.now ≡ (S.config server.old).nodes }
    requires room { length room.old ≡ MAX_FRAME }
    ensures drive { OnOk result (L.tells → IsDrive (S.config server.old) ports.now
        (driving (S.state server.old) outs.old (L.transcript link.old))
        (driving (S.state server.new) outs.new (L.transcript link.new))) }
    ensures cut { OnErr result (L.tells → IsCutDrive (S.config server.old) ports.now
        (driving (S.state server.old) outs.old (L.transcript link.old)) (L.transcript link.new)) }
    ensures config { S.config server.new ≡ S.config server.old }
    ensures room { length room.new ≡ length room.old }

    // A node is out by a failed exchange only where the link counted a fault.
    ensures counted { OnOk result (HasCounted (L.faults link.old) (L.faults link.new) outs.old outs.new) }
{
    'rounds: while round(alloc, server, link, ports, outs, room)? {}
    Ok(())
}
