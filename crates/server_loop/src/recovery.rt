ghost use Rattle.std.specs.Prelude.{◌≡◌, ◌≤◌, ℕ, IfOk, IfErr, IfSome, OnOk, OnErr, Ok, Err, None, length, Result};
ghost use Rattle.io_core.specs.Causes.{Rose};
ghost use Rattle.proto_model.specs.Servers.{drawn};
ghost use Rattle.tx_model.specs.Records.{IsPlace};
ghost use Rattle.session_register.specs.Registers.{IsCas};
ghost use Rattle.server_loop.specs.Failures.{HasCounted};
ghost use Rattle.server_loop.specs.Serving.{standing, all_in, IsFreshDrive, IsFreshCut};
ghost use Rattle.server_loop.specs.Sessions.{post, session_of, recovery_end, Begins};
ghost use Rattle.server_loop.specs.Ends.{IsBeginningEnd, HasCountedOuts};

use crate::End;
use crate::driving::Out;
use crate::host::Host;
use crate::link_register::draw;
use crate::serving::drive_all;
use io_core::Link;
use proto_model::Phase;
use session_register::{Cas, RegisterFault};
use std::alloc::{AllocError, Global};
use wire_codec::MAX_FRAME;

// The session of a draw, or the end that it is.
fn session_of(answer: Result<Cas, RegisterFault>) -> Result<u64, End>
    requires { IfOk answer IsCas }
    ensures value { result ≡ session_of answer }
    ensures valid { IfOk result IsPlace }
    ensures ends { IfErr result IsBeginningEnd }
{
    match answer {
        Ok(Cas::Won(session)) => Ok(session),
        Ok(Cas::Lost(other)) => Err(End::TakenOver(other)),
        Ok(Cas::Exhausted) => Err(End::Exhausted),
        Err(RegisterFault::Failed) => Err(End::Register),
        Err(RegisterFault::Garbled) => Err(End::Garbled),
        Err(RegisterFault::Memory) => Err(End::Memory),
    }
}

// What a recovery's drive leads to.
fn recovery_end(phase: Phase, outs: [Out; 8]) -> Option<End>
    ensures value { result ≡ recovery_end phase outs }
    ensures ends { IfSome result IsBeginningEnd }
{
    match phase {
        Phase::Running => None,
        Phase::Closed(session) => Some(End::TakenOver(session)),
        Phase::Idle => Some(End::NoQuorum(outs)),
        Phase::Opening => Some(End::NoQuorum(outs)),
        Phase::Fetching => Some(End::NoQuorum(outs)),
        Phase::Repairing => Some(End::NoQuorum(outs)),
    }
}

// Begins a session, and brings the nodes forward. It tells which nodes are out then.
fn recover<H: Host, L: Link>(
    alloc: Global,
    host: &mut H,
    link: &mut L,
    ports: &[u16],
    session: u64,
    room: &mut [u8],
) -> Result<[Out; 8], AllocError>
    requires session { IsPlace session }
    requires ports { length ports.now ≡ (H.config host.old).nodes }
    requires room { length room.old ≡ MAX_FRAME }
    ensures drive { IfOk result (λ out. L.tells → IsFreshDrive (H.config host.old) ports.now
        (standing (drawn session) (L.transcript link.old))
        (standing (H.state host.new) (L.transcript link.new)) out) }
    ensures cut { OnErr result (L.tells → IsFreshCut (H.config host.old) ports.now
        (standing (drawn session) (L.transcript link.old)) (L.transcript link.new)) }
    ensures config { H.config host.new ≡ H.config host.old }
    ensures room { length room.new ≡ length room.old }
    ensures counted { IfOk result (HasCounted (L.faults link.old) (L.faults link.new) all_in) }
{
    host.drew(session);
    drive_all(alloc, host, link, ports, room)
}

/// Draws a session from the register at this port, and recovers the log. Where it begins, the server is running.
#[tactic(auto, using(crate::proofs::Causes::register_cause))]
pub fn begin_session<H: Host, L: Link>(
    alloc: Global,
    host: &mut H,
    link: &mut L,
    register: u16,
    ports: &[u16],
    room: &mut [u8],
) -> Result<u64, End>
    requires ports { length ports.now ≡ (H.config host.old).nodes }
    requires room { length room.old ≡ MAX_FRAME }
    ensures begins { L.tells → (number : ℕ) → Begins (post (H.config host.old) register ports.now number)
        (L.transcript link.old) (standing (H.state host.new) (L.transcript link.new)) result }
    ensures config { H.config host.new ≡ H.config host.old }
    ensures room { length room.new ≡ length room.old }
    ensures ends { IfErr result IsBeginningEnd }
    ensures register { result ≡ Err End.Register → Rose (L.faults link.old) (L.faults link.new) }
    ensures counted { IfErr result (λ end. HasCountedOuts end (L.faults link.old) (L.faults link.new)) }
{
    let session = match session_of(draw(alloc, link, register, room)) {
        Ok(session) => session,
        Err(end) => return Err(end),
    };
    let Ok(outs) = recover(alloc, host, link, ports, session, room) else {
        return Err(End::Memory);
    };
    match recovery_end(host.phase(), outs) {
        None => Ok(session),
        Some(end) => Err(end),
    }
}
