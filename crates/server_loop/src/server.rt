ghost use Rattle.std.specs.Prelude.{◌≡◌, ◌≤◌, ◌<◌, ◌⊎◌, ◌++◌, ℕ, List, IfOk, IfErr, OnOk, Err, length};
ghost use Rattle.std.specs.Io.KnownBytes.{Appends};
ghost use Rattle.std.specs.String.{string_bytes};
ghost use Rattle.io_core.specs.Causes.{Rose};
ghost use Rattle.server_loop.specs.declared.end.End.{End as EndValue};
ghost use Rattle.server_loop.specs.Ends.{Prints, IsBroken, status_of, last_line, session_line, listening_line, HasCountedOuts, HasPrinted, IsUnannounced, SaysPart};
ghost use Rattle.server_loop.specs.Turns.{Desk, desk};
ghost use Rattle.server_loop.specs.Serving.{Standing, standing};
ghost use Rattle.server_loop.specs.Sessions.{post, Opens, Runs};

use crate::End;
use crate::end::last_line;
use crate::host::Host;
use crate::recovery::begin_session;
use crate::requests::zeros;
use crate::turns::take_turns;
use io_core::{Fault, Link, Port, Sink, write_all};
use std::alloc::{AllocError, Global};
use wire_codec::MAX_FRAME;

// Writes a text.
fn say<W: Sink>(sink: &mut W, text: &str) -> Result<(), End>
    ensures written { OnOk result (Appends (W.contents sink.old) (W.contents sink.new) text.now) }
    ensures part { IfErr result (SaysPart (W.contents sink.old) (W.contents sink.new) text.now) }
    ensures later { W.faults sink.old ≤ W.faults sink.new }
    ensures fault { result ≡ Err End.WriteFault → Rose (W.faults sink.old) (W.faults sink.new) }
    ensures told { W.faults sink.old < W.faults sink.new → result ≡ Err End.WriteFault }
{
    match write_all(sink, text.as_bytes()) {
        Ok(()) => Ok(()),
        Err(Fault::Failed) => Err(End::WriteFault),
        Err(Fault::Memory) => Err(End::Memory),
    }
}

// Prints that a session began, and which log it recovered.
fn say_session<W: Sink>(
    alloc: Global,
    sink: &mut W,
    session: u64,
    recovered: u64,
) -> Result<(), End>
    ensures written { OnOk result (Appends (W.contents sink.old) (W.contents sink.new) (session_line session recovered)) }
    ensures part { IfErr result (SaysPart (W.contents sink.old) (W.contents sink.new) (session_line session recovered)) }
    ensures later { W.faults sink.old ≤ W.faults sink.new }
    ensures fault { result ≡ Err End.WriteFault → Rose (W.faults sink.old) (W.faults sink.new) }
    ensures told { W.faults sink.old < W.faults sink.new → result ≡ Err End.WriteFault }
{
    match format!(in alloc; "session {session} recovered {recovered}\n") {
        Ok(text) => say(sink, &text),
        Err(_) => Err(End::Memory),
    }
}

// Prints that the server listens.
fn say_listening<W: Sink>(alloc: Global, sink: &mut W, number: u16) -> Result<(), End>
    ensures written { OnOk result (Appends (W.contents sink.old) (W.contents sink.new) (listening_line number)) }
    ensures part { IfErr result (SaysPart (W.contents sink.old) (W.contents sink.new) (listening_line number)) }
    ensures later { W.faults sink.old ≤ W.faults sink.new }
    ensures fault { result ≡ Err End.WriteFault → Rose (W.faults sink.old) (W.faults sink.new) }
    ensures told { W.faults sink.old < W.faults sink.new → result ≡ Err End.WriteFault }
{
    match format!(in alloc; "listening {number}\n") {
        Ok(text) => say(sink, &text),
        Err(_) => Err(End::Memory),
    }
}

// Begins to listen, and prints that the server runs and listens.
fn announce<P: Port, W: Sink>(
    alloc: Global,
    port: &mut P,
    number: u16,
    sink: &mut W,
    session: u64,
    recovered: u64,
) -> Result<(), End>
    ensures announced { OnOk result (Appends (W.contents sink.old) (W.contents sink.new) (session_line session recovered ++ listening_line number)) }
    ensures unannounced { IfErr result (IsUnannounced (W.contents sink.old) (W.contents sink.new) (session_line session recovered) (listening_line number)) }
    ensures coming { P.tells → P.coming port.new ≡ P.coming port.old }
    ensures answers { P.tells → P.answers port.new ≡ P.answers port.old }
    ensures port_later { P.faults port.old ≤ P.faults port.new }
    ensures peer { result ≡ Err End.Peer → Rose (P.faults port.old) (P.faults port.new) }
    ensures peer_told { P.faults port.old < P.faults port.new → result ≡ Err End.Peer }
    ensures sink_later { W.faults sink.old ≤ W.faults sink.new }
    ensures write { result ≡ Err End.WriteFault → Rose (W.faults sink.old) (W.faults sink.new) }
    ensures told { W.faults sink.old < W.faults sink.new → result ≡ Err End.WriteFault }
{
    match say_session(alloc, sink, session, recovered) {
        Ok(()) => {}
        Err(end) => return Err(end),
    }
    if port.listen(number).is_err() {
        return Err(End::Peer);
    }
    say_listening(alloc, sink, number)
}

// Draws a session, recovers and serves, up to an end.
fn run<H: Host, L: Link, P: Port, W: Sink>(
    alloc: Global,
    host: &mut H,
    link: &mut L,
    register: u16,
    nodes: &[u16],
    port: &mut P,
    number: u16,
    sink: &mut W,
) -> End
    requires nodes { length nodes.now ≡ (H.config host.old).nodes }
    ensures runs { (lines : List ℕ) × HasPrinted (W.contents sink.old) (W.contents sink.new) lines result
        × (L.tells → P.tells → Runs (post (H.config host.old) register nodes.now number) (L.transcript link.old) (P.coming port.old) (P.answers port.old)
        (desk (P.coming port.new) (P.answers port.new) (standing (H.state host.new) (L.transcript link.new))) lines result) }
    ensures register { result ≡ End.Register → Rose (L.faults link.old) (L.faults link.new) }
    ensures counted { HasCountedOuts result (L.faults link.old) (L.faults link.new) }
    ensures opens { L.tells → Opens (post (H.config host.old) register nodes.now number) (L.transcript link.old)
        (L.transcript link.new) result }
    ensures peer { result ≡ End.Peer → Rose (P.faults port.old) (P.faults port.new) }
    ensures peer_told { P.faults port.old < P.faults port.new → result ≡ End.Peer }
    ensures sink_later { W.faults sink.old ≤ W.faults sink.new }
    ensures write { result ≡ End.WriteFault → Rose (W.faults sink.old) (W.faults sink.new) }
    ensures told { W.faults sink.old < W.faults sink.new → result ≡ End.WriteFault }
{
    let Ok(mut room) = zeros(alloc, MAX_FRAME) else {
        return End::Memory;
    };
    let session = match begin_session(alloc, host, link, register, nodes, &mut room) {
        Ok(session) => session,
        Err(end) => return end,
    };
    match announce(alloc, port, number, sink, session, host.last()) {
        Ok(()) => take_turns(alloc, host, link, nodes, port, &mut room),
        Err(end) => end,
    }
}

// Prints the last line of an end, and gives the status. Where there is no such line, the sink is left alone.
fn finish<W: Sink>(alloc: Global, sink: &mut W, end: &End) -> u8
    ensures prints { Prints (W.contents sink.old) (W.contents sink.new) (last_line end.now) (status_of end.now) result }
    ensures broken { (end.now ≡ End.WriteFault) ⊎ (end.now ≡ End.Memory) → (result ≡ status_of end.now) × (sink.new ≡ sink.old) }
    ensures later { W.faults sink.old ≤ W.faults sink.new }
    ensures fault { result ≡ 11 → (status_of end.now ≡ 11) ⊎ Rose (W.faults sink.old) (W.faults sink.new) }
    ensures told { W.faults sink.old < W.faults sink.new → result ≡ 11 }
{
    match end {
        End::WriteFault | End::Memory => return end.status(),
        _ => {}
    }
    let Ok(text) = last_line(alloc, end) else {
        return 20;
    };
    match write_all(sink, text.as_bytes()) {
        Ok(()) => end.status(),
        Err(Fault::Failed) => 11,
        Err(Fault::Memory) => 20,
    }
}

/// Draws a session from the register, recovers the log with the nodes at these ports, and serves clients at a port, up
/// to an end. The status is given.
pub fn host_session<H: Host, L: Link, P: Port, W: Sink>(
    alloc: Global,
    host: &mut H,
    link: &mut L,
    register: u16,
    nodes: &[u16],
    port: &mut P,
    number: u16,
    sink: &mut W,
) -> u8
    requires nodes { length nodes.now ≡ (H.config host.old).nodes }
    ensures serves { (end : EndValue) × (lines : List ℕ)
        × Prints (W.contents sink.old) (W.contents sink.new) (lines ++ last_line end) (status_of end) result
        × HasCountedOuts end (L.faults link.old) (L.faults link.new)
        × (L.tells → Opens (post (H.config host.old) register nodes.now number) (L.transcript link.old) (L.transcript link.new) end)
        × (L.tells → P.tells → Runs (post (H.config host.old) register nodes.now number) (L.transcript link.old) (P.coming port.old) (P.answers port.old)
        (desk (P.coming port.new) (P.answers port.new) (standing (H.state host.new) (L.transcript link.new))) lines end) }

    // A fault is told only where it was counted, and is told where it was.
    ensures write { result ≡ 11 → Rose (W.faults sink.old) (W.faults sink.new) }
    ensures told { W.faults sink.old < W.faults sink.new → result ≡ 11 }
    ensures peer { result ≡ 13 → Rose (P.faults port.old) (P.faults port.new) }
    ensures peer_told { P.faults port.old < P.faults port.new → (result ≡ 13) ⊎ IsBroken result }
    ensures register { result ≡ 14 → Rose (L.faults link.old) (L.faults link.new) }
{
    let end = run(alloc, host, link, register, nodes, port, number, sink);
    finish(alloc, sink, &end)
}
