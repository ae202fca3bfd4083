ghost use Rattle.std.specs.Prelude.{◌≡◌, ◌≤◌, ◌<◌, ◌⊎◌, None, Some, IfSome, IfErr, OnOk, MatchOption, length};
ghost use Rattle.std.specs.Io.KnownBytes.{Appends};
ghost use Rattle.io_core.specs.Causes.{Rose};
ghost use Rattle.wire_codec.specs.Spelling.{IsValidMessage};
ghost use Rattle.node_loops.specs.declared.end.End.{End as EndValue};
ghost use Rattle.node_loops.specs.Ends.{status_of, serving_text, Prints, IsBroken, HasBegun, IsTurnsEnd, IsEarlyEnd, IsClosing, HasItsCause};
ghost use Rattle.node_loops.specs.Requests.{IsValidAsked};
ghost use Rattle.node_loops.specs.Serving.{desk, GoesOn, EndsBy, Serves, Runs, end_after};

use crate::end::{begin, finish};
use crate::requests::{is_bye, next_request, send, zeros};
use crate::{End, Serving};
use io_core::{Port, Sink};
use std::alloc::Global;
use wire_codec::MAX_FRAME;

// How many requests a command takes at most.
const MAX_TURNS: u32 = 1000000;

// The end that an answered turn is.
fn end_after(bye: bool, over: Option<End>) -> Option<End>
    ensures { result ≡ end_after bye over }
{
    if bye {
        return Some(End::Bye);
    }
    over
}

// Takes one turn. The room has as many bytes as the longest frame.
fn turn<M, S: Serving<M>, P: Port>(
    alloc: Global,
    served: &mut S,
    port: &mut P,
    room: &mut [u8],
    buffer: &mut Vec<u8>,
) -> Option<End>
    requires works { S.works served.old }
    requires room { length room.old ≡ MAX_FRAME }
    ensures turn { P.tells → MatchOption result
        (GoesOn S S.replies S.over
        (desk (P.coming port.old) (P.answers port.old) served.old)
        (desk (P.coming port.new) (P.answers port.new) served.new))
        (λ end. EndsBy S S.replies S.fails S.over
        (desk (P.coming port.old) (P.answers port.old) served.old)
        (desk (P.coming port.new) (P.answers port.new) served.new) end) }
    ensures works { result ≡ None → S.works served.new }
    ensures room { length room.new ≡ length room.old }
    ensures ends { IfSome result IsTurnsEnd }
    ensures same { result ≡ None → S.faults served.new ≡ S.faults served.old }
    ensures port_same { result ≡ None → P.faults port.new ≡ P.faults port.old }
    ensures blind { result ≡ None → (end : EndValue) → S.blind served.new end → S.blind served.old end }
    ensures cause { IfSome result (HasItsCause (P.faults port.old) (P.faults port.new)
        (S.faults served.old) (S.faults served.new) (S.own served.new) (S.blind served.old)) }
{
    let asked = match next_request(alloc, port, room) {
        Ok(asked) => asked,
        Err(end) => return Some(end),
    };
    let bye = is_bye(&asked);
    match served.reply_to(asked) {
        Ok(reply) => match send(alloc, port, &reply, buffer) {
            Ok(()) => end_after(bye, served.end()),
            Err(_) => Some(End::Memory),
        },
        Err(end) => Some(end),
    }
}

/// Takes turns up to an end. The room has as many bytes as the longest frame.
pub fn take_turns<M, S: Serving<M>, P: Port>(
    alloc: Global,
    served: &mut S,
    port: &mut P,
    room: &mut [u8],
) -> End
    requires works { S.works served.old }
    requires room { length room.old ≡ MAX_FRAME }
    ensures serves { P.tells → Serves S S.replies S.fails S.over
        (desk (P.coming port.old) (P.answers port.old) served.old)
        (desk (P.coming port.new) (P.answers port.new) served.new) result }
    ensures ends { IsTurnsEnd result }
    ensures cause { HasItsCause (P.faults port.old) (P.faults port.new)
        (S.faults served.old) (S.faults served.new) (S.own served.new) (S.blind served.old) result }
{
    let mut buffer = Vec::new(alloc);
    for count in 0..MAX_TURNS {
        if let Some(end) = turn::<M, S, P>(alloc, served, port, room, &mut buffer) {
            return end;
        }
    }
    End::Turns
}

// Listens and takes turns up to an end.
fn listen_and_serve<M, S: Serving<M>, P: Port, W: Sink>(
    alloc: Global,
    served: &mut S,
    port: &mut P,
    number: u16,
    sink: &mut W,
) -> End
    requires works { S.works served.old }
    ensures runs { P.tells → Runs S S.replies S.fails S.over
        (desk (P.coming port.old) (P.answers port.old) served.old)
        (desk (P.coming port.new) (P.answers port.new) served.new) result }
    ensures begun { HasBegun (W.contents sink.old) (W.contents sink.new) number result }
    ensures sink_later { W.faults sink.old ≤ W.faults sink.new }
    ensures write { result ≡ End.WriteFault → Rose (W.faults sink.old) (W.faults sink.new) }
    ensures told { W.faults sink.old < W.faults sink.new → result ≡ End.WriteFault }
    ensures cause { HasItsCause (P.faults port.old) (P.faults port.new)
        (S.faults served.old) (S.faults served.new) (S.own served.new) (S.blind served.old) result }
{
    let Ok(mut room) = zeros(alloc, MAX_FRAME) else {
        return End::Memory;
    };
    match port.listen(number) {
        Ok(()) => {}
        Err(_) => return End::Unheard,
    }
    match begin(alloc, sink, number) {
        Ok(()) => take_turns::<M, S, P>(alloc, served, port, &mut room),
        Err(end) => end,
    }
}

/// Serves at a port up to an end, and gives the status.
pub fn serve<M, S: Serving<M>, P: Port, W: Sink>(
    alloc: Global,
    served: &mut S,
    port: &mut P,
    number: u16,
    sink: &mut W,
) -> u8
    requires works { S.works served.old }
    ensures runs { (end : EndValue)
        × (P.tells → Runs S S.replies S.fails S.over
        (desk (P.coming port.old) (P.answers port.old) served.old)
        (desk (P.coming port.new) (P.answers port.new) served.new) end)
        × Prints (W.contents sink.old) (W.contents sink.new) (serving_text number end)
        (status_of end) result
        × HasItsCause (P.faults port.old) (P.faults port.new)
        (S.faults served.old) (S.faults served.new) (S.own served.new) (S.blind served.old) end }

    // A fault is told only where it was counted, and is told where it was, unless the output or memory failed.
    ensures write { result ≡ 11 → Rose (W.faults sink.old) (W.faults sink.new) }
    ensures disk { result ≡ 12 → Rose (S.faults served.old) (S.faults served.new) }
    ensures peer { result ≡ 13 → Rose (P.faults port.old) (P.faults port.new) }
    ensures told { W.faults sink.old < W.faults sink.new → result ≡ 11 }
    ensures disk_told { S.faults served.old < S.faults served.new → (result ≡ 12) ⊎ IsBroken result }
    ensures peer_told { P.faults port.old < P.faults port.new → (result ≡ 13) ⊎ IsBroken result }
{
    let end = listen_and_serve::<M, S, P, W>(alloc, served, port, number, sink);
    finish(alloc, sink, end)
}
