ghost use Rattle.std.specs.Prelude.{◌≡◌, ◌≤◌, ◌<◌, ℕ, Bool, false, IfSome, MatchOption, Some, length, ⊤};
ghost use Rattle.io_core.specs.Causes.{Rose};
ghost use Rattle.proto_model.specs.Servers.{ServerState};
ghost use Rattle.server_loop.specs.Exchanges.{Grows};
ghost use Rattle.server_loop.specs.Drives.{is_closed};
ghost use Rattle.server_loop.specs.Ends.{IsServingEnd};
ghost use Rattle.server_loop.specs.Turns.{desk};
ghost use Rattle.server_loop.specs.Serving.{standing, GoesOn, EndsBy, Serves, end_after};

use crate::End;
use crate::host::Host;
use crate::requests::{is_bye, next_request, send};
use crate::serving::reply_to;
use io_core::{Link, Port};
use proto_model::Phase;
use std::alloc::Global;
use wire_codec::MAX_FRAME;

// How many requests a command takes at most.
const MAX_TURNS: u32 = 1000000;

// The end that an answered turn is, by its request and by the server's phase after it.
fn end_after(bye: bool, phase: Phase) -> Option<End>
    ensures value { result ≡ end_after bye phase }
    ensures ends { IfSome result IsServingEnd }
{
    if bye {
        return Some(End::Bye);
    }
    match phase {
        Phase::Closed(session) => Some(End::TakenOver(session)),
        Phase::Idle => None,
        Phase::Opening => None,
        Phase::Fetching => None,
        Phase::Repairing => None,
        Phase::Running => None,
    }
}

// Takes one turn. The room has as many bytes as the longest frame.
fn turn<H: Host, L: Link, P: Port>(
    alloc: Global,
    host: &mut H,
    link: &mut L,
    ports: &[u16],
    port: &mut P,
    room: &mut [u8],
) -> Option<End>
    requires ports { length ports.now ≡ (H.config host.old).nodes }
    requires room { length room.old ≡ MAX_FRAME }
    ensures turn { L.tells → P.tells → MatchOption result
        (GoesOn (H.config host.old) ports.now
        (desk (P.coming port.old) (P.answers port.old) (standing (H.state host.old) (L.transcript link.old)))
        (desk (P.coming port.new) (P.answers port.new) (standing (H.state host.new) (L.transcript link.new))))
        (λ end. EndsBy (H.config host.old) ports.now
        (desk (P.coming port.old) (P.answers port.old) (standing (H.state host.old) (L.transcript link.old)))
        (desk (P.coming port.new) (P.answers port.new) (standing (H.state host.new) (L.transcript link.new))) end) }
    ensures config { H.config host.new ≡ H.config host.old }
    ensures room { length room.new ≡ length room.old }
    ensures later { P.faults port.old ≤ P.faults port.new }
    ensures ends { IfSome result IsServingEnd }
    ensures peer { result ≡ Some End.Peer → Rose (P.faults port.old) (P.faults port.new) }
    ensures peer_told { P.faults port.old < P.faults port.new → result ≡ Some End.Peer }
    ensures grows { L.tells → Grows (L.transcript link.old) (L.transcript link.new) }
{
    let asked = match next_request(alloc, port, room) {
        Ok(asked) => asked,
        Err(end) => return Some(end),
    };
    let bye = is_bye(&asked);
    let Ok(reply) = reply_to(alloc, host, link, ports, asked, room) else {
        return Some(End::Memory);
    };
    match send(alloc, port, &reply) {
        Ok(()) => end_after(bye, host.phase()),
        Err(_) => Some(End::Memory),
    }
}

/// Takes turns up to an end.
pub fn take_turns<H: Host, L: Link, P: Port>(
    alloc: Global,
    host: &mut H,
    link: &mut L,
    ports: &[u16],
    port: &mut P,
    room: &mut [u8],
) -> End
    requires ports { length ports.now ≡ (H.config host.old).nodes }
    requires room { length room.old ≡ MAX_FRAME }
    ensures serves { L.tells → P.tells → Serves (H.config host.old) ports.now
        (desk (P.coming port.old) (P.answers port.old) (standing (H.state host.old) (L.transcript link.old)))
        (desk (P.coming port.new) (P.answers port.new) (standing (H.state host.new) (L.transcript link.new))) result }
    ensures config { H.config host.new ≡ H.config host.old }
    ensures later { P.faults port.old ≤ P.faults port.new }
    ensures ends { IsServingEnd result }
    ensures peer { result ≡ End.Peer → Rose (P.faults port.old) (P.faults port.new) }
    ensures peer_told { P.faults port.old < P.faults port.new → result ≡ End.Peer }
    ensures grows { L.tells → Grows (L.transcript link.old) (L.transcript link.new) }
{
    for count in 0..MAX_TURNS {
        if let Some(end) = turn(alloc, host, link, ports, port, room) {
            return end;
        }
    }
    End::Turns
}
