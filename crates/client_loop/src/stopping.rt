ghost use Rattle.std.specs.Prelude.{◌≡◌, ◌<◌, ◌⊎◌};
ghost use Rattle.io_core.specs.Causes.{Rose};
ghost use Rattle.client_loop.specs.Asks.{IsStop};
ghost use Rattle.client_loop.specs.Byes.{stop_end, IsStopEnd};
ghost use Rattle.client_loop.specs.Ends.{Counts, IsBroken};
ghost use Rattle.client_loop.specs.Runs.{Stops};

use crate::end::{End, finish};
use crate::exchange::{Desk, Reply};
use io_core::{Link, Sink};
use std::alloc::Global;
use wire_codec::{Control, Message};

// How a reply to `Bye` ends the command.
fn end_of(reply: &Reply) -> End
    ensures value { result ≡ stop_end reply.now }
    ensures ends { IsStopEnd result }
{
    match reply {
        Reply::Message(Message::Control(Control::Done)) => End::Done,
        Reply::Message(Message::Control(Control::Bye)) => End::Garbled,
        Reply::Message(Message::Control(Control::No)) => End::Garbled,
        Reply::Message(Message::ToNode(_)) => End::Garbled,
        Reply::Message(Message::FromNode(_)) => End::Garbled,
        Reply::Message(Message::ToServer(_)) => End::Garbled,
        Reply::Message(Message::FromServer(_)) => End::Garbled,
        Reply::Message(Message::ToRegister(_)) => End::Garbled,
        Reply::Message(Message::FromRegister(_)) => End::Garbled,
        Reply::Garbled => End::Garbled,
        Reply::Failed => End::Peer,
    }
}

// Asks whoever serves at a port to serve no longer.
fn say_bye<L: Link>(alloc: Global, link: &mut L, desk: &mut Desk, port: u16) -> End
    ensures told { L.tells → IsStop port (L.transcript link.old) (L.transcript link.new) result }
    ensures ends { IsStopEnd result }
    ensures faults { Counts (L.faults link.old) (L.faults link.new) (result ≡ End.Peer) }
{
    match desk.exchange(alloc, link, port, &Message::Control(Control::Bye)) {
        Ok(reply) => end_of(&reply),
        Err(_) => End::Memory,
    }
}

// The same, with room for the exchange.
fn ask_to_stop<L: Link>(alloc: Global, link: &mut L, port: u16) -> End
    ensures told { L.tells → IsStop port (L.transcript link.old) (L.transcript link.new) result }
    ensures ends { IsStopEnd result }
    ensures faults { Counts (L.faults link.old) (L.faults link.new) (result ≡ End.Peer) }
{
    match Desk::new(alloc) {
        Ok(mut desk) => say_bye(alloc, link, &mut desk, port),
        Err(_) => End::Memory,
    }
}

/// Asks whoever serves at a port to serve no longer, and gives the status.
pub fn stop<L: Link, W: Sink>(alloc: Global, link: &mut L, port: u16, sink: &mut W) -> u8
    // At most one exchange is made. The status is 0 only where its reply is Done.
    ensures stops { Stops L.tells port (L.transcript link.old) (L.transcript link.new)
        (W.contents sink.old) (W.contents sink.new) (Rose (W.wants sink.old) (W.wants sink.new)) result }
    ensures done { result ≡ 0 → L.tells → IsStop port (L.transcript link.old) (L.transcript link.new) End.Done }

    // A fault is told only where it was counted, and is told where it was.
    ensures write { result ≡ 11 → Rose (W.faults sink.old) (W.faults sink.new) }
    ensures peer { result ≡ 13 → Rose (L.faults link.old) (L.faults link.new) }
    ensures write_told { W.faults sink.old < W.faults sink.new → result ≡ 11 }
    ensures peer_told { L.faults link.old < L.faults link.new → (result ≡ 13) ⊎ IsBroken result }
{
    let end = ask_to_stop(alloc, link, port);
    finish(alloc, sink, end)
}
