ghost use Rattle.std.specs.Prelude.{◌≡◌, ◌++◌, ℕ, List, Err, IfOk, IfErr, OnOk};
ghost use Rattle.proto_model.specs.Validity.{IsValidToServer, IsValidFromServer};
ghost use Rattle.client_core.specs.Clients.{next_ask};
ghost use Rattle.client_core.specs.States.{client_state};
ghost use Rattle.client_loop.specs.Asks.{IsAskEnd};
ghost use Rattle.client_loop.specs.Ends.{Counts};
ghost use Rattle.client_loop.specs.Scripts.{seat, IsTakenSo, IsAskedOnce, StopsBy, IsSynced, StopsSync};

use crate::ask::ask;
use crate::end::End;
use crate::exchange::Desk;
use crate::says::{say_more, say_sync};
use client_core::Client;
use io_core::Link;
use kv_app::KvApp;
use proto_model::FromServer;
use std::alloc::{AllocError, Global};

/// Asks of a sync at most.
const MAX_ASKS: u32 = 100000;

/// How an answer to an ask was taken.
#[derive(Clone, Copy, PartialEq, Eq)]
pub enum Taken {
    /// It ends the asks, and the line says why.
    Said,
    /// It moved the client.
    Moved,
    /// It did neither.
    Other,
}

// Takes an answer to an ask.
fn take_answer(
    alloc: Global,
    client: &mut Client<KvApp>,
    answer: &FromServer,
    text: &mut Vec<u8>,
) -> Result<Taken, AllocError>
    requires { IsValidFromServer answer.now }
    ensures taken { IfOk result (λ was. IsTakenSo answer.now was
        (client_state client.old) (client_state client.new) text.old.items text.new.items) }
    ensures same { client.new.client ≡ client.old.client }
{
    if say_sync(alloc, client, answer, text)? {
        return Ok(Taken::Said);
    }
    if client.receive(answer)? {
        return Ok(Taken::Moved);
    }
    Ok(Taken::Other)
}

// Asks once, and tells whether the answer ends the asks.
fn ask_once<L: Link>(
    alloc: Global,
    client: &mut Client<KvApp>,
    link: &mut L,
    desk: &mut Desk,
    port: u16,
    text: &mut Vec<u8>,
) -> Result<bool, End>
    ensures asked { IfOk result (λ ends. L.tells → IsAskedOnce port ends
        (seat (client_state client.old) (L.transcript link.old))
        (seat (client_state client.new) (L.transcript link.new)) text.old.items text.new.items) }
    ensures stopped { IfErr result (λ end. L.tells → StopsBy port
        (seat (client_state client.old) (L.transcript link.old))
        (seat (client_state client.new) (L.transcript link.new)) end) }
    ensures same { client.new.client ≡ client.old.client }
    ensures ends { IfErr result IsAskEnd }
    ensures faults { Counts (L.faults link.old) (L.faults link.new) (result ≡ Err End.Peer) }
{
    let answer = match ask(alloc, link, desk, port, client.next_ask()) {
        Ok(answer) => answer,
        Err(end) => return Err(end),
    };
    match take_answer(alloc, client, &answer, text) {
        Ok(Taken::Said) => Ok(true),
        Ok(Taken::Moved) => Ok(false),
        Ok(Taken::Other) => Err(End::Garbled),
        Err(_) => Err(End::Memory),
    }
}

/// Asks until all that is committed is applied, and adds the line that says up to which id that is, or why nothing is
/// shown.
pub fn sync<L: Link>(
    alloc: Global,
    client: &mut Client<KvApp>,
    link: &mut L,
    desk: &mut Desk,
    port: u16,
    text: &mut Vec<u8>,
) -> Result<(), End>
    ensures synced { OnOk result (L.tells → (line : List ℕ) × IsSynced port
        (seat (client_state client.old) (L.transcript link.old))
        (seat (client_state client.new) (L.transcript link.new)) line
        × (text.new.items ≡ text.old.items ++ line)) }
    ensures unsynced { IfErr result (λ end. L.tells → StopsSync port
        (seat (client_state client.old) (L.transcript link.old))
        (seat (client_state client.new) (L.transcript link.new)) end) }
    ensures same { client.new.client ≡ client.old.client }
    ensures ends { IfErr result IsAskEnd }
    ensures faults { Counts (L.faults link.old) (L.faults link.new) (result ≡ Err End.Peer) }
{
    for count in 0..MAX_ASKS {
        match ask_once(alloc, client, link, desk, port, text) {
            Ok(true) => return Ok(()),
            Ok(false) => {}
            Err(end) => return Err(end),
        }
    }
    match say_more(client.mark(), text) {
        Ok(()) => Ok(()),
        Err(_) => Err(End::Memory),
    }
}
