ghost use Rattle.std.specs.Prelude.{◌≡◌, ◌++◌, ◌⊎◌, ℕ, List, Err, IfErr, OnOk};
ghost use Rattle.tx_model.specs.Transactions.{IsTransaction};
ghost use Rattle.proto_model.specs.declared.client_message.ToServer.TheVariants as to_server;
ghost use Rattle.client_core.specs.States.{client_state};
ghost use Rattle.client_loop.specs.Asks.{IsAskEnd};
ghost use Rattle.client_loop.specs.Ends.{Counts};
ghost use Rattle.client_loop.specs.Texts.{append_line};
ghost use Rattle.client_loop.specs.Scripts.{seat, IsSaid, IsUnsaid, IsSubmitted, IsUnbuilt, IsUnsubmitted};

use crate::ask::ask;
use crate::end::End;
use crate::exchange::Desk;
use crate::says::{say_append, say_unbuilt};
use client_core::Client;
use io_core::Link;
use kv_app::KvApp;
use proto_model::{BuildFault, ToServer};
use std::alloc::Global;
use tx_model::{Locks, OpText, Tx};

// Sends a transaction, and adds the line that the answer says.
fn submit<L: Link>(
    alloc: Global,
    link: &mut L,
    desk: &mut Desk,
    port: u16,
    tx: Tx,
    text: &mut Vec<u8>,
) -> Result<(), End>
    requires { IsTransaction tx }
    ensures said { OnOk result (L.tells → (line : List ℕ) × IsSaid port (to_server.Append tx)
        (append_line tx.request) (L.transcript link.old) (L.transcript link.new) line
        × (text.new.items ≡ text.old.items ++ line)) }
    ensures unsaid { IfErr result (λ end. L.tells → IsUnsaid port (to_server.Append tx)
        (append_line tx.request) (L.transcript link.old) (L.transcript link.new) end) }
    ensures ends { IfErr result IsAskEnd }
    ensures faults { Counts (L.faults link.old) (L.faults link.new) (result ≡ Err End.Peer) }
{
    let request = tx.request();
    let answer = match ask(alloc, link, desk, port, ToServer::Append(tx)) {
        Ok(answer) => answer,
        Err(end) => return Err(end),
    };
    match say_append(alloc, request, &answer, text) {
        Ok(true) => Ok(()),
        Ok(false) => Err(End::Garbled),
        Err(_) => Err(End::Memory),
    }
}

/// Builds a transaction and sends it. The line says what the answer says, or why none is built.
pub fn append<L: Link>(
    alloc: Global,
    client: &mut Client<KvApp>,
    link: &mut L,
    desk: &mut Desk,
    port: u16,
    writes: Locks,
    reads: Locks,
    ops: &OpText,
    text: &mut Vec<u8>,
) -> Result<(), End>
    ensures does { OnOk result (L.tells → (line : List ℕ) × (
        IsSubmitted client.old.client port writes reads ops.now
        (seat (client_state client.old) (L.transcript link.old))
        (seat (client_state client.new) (L.transcript link.new)) line
        ⊎ IsUnbuilt writes reads ops.now
        (seat (client_state client.old) (L.transcript link.old))
        (seat (client_state client.new) (L.transcript link.new)) line)
        × (text.new.items ≡ text.old.items ++ line)) }
    ensures fails { IfErr result (λ end. L.tells →
        IsUnsubmitted client.old.client port writes reads ops.now
        (seat (client_state client.old) (L.transcript link.old))
        (seat (client_state client.new) (L.transcript link.new)) end) }
    ensures same { client.new.client ≡ client.old.client }
    ensures ends { IfErr result IsAskEnd }
    ensures faults { Counts (L.faults link.old) (L.faults link.new) (result ≡ Err End.Peer) }
{
    match client.build(writes.into_items(), reads.into_items(), ops.items()) {
        Ok(tx) => submit(alloc, link, desk, port, tx, text),
        Err(BuildFault::Memory) => Err(End::Memory),
        Err(fault) => match say_unbuilt(alloc, &fault, text) {
            Ok(()) => Ok(()),
            Err(_) => Err(End::Memory),
        },
    }
}
