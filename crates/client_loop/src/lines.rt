ghost use Rattle.std.specs.Prelude.{◌≡◌, ◌++◌, ℕ, List, Err, IfErr, OnOk};
ghost use Rattle.proto_model.specs.declared.client_message.ToServer.TheVariants as to_server;
ghost use Rattle.client_core.specs.States.{client_state};
ghost use Rattle.client_loop.specs.Asks.{IsAskEnd};
ghost use Rattle.client_loop.specs.Ends.{Counts};
ghost use Rattle.client_loop.specs.Texts.{flush_line};
ghost use Rattle.client_loop.specs.Scripts.{seat, IsSaid, IsUnsaid, DoesLine, FailsLine};

use crate::append::append;
use crate::ask::ask;
use crate::end::End;
use crate::exchange::Desk;
use crate::says::{say_app, say_flush};
use crate::sync::sync;
use client_core::Client;
use io_core::Link;
use kv_app::KvApp;
use proto_model::ToServer;
use schedule_text::ScriptLine;
use std::alloc::Global;

// Asks up to which id the log is committed, and adds the line that the answer says.
fn flush<L: Link>(
    alloc: Global,
    link: &mut L,
    desk: &mut Desk,
    port: u16,
    text: &mut Vec<u8>,
) -> Result<(), End>
    ensures said { OnOk result (L.tells → (line : List ℕ) × IsSaid port to_server.Flush
        flush_line (L.transcript link.old) (L.transcript link.new) line
        × (text.new.items ≡ text.old.items ++ line)) }
    ensures unsaid { IfErr result (λ end. L.tells → IsUnsaid port to_server.Flush
        flush_line (L.transcript link.old) (L.transcript link.new) end) }
    ensures ends { IfErr result IsAskEnd }
    ensures faults { Counts (L.faults link.old) (L.faults link.new) (result ≡ Err End.Peer) }
{
    let answer = match ask(alloc, link, desk, port, ToServer::Flush) {
        Ok(answer) => answer,
        Err(end) => return Err(end),
    };
    match say_flush(alloc, &answer, text) {
        Ok(true) => Ok(()),
        Ok(false) => Err(End::Garbled),
        Err(_) => Err(End::Memory),
    }
}

/// Does what a line of a script says, against the server at a port, and adds the line that is printed.
pub fn do_line<L: Link>(
    alloc: Global,
    client: &mut Client<KvApp>,
    link: &mut L,
    desk: &mut Desk,
    id: u64,
    port: u16,
    line: ScriptLine,
    text: &mut Vec<u8>,
) -> Result<(), End>
    requires { id ≡ client.old.client }
    ensures does { OnOk result (L.tells → (printed : List ℕ) × DoesLine id port line
        (seat (client_state client.old) (L.transcript link.old))
        (seat (client_state client.new) (L.transcript link.new)) printed
        × (text.new.items ≡ text.old.items ++ printed)) }
    ensures fails { IfErr result (λ end. L.tells → FailsLine id port line
        (seat (client_state client.old) (L.transcript link.old))
        (seat (client_state client.new) (L.transcript link.new)) end) }
    ensures same { client.new.client ≡ client.old.client }
    ensures ends { IfErr result IsAskEnd }
    ensures faults { Counts (L.faults link.old) (L.faults link.new) (result ≡ Err End.Peer) }
{
    match line {
        ScriptLine::Append(writes, reads, ops) => {
            append(alloc, client, link, desk, port, writes, reads, &ops, text)
        }
        ScriptLine::Sync => sync(alloc, client, link, desk, port, text),
        ScriptLine::App => match say_app(client, id, text) {
            Ok(()) => Ok(()),
            Err(_) => Err(End::Memory),
        },
        ScriptLine::Flush => flush(alloc, link, desk, port, text),
    }
}
