ghost use Rattle.std.specs.Prelude.{◌≡◌, ◌≤◌, ◌<◌, ◌⊎◌, ◌++◌, ℕ, List, vec_len};
ghost use Rattle.io_core.specs.Causes.{Rose};
ghost use Rattle.proto_model.specs.Servers.{ServerState};
ghost use Rattle.server_loop.specs.declared.end.End.{End as EndValue};
ghost use Rattle.server_loop.specs.Ends.{Prints, IsBroken, HasCountedOuts, status_of, last_line};
ghost use Rattle.server_loop.specs.Turns.{desk};
ghost use Rattle.server_loop.specs.Serving.{standing};
ghost use Rattle.server_loop.specs.Sessions.{Opens, Runs};
ghost use Rattle.server_host.specs.Posts.{post_of};

use crate::machine::Machine;
use io_core::{Link, Port, Sink};
use server_loop::host_session;
use std::alloc::Global;

/// What a server is told when it is started.
#[derive(Drop)]
pub struct Setting {
    /// Where it listens.
    pub port: u16,
    /// Where the register listens.
    pub register: u16,
    /// Rows of its lock table.
    pub rows: u8,
    /// Slots of each row.
    pub slots: u32,
    /// Where the nodes listen, in the order of their numbers.
    pub nodes: Vec<u16>,
}

/// Draws a session, recovers the log and serves clients, up to an end. The status is given.
pub fn serve_server<L: Link, P: Port, W: Sink>(
    alloc: Global,
    link: &mut L,
    port: &mut P,
    setting: &Setting,
    sink: &mut W,
) -> u8
    requires some_nodes { 1 ≤ vec_len setting.now.nodes }
    requires few_nodes { vec_len setting.now.nodes ≤ 7 }
    requires some_rows { 1 ≤ setting.now.rows }
    requires few_rows { setting.now.rows ≤ 8 }
    requires some_slots { 1 ≤ setting.now.slots }
    requires few_slots { setting.now.slots ≤ 4096 }
    ensures serves { (end : EndValue) × (lines : List ℕ)
        × Prints (W.contents sink.old) (W.contents sink.new) (lines ++ last_line end) (status_of end) result
        × HasCountedOuts end (L.faults link.old) (L.faults link.new)
        × (L.tells → Opens (post_of setting.now) (L.transcript link.old) (L.transcript link.new) end)
        × (L.tells → P.tells → (after : ServerState) × Runs (post_of setting.now) (L.transcript link.old) (P.coming port.old) (P.answers port.old)
        (desk (P.coming port.new) (P.answers port.new) (standing after (L.transcript link.new))) lines end) }

    // A fault is told only where it was counted, and is told where it was.
    ensures write { result ≡ 11 → Rose (W.faults sink.old) (W.faults sink.new) }
    ensures told { W.faults sink.old < W.faults sink.new → result ≡ 11 }
    ensures peer { result ≡ 13 → Rose (P.faults port.old) (P.faults port.new) }
    ensures peer_told { P.faults port.old < P.faults port.new → (result ≡ 13) ⊎ IsBroken result }
    ensures register { result ≡ 14 → Rose (L.faults link.old) (L.faults link.new) }
{
    let count = setting.nodes.len() as u8;
    let Ok(mut machine) = Machine::new(alloc, count, setting.rows, setting.slots) else {
        return 20;
    };
    host_session(
        alloc,
        &mut machine,
        link,
        setting.register,
        &setting.nodes,
        port,
        setting.port,
        sink,
    )
}
