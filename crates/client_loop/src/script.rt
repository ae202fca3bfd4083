ghost use Rattle.std.specs.Prelude.{◌≡◌, ◌≤◌, ◌<◌, ◌⊎◌, [], List, ℕ, Option, Err, IfOk, IfErr};
ghost use Rattle.std.specs.Io.KnownBytes.{prepend_known};
ghost use Rattle.io_core.specs.Causes.{Rose};
ghost use Rattle.io_core.specs.Links.{Exchange};
ghost use Rattle.client_core.specs.Clients.{fresh_client};
ghost use Rattle.client_core.specs.States.{client_state};
ghost use Rattle.schedule_text.specs.Taken.{ReadsOn};
ghost use Rattle.client_loop.specs.Ends.{Counts, IsBroken};
ghost use Rattle.client_loop.specs.Scripts.{seat};
ghost use Rattle.client_loop.specs.Runs.{DoesOf, WritesOf, Going, Reaches, RunsScript, ComesExactly};

use crate::end::{End, finish};
use crate::exchange::Desk;
use crate::input::{Input, Next, next_script, read_last};
use crate::lines::do_line;
use client_core::Client;
use io_core::{Fault, Link, Sink, Source, write_all};
use kv_app::KvApp;
use std::alloc::Global;

/// Lines of a script at most.
const MAX_LINES: u64 = 20000;

/// A client and what it works with.
#[derive(Drop)]
pub struct Worker {
    pub client: Client<KvApp>,
    pub input: Input,
    desk: Desk,
    pub text: Vec<u8>,
}

impl Worker {
    // A fresh client, with room for its exchanges.
    fn new(alloc: Global, id: u64) -> Result<Worker, End>
        ensures fresh { IfOk result (λ worker. client_state worker.client ≡ fresh_client) }
        ensures id { IfOk result (λ worker. worker.client.client ≡ id) }
        ensures empty { IfOk result (λ worker. worker.input.pending ≡ []) }
        ensures memory { IfErr result (λ end. end ≡ End.Memory) }
    {
        match Desk::new(alloc) {
            Ok(desk) => Ok(Worker {
                client: Client::new(alloc, id, 1, KvApp::new(alloc)),
                input: Input::new(alloc),
                desk,
                text: Vec::new(alloc),
            }),
            Err(_) => Err(End::Memory),
        }
    }
}

// Reads a line of the script and does what it says. Its text is left in the worker.
fn take_line<S: Source, L: Link>(
    alloc: Global,
    source: &mut S,
    link: &mut L,
    worker: &mut Worker,
    id: u64,
    port: u16,
    number: u64,
) -> Result<(), End>
    requires { id ≡ worker.old.client.client }
    ensures does { DoesOf L.tells id port
        (prepend_known worker.old.input.pending (S.left source.old))
        (prepend_known worker.new.input.pending (S.left source.new))
        (seat (client_state worker.old.client) (L.transcript link.old))
        (seat (client_state worker.new.client) (L.transcript link.new))
        worker.new.text.items number result }
    ensures empty { result ≡ Err End.ReadFault → worker.new.input.pending ≡ [] }
    ensures reads { ReadsOn S.left S.before source.old source.new 512 worker.old.input.pending }
    ensures same { worker.new.client.client ≡ worker.old.client.client }
    ensures read_faults { Counts (S.faults source.old) (S.faults source.new) (result ≡ Err End.ReadFault) }
    ensures peer_faults { Counts (L.faults link.old) (L.faults link.new) (result ≡ Err End.Peer) }
{
    match next_script(alloc, source, &mut worker.input) {
        Ok(Next::Line(line)) => {
            worker.text.clear();
            do_line(
                alloc,
                &mut worker.client,
                link,
                &mut worker.desk,
                id,
                port,
                line,
                &mut worker.text,
            )
        }
        Ok(Next::Bad(at)) => Err(End::Bad(number, at)),
        Ok(Next::End) => Err(End::Done),
        Err(Fault::Failed) => Err(End::ReadFault),
        Err(Fault::Memory) => Err(End::Memory),
    }
}

// Writes the text of a line.
fn write_line<W: Sink>(sink: &mut W, text: &[u8]) -> Result<(), End>
    ensures written { WritesOf (W.contents sink.old) (W.contents sink.new) text.now result }
    ensures faults { Counts (W.faults sink.old) (W.faults sink.new) (result ≡ Err End.WriteFault) }
    ensures wants { Counts (W.wants sink.old) (W.wants sink.new) (result ≡ Err End.Memory) }
{
    match write_all(sink, text) {
        Ok(()) => Ok(()),
        Err(Fault::Failed) => Err(End::WriteFault),
        Err(Fault::Memory) => Err(End::Memory),
    }
}

// Does one line after the other. What a line prints is written before the next one is read.
fn go_on<S: Source, L: Link, W: Sink>(
    alloc: Global,
    source: &mut S,
    link: &mut L,
    sink: &mut W,
    worker: &mut Worker,
    id: u64,
    port: u16,
) -> End
    requires { id ≡ worker.old.client.client }
    ensures reaches { (past : List Exchange) (left held : Option (List ℕ)) → Going L.tells
        id port past left
        (prepend_known worker.old.input.pending (S.left source.old)) (S.before source.old) (S.left source.old)
        held (W.contents sink.old) (seat (client_state worker.old.client) (L.transcript link.old)) 0 →
        Reaches L.tells id port past (L.transcript link.new)
        left (S.before source.new) (S.left source.new) held (W.contents sink.new)
        (Rose (W.wants sink.old) (W.wants sink.new)) result }
    ensures read_faults { Counts (S.faults source.old) (S.faults source.new) (result ≡ End.ReadFault) }
    ensures write_faults { Counts (W.faults sink.old) (W.faults sink.new) (result ≡ End.WriteFault) }
    ensures peer_faults { Counts (L.faults link.old) (L.faults link.new) (result ≡ End.Peer) }
    ensures wants { W.wants sink.old ≤ W.wants sink.new }
{
    for line in 0..MAX_LINES {
        match take_line(alloc, source, link, worker, id, port, line + 1) {
            Ok(()) => {}
            Err(end) => return end,
        }
        match write_line(sink, &worker.text) {
            Ok(()) => {}
            Err(end) => return end,
        }
    }
    read_last(source, &mut worker.input)
}

// Does the script that the source gives, up to the last line of what is printed.
fn do_script<S: Source, L: Link, W: Sink>(
    alloc: Global,
    source: &mut S,
    link: &mut L,
    sink: &mut W,
    id: u64,
    port: u16,
) -> End
    ensures reaches { Reaches L.tells id port (L.transcript link.old) (L.transcript link.new)
        (S.left source.old) (S.before source.new) (S.left source.new) (W.contents sink.old) (W.contents sink.new)
        (Rose (W.wants sink.old) (W.wants sink.new)) result }
    ensures read_faults { Counts (S.faults source.old) (S.faults source.new) (result ≡ End.ReadFault) }
    ensures write_faults { Counts (W.faults sink.old) (W.faults sink.new) (result ≡ End.WriteFault) }
    ensures peer_faults { Counts (L.faults link.old) (L.faults link.new) (result ≡ End.Peer) }
    ensures wants { W.wants sink.old ≤ W.wants sink.new }
{
    match Worker::new(alloc, id) {
        Ok(mut worker) => go_on(alloc, source, link, sink, &mut worker, id, port),
        Err(end) => end,
    }
}

/// Does the script that the source gives against the server at a port, and gives the status.
///
/// A client of this number starts at mark 0, at its first request and with an empty application. What a line prints is
/// written before the next one is read.
pub fn run_client<S: Source, L: Link, W: Sink>(
    alloc: Global,
    source: &mut S,
    link: &mut L,
    id: u64,
    server: u16,
    sink: &mut W,
) -> u8
    // What is sent and printed are the client's steps over the lines and the replies, and the status says how it ended.
    ensures runs { RunsScript L.tells id server (L.transcript link.old) (L.transcript link.new)
        (S.left source.old) (S.before source.new) (S.left source.new) (W.contents sink.old) (W.contents sink.new)
        (Rose (W.wants sink.old) (W.wants sink.new)) result }
    ensures exactly { ComesExactly (S.left source.old) result }

    // A fault is told only where it was counted, and is told where it was.
    ensures read { result ≡ 10 → Rose (S.faults source.old) (S.faults source.new) }
    ensures write { result ≡ 11 → Rose (W.faults sink.old) (W.faults sink.new) }
    ensures peer { result ≡ 13 → Rose (L.faults link.old) (L.faults link.new) }
    ensures read_told { S.faults source.old < S.faults source.new → (result ≡ 10) ⊎ IsBroken result }
    ensures write_told { W.faults sink.old < W.faults sink.new → result ≡ 11 }
    ensures peer_told { L.faults link.old < L.faults link.new → (result ≡ 13) ⊎ IsBroken result }
{
    let end = do_script(alloc, source, link, sink, id, server);
    finish(alloc, sink, end)
}
