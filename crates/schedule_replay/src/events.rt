ghost use Rattle.std.specs.Prelude.{◌≡◌, ◌⊎◌, ◌<◌, ◌≤◌, ◌+◌, [], ℕ, List, Option, Contains, OnOk, IfOk, length};
ghost use Rattle.net_model.specs.Events.{IsInRange};
ghost use Rattle.std.specs.Io.KnownBytes.{prepend_known};
ghost use Rattle.io_core.specs.Causes.{Rose};
ghost use Rattle.schedule_text.specs.Taken.{ReadsOn};
ghost use Rattle.schedule_replay.specs.Replays.{PrintsRun, ComesExactly};
ghost use Rattle.schedule_replay.specs.Faults.{IsBroken};
ghost use Rattle.schedule_replay.specs.Steps.{HappensOf, TurnOf, WritesOf, Counts, EndsOf, BeginsOf, Going, Reaches};

use crate::ReplayFault;
use crate::input::{Input, next_event, read_first, read_last};
use crate::output::{MAX_WAITING, Output, write_much};
use crate::play::Play;
use disk_model::MemDisk;
use io_core::{Sink, Source};
use net_model::Event;
use std::alloc::Global;
use storage_node::Node;
use world_core::World;

/// Events of a schedule at most.
const MAX_EVENTS: u64 = 20000;

/// Whether a turn of the loop found a line.
#[derive(Clone, Copy)]
pub enum Turned {
    /// Its event happened.
    More,
    /// There was none.
    Over,
}

// One line of the schedule: its event's step, and the line of its outcome. It is called where nothing waits to be
// written, or where no read is needed.
fn turn<S: Source, P: Play>(
    alloc: Global,
    source: &mut S,
    input: &mut Input,
    output: &mut Output,
    play: &mut P,
    number: u64,
) -> Result<Turned, ReplayFault>
    requires few { P.steps play.old < MAX_EVENTS }
    requires written { Contains input.old.pending 10 ⊎ (output.old.waiting.items ≡ []) }
    ensures turn { TurnOf P.shows P.cluster_of
        (prepend_known input.old.pending (S.left source.old)) (prepend_known input.new.pending (S.left source.new))
        play.old play.new output.old.waiting.items output.new.waiting.items number result }
    ensures count { OnOk result (P.steps play.new ≤ P.steps play.old + 1) }
    ensures empty { result ≡ Err ReplayFault.Read → input.new.pending ≡ [] }
    ensures waits { (source.new ≡ source.old) ⊎ (output.old.waiting.items ≡ []) }
    ensures reads { ReadsOn S.left S.before source.old source.new 512 input.old.pending }
    ensures faults { Counts (S.faults source.old) (S.faults source.new) (result ≡ Err ReplayFault.Read) }
{
    let cluster = play.cluster();
    match next_event(alloc, source, input, &cluster, number) {
        Ok(Some(event)) => match happen(output, play, &event) {
            Ok(()) => Ok(Turned::More),
            Err(fault) => Err(fault),
        },
        Ok(None) => Ok(Turned::Over),
        Err(fault) => Err(fault),
    }
}

// The step of an event, and the line of its outcome.
fn happen<P: Play>(output: &mut Output, play: &mut P, event: &Event) -> Result<(), ReplayFault>
    requires in_range { IsInRange (P.cluster_of play.old) event.now }
    requires few { P.steps play.old < MAX_EVENTS }
    ensures happens { HappensOf P.shows P.cluster_of play.old play.new output.old.waiting.items output.new.waiting.items event.now result }
    ensures count { OnOk result (P.steps play.new ≤ P.steps play.old + 1) }
{
    let Ok(outcome) = play.step(event) else {
        return Err(ReplayFault::Memory);
    };
    match output.print(&outcome) {
        Ok(()) => Ok(()),
        Err(_) => Err(ReplayFault::Memory),
    }
}

// Writes what waits, unless the next line lies in the buffer already.
fn write_before_reading<W: Sink>(
    sink: &mut W,
    input: &Input,
    output: &mut Output,
) -> Result<(), ReplayFault>
    ensures written { WritesOf (W.contents sink.old) (W.contents sink.new) output.old.waiting.items output.new.waiting.items result }
    ensures all { OnOk result (Contains input.now.pending 10 ⊎ (output.new.waiting.items ≡ [])) }
    ensures few { length output.new.waiting.items ≤ length output.old.waiting.items }
    ensures faults { Counts (W.faults sink.old) (W.faults sink.new) (result ≡ Err ReplayFault.Write) }
    ensures wants { Counts (W.wants sink.old) (W.wants sink.new) (result ≡ Err ReplayFault.Memory) }
{
    if input.pending.has_line() {
        return Ok(());
    }
    output.write(sink)
}

// Looks for a byte after the last event that is allowed. What waits is written before a read.
fn end_after_all<S: Source, W: Sink>(
    source: &mut S,
    sink: &mut W,
    input: &mut Input,
    output: &mut Output,
) -> Result<(), ReplayFault>
    ensures ends { EndsOf
        (prepend_known input.old.pending (S.left source.old)) (prepend_known input.new.pending (S.left source.new))
        (W.contents sink.old) (W.contents sink.new) output.old.waiting.items output.new.waiting.items result }
    ensures empty { result ≡ Err ReplayFault.Read → input.new.pending ≡ [] }
    ensures waits { (source.new ≡ source.old) ⊎ (output.new.waiting.items ≡ []) }
    ensures few { length output.new.waiting.items ≤ length output.old.waiting.items }
    ensures reads { result ≡ Err ReplayFault.TooManyEvents → ReadsOn S.left S.before source.old source.new 0 input.old.pending }
    ensures alone { (result ≡ Err ReplayFault.Write) ⊎ (result ≡ Err ReplayFault.Memory) → source.new ≡ source.old }
    ensures read_faults { Counts (S.faults source.old) (S.faults source.new) (result ≡ Err ReplayFault.Read) }
    ensures write_faults { Counts (W.faults sink.old) (W.faults sink.new) (result ≡ Err ReplayFault.Write) }
    ensures wants { Counts (W.wants sink.old) (W.wants sink.new) (result ≡ Err ReplayFault.Memory) }
{
    match output.write(sink) {
        Ok(()) => read_last(source, input),
        Err(fault) => Err(fault),
    }
}

// Replays what follows the first line.
fn go_on<S: Source, W: Sink, P: Play>(
    alloc: Global,
    source: &mut S,
    sink: &mut W,
    input: &mut Input,
    output: &mut Output,
    play: &mut P,
) -> Result<(), ReplayFault>
    requires fresh { P.steps play.old ≡ 0 }
    requires few { length output.old.waiting.items < MAX_WAITING }
    ensures reaches { (left held : Option (List ℕ)) → Going P.shows P.cluster_of left
        (prepend_known input.old.pending (S.left source.old)) (S.before source.old) (S.left source.old)
        held (W.contents sink.old) output.old.waiting.items play.old 1 →
        Reaches left (S.before source.new) (S.left source.new) held (W.contents sink.new)
        (Rose (W.wants sink.old) (W.wants sink.new)) output.new.waiting.items result }
    ensures few { length output.new.waiting.items < MAX_WAITING }
    ensures read_faults { Counts (S.faults source.old) (S.faults source.new) (result ≡ Err ReplayFault.Read) }
    ensures write_faults { Counts (W.faults sink.old) (W.faults sink.new) (result ≡ Err ReplayFault.Write) }
    ensures wants { W.wants sink.old ≤ W.wants sink.new }
{
    for event in 0..MAX_EVENTS {
        match write_before_reading(sink, input, output) {
            Ok(()) => {}
            Err(fault) => return Err(fault),
        }
        match turn(alloc, source, input, output, play, event + 2) {
            Ok(Turned::More) => {}
            Ok(Turned::Over) => return Ok(()),
            Err(fault) => return Err(fault),
        }
        match write_much(sink, output) {
            Ok(()) => {}
            Err(fault) => return Err(fault),
        }
    }
    end_after_all(source, sink, input, output)
}

// Reads the first line and makes the world.
fn begin<S: Source, P: Play>(
    alloc: Global,
    source: &mut S,
    input: &mut Input,
) -> Result<P, ReplayFault>
    requires { input.old.pending ≡ [] }
    ensures begins { BeginsOf P.shows P.cluster_of
        (prepend_known input.old.pending (S.left source.old)) (prepend_known input.new.pending (S.left source.new))
        (S.left source.old) (S.before source.new) (S.left source.new) result }
    ensures empty { result ≡ Err ReplayFault.Read → input.new.pending ≡ [] }
    ensures fresh { IfOk result (λ play. P.steps play ≡ 0) }
    ensures faults { Counts (S.faults source.old) (S.faults source.new) (result ≡ Err ReplayFault.Read) }
{
    let cluster = match read_first(source, input) {
        Ok(cluster) => cluster,
        Err(fault) => return Err(fault),
    };
    match P::new(alloc, cluster) {
        Ok(play) => Ok(play),
        Err(_) => Err(ReplayFault::Memory),
    }
}

// Replays the schedule that the source gives, and leaves some of the text waiting.
fn reach<S: Source, W: Sink, P: Play>(
    alloc: Global,
    source: &mut S,
    sink: &mut W,
    output: &mut Output,
) -> Result<(), ReplayFault>
    requires { output.old.waiting.items ≡ [] }
    ensures reaches { Reaches (S.left source.old) (S.before source.new) (S.left source.new) (W.contents sink.old) (W.contents sink.new)
        (Rose (W.wants sink.old) (W.wants sink.new)) output.new.waiting.items result }
    ensures few { length output.new.waiting.items < MAX_WAITING }
    ensures read_faults { Counts (S.faults source.old) (S.faults source.new) (result ≡ Err ReplayFault.Read) }
    ensures write_faults { Counts (W.faults sink.old) (W.faults sink.new) (result ≡ Err ReplayFault.Write) }
    ensures wants { W.wants sink.old ≤ W.wants sink.new }
{
    let mut input = Input::new(alloc);
    match begin::<S, P>(alloc, source, &mut input) {
        Ok(mut play) => go_on(alloc, source, sink, &mut input, output, &mut play),
        Err(fault) => Err(fault),
    }
}

// Replays the schedule that the source gives, in a world of this kind.
fn replay_in<S: Source, W: Sink, P: Play>(
    alloc: Global,
    source: &mut S,
    sink: &mut W,
) -> Result<(), ReplayFault>
    ensures replay { PrintsRun (S.left source.old) (S.before source.new) (S.left source.new) (W.contents sink.old) (W.contents sink.new)
        (Rose (W.wants sink.old) (W.wants sink.new)) result }
    ensures exactly { ComesExactly (S.left source.old) result }
    ensures read { result ≡ Err ReplayFault.Read → Rose (S.faults source.old) (S.faults source.new) }
    ensures write { result ≡ Err ReplayFault.Write → Rose (W.faults sink.old) (W.faults sink.new) }
    ensures read_told { S.faults source.old < S.faults source.new → (result ≡ Err ReplayFault.Read) ⊎ IsBroken result }
    ensures write_told { W.faults sink.old < W.faults sink.new → result ≡ Err ReplayFault.Write }
    ensures later { W.faults sink.old ≤ W.faults sink.new }
    ensures wants { W.wants sink.old ≤ W.wants sink.new }
{
    let mut output = Output::new(alloc);
    let end = reach::<S, W, P>(alloc, source, sink, &mut output);
    output.finish(sink, end)
}

/// Replays the schedule that the source gives, in the world of a cluster whose nodes keep files on disks in memory.
pub fn replay<S: Source, W: Sink>(
    alloc: Global,
    source: &mut S,
    sink: &mut W,
) -> Result<(), ReplayFault>
    ensures replay { PrintsRun (S.left source.old) (S.before source.new) (S.left source.new) (W.contents sink.old) (W.contents sink.new)
        (Rose (W.wants sink.old) (W.wants sink.new)) result }
    ensures exactly { ComesExactly (S.left source.old) result }
    ensures read { result ≡ Err ReplayFault.Read → Rose (S.faults source.old) (S.faults source.new) }
    ensures write { result ≡ Err ReplayFault.Write → Rose (W.faults sink.old) (W.faults sink.new) }
    ensures read_told { S.faults source.old < S.faults source.new → (result ≡ Err ReplayFault.Read) ⊎ IsBroken result }
    ensures write_told { W.faults sink.old < W.faults sink.new → result ≡ Err ReplayFault.Write }
    ensures later { W.faults sink.old ≤ W.faults sink.new }
    ensures wants { W.wants sink.old ≤ W.wants sink.new }
{
    replay_in::<S, W, World<Node<MemDisk>>>(alloc, source, sink)
}
