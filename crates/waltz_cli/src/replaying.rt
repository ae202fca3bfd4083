ghost use Rattle.std.specs.Prelude.{◌≡◌, ◌⊎◌, ◌<◌, ◌≤◌};
ghost use Rattle.io_core.specs.Causes.{Rose};
ghost use Rattle.waltz_cli.specs.Ends.{IsBroken, IsReplayStatus, IsWrittenStatus, end_of};
ghost use Rattle.waltz_cli.specs.Replays.{PrintsReplay, ComesExactly};
ghost use Rattle.waltz_cli.specs.Numbered.{PrintsNumbered, PrintsDrilled};

use crate::end::End;
use crate::output::finish;
use io_core::{Sink, Source};
use schedule_replay::{ReplayFault, drill, generate, replay};
use std::alloc::Global;

// The end of a replay, or of the schedule of a number.
fn end_of(replayed: Result<(), ReplayFault>) -> End
    ensures { result ≡ end_of replayed }
{
    match replayed {
        Ok(()) => End::Done,
        Err(fault) => End::Stopped(fault),
    }
}

/// Replays the schedule that is read, prints how that ended, and gives the status.
pub fn replay_schedule<S: Source, W: Sink>(alloc: Global, source: &mut S, sink: &mut W) -> u8
    ensures replay { PrintsReplay (S.left source.old) (S.before source.new) (S.left source.new)
        (W.contents sink.old) (W.contents sink.new)
        (Rose (W.wants sink.old) (W.wants sink.new)) result }
    ensures exactly { ComesExactly (S.left source.old) result }

    // A fault is told only where it was counted, and is told where it was.
    ensures read { result ≡ 10 → Rose (S.faults source.old) (S.faults source.new) }
    ensures write { result ≡ 11 → Rose (W.faults sink.old) (W.faults sink.new) }
    ensures read_told { S.faults source.old < S.faults source.new → (result ≡ 10) ⊎ IsBroken result }
    ensures write_told { W.faults sink.old < W.faults sink.new → result ≡ 11 }
    ensures of_a_replay { IsReplayStatus result }
{
    let replayed = replay(alloc, source, sink);
    let end = end_of(replayed);
    finish(alloc, sink, end)
}

/// Writes the schedule of a number, of so many events, and gives the status.
pub fn generate_schedule<W: Sink>(alloc: Global, number: u64, events: u32, sink: &mut W) -> u8
    ensures prints { PrintsNumbered number events (W.contents sink.old) (W.contents sink.new)
        result }
    ensures write { result ≡ 11 → Rose (W.faults sink.old) (W.faults sink.new) }
    ensures told { W.faults sink.old < W.faults sink.new → result ≡ 11 }
    ensures few { IsWrittenStatus result }
{
    let generated = generate(alloc, number, events, sink);
    end_of(generated).status()
}

/// Replays the schedule of a number, of so many events, writes what it came to, and gives the status.
pub fn drill_schedule<W: Sink>(alloc: Global, number: u64, events: u32, sink: &mut W) -> u8
    requires few { events ≤ 20000 }
    ensures prints { PrintsDrilled number events (W.contents sink.old) (W.contents sink.new)
        (Rose (W.wants sink.old) (W.wants sink.new)) result }
    ensures write { result ≡ 11 → Rose (W.faults sink.old) (W.faults sink.new) }
    ensures told { W.faults sink.old < W.faults sink.new → result ≡ 11 }
    ensures few { IsWrittenStatus result }
{
    let drilled = drill(alloc, number, events, sink);
    end_of(drilled).status()
}
