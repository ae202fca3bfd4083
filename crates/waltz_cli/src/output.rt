ghost use Rattle.std.specs.Prelude.{◌≡◌, ◌⊎◌, ◌≤◌, ◌<◌, []};
ghost use Rattle.io_core.specs.Causes.{Rose};
ghost use Rattle.waltz_cli.specs.Ends.{Finishes, last_line, status_of};

use crate::end::End;
use io_core::{Fault, Sink, write_all};
use schedule_replay::ReplayFault;
use std::alloc::Global;
use std::fmt::Write;

/// Writes the last line of an end, and gives the status. Where there is no such line, the sink is left alone.
pub fn finish<W: Sink>(alloc: Global, sink: &mut W, end: End) -> u8
    ensures ends { Finishes (Rose (W.wants sink.old) (W.wants sink.new)) (W.contents sink.old) (W.contents sink.new) end result }
    ensures silent { last_line end ≡ [] → (result ≡ status_of end) × (sink.new ≡ sink.old) }
    ensures later { W.faults sink.old ≤ W.faults sink.new }
    ensures fault { result ≡ 11 → (end ≡ End.Stopped ReplayFault.Write) ⊎ Rose (W.faults sink.old) (W.faults sink.new) }
    ensures told { W.faults sink.old < W.faults sink.new → result ≡ 11 }
    ensures wants { W.wants sink.old ≤ W.wants sink.new }
    ensures read_fault { result ≡ 10 → end ≡ End.Stopped ReplayFault.Read }
{
    match end {
        End::Done | End::Stopped(ReplayFault::Write | ReplayFault::Memory) => return end.status(),
        _ => {}
    }
    let mut last = String::new(alloc);
    if write!(last, "{end}").is_err() {
        return End::Stopped(ReplayFault::Memory).status();
    }
    match write_all(sink, last.as_bytes()) {
        Ok(()) => end.status(),
        Err(Fault::Failed) => End::Stopped(ReplayFault::Write).status(),
        Err(Fault::Memory) => End::Stopped(ReplayFault::Memory).status(),
    }
}
