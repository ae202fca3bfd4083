ghost use Rattle.std.specs.Prelude.{◌≡◌, [], ◌≤◌, ◌<◌, OnOk, OnErr, IfErr, Err};
ghost use Rattle.std.specs.Io.KnownBytes.{Appends};
ghost use Rattle.io_core.specs.Bytes.{AppendsPrefix};
ghost use Rattle.io_core.specs.Causes.{Rose};
ghost use Rattle.schedule_replay.specs.Faults.{IsBrokenFault};
ghost use Rattle.schedule_replay.specs.Numbered.{numbered_text};
ghost use Rattle.schedule_replay.specs.Steps.{Counts};
ghost use Rattle.schedule_replay.specs.Writing.{Writes};

use crate::ReplayFault;
use crate::draws::{Draws, numbered_cluster};
use crate::output::{Output, write_much};
use io_core::Sink;
use std::alloc::Global;

// Writes the lines of the schedule, and leaves some of them waiting.
fn write_lines<W: Sink>(
    number: u64,
    events: u32,
    sink: &mut W,
    output: &mut Output,
) -> Result<(), ReplayFault>
    requires { output.old.waiting.items ≡ [] }
    ensures lines { OnOk result (Writes (W.contents sink.old) (W.contents sink.new)
        output.new.waiting.items (numbered_text number events)) }
    ensures broken { OnErr result (AppendsPrefix (W.contents sink.old) (W.contents sink.new)
        (numbered_text number events)) }
    ensures alone { IfErr result IsBrokenFault }
    ensures faults { Counts (W.faults sink.old) (W.faults sink.new) (result ≡ Err ReplayFault.Write) }
    ensures wants { W.wants sink.old ≤ W.wants sink.new }
{
    match output.add_cluster(numbered_cluster()) {
        Ok(()) => {}
        Err(_) => return Err(ReplayFault::Memory),
    }
    let mut draws = Draws::new(number);
    for line in 0..events {
        let event = draws.next(line + 1);
        match output.add_event(event) {
            Ok(()) => {}
            Err(_) => return Err(ReplayFault::Memory),
        }
        match write_much(sink, output) {
            Ok(()) => {}
            Err(fault) => return Err(fault),
        }
    }
    Ok(())
}

/// Writes the schedule of a number, with so many events. It keeps no more of the text than what waits to be written.
pub fn generate<W: Sink>(
    alloc: Global,
    number: u64,
    events: u32,
    sink: &mut W,
) -> Result<(), ReplayFault>
    ensures text { OnOk result (Appends (W.contents sink.old) (W.contents sink.new)
        (numbered_text number events)) }
    ensures broken { OnErr result (AppendsPrefix (W.contents sink.old) (W.contents sink.new)
        (numbered_text number events)) }
    ensures alone { IfErr result IsBrokenFault }
    ensures write { result ≡ Err ReplayFault.Write → Rose (W.faults sink.old) (W.faults sink.new) }
    ensures write_told { W.faults sink.old < W.faults sink.new → result ≡ Err ReplayFault.Write }
    ensures later { W.faults sink.old ≤ W.faults sink.new }
    ensures wants { W.wants sink.old ≤ W.wants sink.new }
{
    let mut output = Output::new(alloc);
    match write_lines(number, events, sink, &mut output) {
        Ok(()) => output.write(sink),
        Err(fault) => Err(fault),
    }
}
