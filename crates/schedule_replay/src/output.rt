ghost use Rattle.std.specs.Prelude.{◌≡◌, ◌⊎◌, ◌++◌, ◌∷◌, [], OnOk, OnErr, IfErr, ◌≤◌, ◌<◌, length};
ghost use Rattle.std.specs.Io.KnownBytes.{Appends};
ghost use Rattle.io_core.specs.Bytes.{AppendsPrefix};
ghost use Rattle.io_core.specs.Causes.{Rose};
ghost use Rattle.schedule_text.specs.Lines.{line_text};
ghost use Rattle.schedule_text.specs.Spellings.{first_parts};
ghost use Rattle.schedule_text.specs.Outcomes.{outcome_line};
ghost use Rattle.schedule_replay.specs.Faults.{IsBrokenFault};
ghost use Rattle.schedule_replay.specs.Numbered.{event_line};
ghost use Rattle.schedule_replay.specs.Drawing.{event_of};
ghost use Rattle.schedule_replay.specs.Steps.{Counts, Finishes, WritesOf};

use crate::ReplayFault;
use crate::drawn::DrawnEvent;
use io_core::{Fault, Sink, write_all};
use net_model::{Cluster, Outcome};
use schedule_text::print_outcome;
use std::alloc::{AllocError, Global};
use std::fmt::Write;

/// Fewer bytes than this wait between two lines.
pub const MAX_WAITING: usize = 65536;

/// The bytes that wait to be written.
#[derive(Drop)]
pub struct Output {
    alloc: Global,
    pub waiting: Vec<u8>,
}

impl Output {
    pub fn new(alloc: Global) -> Output
        ensures { result.waiting.items ≡ [] }
    {
        Output {
            alloc,
            waiting: Vec::new(alloc),
        }
    }

    /// Adds the line of an outcome.
    pub fn print(&mut self, outcome: &Outcome) -> Result<(), AllocError>
        ensures ok { OnOk result (self.new.waiting.items ≡ self.old.waiting.items ++ outcome_line outcome.now) }
        ensures err { OnErr result (self.new.waiting.items ≡ self.old.waiting.items) }
    {
        let before = self.waiting.len();
        print_outcome(self.alloc, outcome, &mut self.waiting)?;
        if self.waiting.push(b'\n').is_err() {
            self.waiting.truncate(before);
            return Err(AllocError);
        }
        Ok(())
    }

    /// Adds the first line of a schedule.
    pub fn add_cluster(&mut self, cluster: Cluster) -> Result<(), AllocError>
        ensures ok { OnOk result (self.new.waiting.items
            ≡ self.old.waiting.items ++ (line_text (first_parts cluster) ++ 10 ∷ [])) }
        ensures err { OnErr result (self.new.waiting.items ≡ self.old.waiting.items) }
    {
        let (nodes, servers, clients) = (cluster.nodes, cluster.servers, cluster.clients);
        let (rows, slots) = (cluster.rows, cluster.slots);
        let mut line = String::new(self.alloc);
        write!(line, "cluster {nodes} {servers} {clients} {rows} {slots}\n")?;
        self.waiting.extend_from_slice(line.as_bytes())
    }

    /// Adds the line of an event that was drawn.
    pub fn add_event(&mut self, event: DrawnEvent) -> Result<(), AllocError>
        ensures ok { OnOk result (self.new.waiting.items
            ≡ self.old.waiting.items ++ (event_line (event_of event) ++ 10 ∷ [])) }
        ensures err { OnErr result (self.new.waiting.items ≡ self.old.waiting.items) }
    {
        let mut line = String::new(self.alloc);
        write!(line, "{event}\n")?;
        self.waiting.extend_from_slice(line.as_bytes())
    }

    /// Writes what waits. Nothing waits afterwards, also where the sink failed.
    pub fn write<W: Sink>(&mut self, sink: &mut W) -> Result<(), ReplayFault>
        ensures written { OnOk result (Appends (W.contents sink.old) (W.contents sink.new) self.old.waiting.items) }
        ensures broken { IfErr result IsBrokenFault × OnErr result (AppendsPrefix (W.contents sink.old) (W.contents sink.new) self.old.waiting.items) }
        ensures empty { self.new.waiting.items ≡ [] }
        ensures faults { Counts (W.faults sink.old) (W.faults sink.new) (result ≡ Err ReplayFault.Write) }
        ensures wants { Counts (W.wants sink.old) (W.wants sink.new) (result ≡ Err ReplayFault.Memory) }
    {
        let written = write_all(sink, &self.waiting);
        self.waiting.clear();
        match written {
            Ok(()) => Ok(()),
            Err(Fault::Failed) => Err(ReplayFault::Write),
            Err(Fault::Memory) => Err(ReplayFault::Memory),
        }
    }

    /// Writes what waits at an end, and answers the end. Where a write has failed, no more is tried.
    pub fn finish<W: Sink>(
        &mut self,
        sink: &mut W,
        end: Result<(), ReplayFault>,
    ) -> Result<(), ReplayFault>
        ensures ends { Finishes (Rose (W.wants sink.old) (W.wants sink.new)) (W.contents sink.old) (W.contents sink.new) self.old.waiting.items end result }
        ensures failed { end ≡ Err ReplayFault.Write → (result ≡ Err ReplayFault.Write) × (sink.new ≡ sink.old) }
        ensures later { W.faults sink.old ≤ W.faults sink.new }
        ensures fault { result ≡ Err ReplayFault.Write → (end ≡ Err ReplayFault.Write) ⊎ Rose (W.faults sink.old) (W.faults sink.new) }
        ensures told { W.faults sink.old < W.faults sink.new → result ≡ Err ReplayFault.Write }
        ensures wants { W.wants sink.old ≤ W.wants sink.new }
        ensures read_fault { result ≡ Err ReplayFault.Read → end ≡ Err ReplayFault.Read }
    {
        if let Err(ReplayFault::Write) = end {
            return end;
        }
        match self.write(sink) {
            Ok(()) => end,
            Err(broken) => Err(broken),
        }
    }
}

/// Writes what waits, where that is much.
pub fn write_much<W: Sink>(sink: &mut W, output: &mut Output) -> Result<(), ReplayFault>
    ensures written { WritesOf (W.contents sink.old) (W.contents sink.new) output.old.waiting.items output.new.waiting.items result }
    ensures few { length output.new.waiting.items < MAX_WAITING }
    ensures faults { Counts (W.faults sink.old) (W.faults sink.new) (result ≡ Err ReplayFault.Write) }
    ensures wants { Counts (W.wants sink.old) (W.wants sink.new) (result ≡ Err ReplayFault.Memory) }
{
    if output.waiting.len() < MAX_WAITING {
        return Ok(());
    }
    output.write(sink)
}
