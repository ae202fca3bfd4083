ghost use Rattle.std.specs.Prelude.{◌≡◌, ◌≢◌, [], Contains};
ghost use Rattle.std.specs.Io.KnownBytes.{prepend_known};
ghost use Rattle.io_core.specs.Lines.{IsReadWhileOpen};
ghost use Rattle.schedule_text.specs.Taken.{ReadsOn};
ghost use Rattle.schedule_replay.specs.Steps.{SaysEvent, SaysCluster, NextOf, FirstOf, LastOf, Counts};

use crate::ReplayFault;
use io_core::{Fault, Pending, ReadLine, Source, next_byte, next_line};
use net_model::{Cluster, Event};
use schedule_text::{LineFault, read_cluster, read_event};
use std::alloc::Global;

/// What was read and not used yet, and the line that is read now.
#[derive(Drop)]
pub struct Input {
    pub pending: Pending,
    line: Vec<u8>,
}

impl Input {
    pub fn new(alloc: Global) -> Input
        ensures { result.pending ≡ [] }
    {
        Input {
            pending: Pending::new(),
            line: Vec::new(alloc),
        }
    }
}

// The event of a further line, which has this number. Of a line that is too long its first 513 bytes are enough.
fn said(alloc: Global, line: &[u8], cluster: &Cluster, number: u64) -> Result<Event, ReplayFault>
    ensures { SaysEvent cluster.now line.now number result }
{
    match read_event(alloc, line, cluster) {
        Ok(event) => Ok(event),
        Err(LineFault::Bad(at)) => Err(ReplayFault::Line(number, at)),
        Err(LineFault::Range(name)) => Err(ReplayFault::Range(number, name)),
        Err(LineFault::Memory) => Err(ReplayFault::Memory),
    }
}

// The cluster of a first line.
fn first_said(line: &[u8]) -> Result<Cluster, ReplayFault>
    ensures { SaysCluster line.now result }
{
    match read_cluster(line) {
        Ok(cluster) => Ok(cluster),
        Err(LineFault::Bad(at)) => Err(ReplayFault::Line(1, at)),
        Err(LineFault::Range(name)) => Err(ReplayFault::Range(1, name)),
        Err(LineFault::Memory) => unreachable!(),
    }
}

/// Reads the next line, which has this number, and the event that it is. There is none at the end.
pub fn next_event<S: Source>(
    alloc: Global,
    source: &mut S,
    input: &mut Input,
    cluster: &Cluster,
    number: u64,
) -> Result<Option<Event>, ReplayFault>
    ensures next { NextOf
        (prepend_known input.old.pending (S.left source.old)) (prepend_known input.new.pending (S.left source.new))
        cluster.now number result }
    ensures empty { result ≡ Err ReplayFault.Read → input.new.pending ≡ [] }
    ensures ready { Contains input.old.pending 10 → source.new ≡ source.old }
    ensures reads { ReadsOn S.left S.before source.old source.new 512 input.old.pending }
    ensures faults { Counts (S.faults source.old) (S.faults source.new) (result ≡ Err ReplayFault.Read) }
{
    match next_line(source, &mut input.pending, &mut input.line) {
        Ok(ReadLine::End) => Ok(None),
        Ok(ReadLine::Line) => match said(alloc, &input.line, cluster, number) {
            Ok(event) => Ok(Some(event)),
            Err(fault) => Err(fault),
        },
        Ok(ReadLine::TooLong) => match said(alloc, &input.line, cluster, number) {
            Ok(_) => unreachable!(),
            Err(fault) => Err(fault),
        },
        Err(Fault::Failed) => Err(ReplayFault::Read),
        Err(Fault::Memory) => Err(ReplayFault::Memory),
    }
}

/// Reads the first line.
pub fn read_first<S: Source>(source: &mut S, input: &mut Input) -> Result<Cluster, ReplayFault>
    requires { input.old.pending ≡ [] }
    ensures first { FirstOf
        (prepend_known input.old.pending (S.left source.old)) (prepend_known input.new.pending (S.left source.new)) result }
    ensures empty { result ≡ Err ReplayFault.Read → input.new.pending ≡ [] }
    ensures reads { ReadsOn S.left S.before source.old source.new 512 [] }
    ensures begun { result ≢ Err ReplayFault.Memory → IsReadWhileOpen 512 [] (S.left source.old) (S.before source.new) (S.left source.new) }
    ensures faults { Counts (S.faults source.old) (S.faults source.new) (result ≡ Err ReplayFault.Read) }
{
    match next_line(source, &mut input.pending, &mut input.line) {
        Ok(ReadLine::End) => Err(ReplayFault::Line(1, 1)),
        Ok(ReadLine::Line) => first_said(&input.line),
        Ok(ReadLine::TooLong) => match first_said(&input.line) {
            Ok(_) => unreachable!(),
            Err(fault) => Err(fault),
        },
        Err(Fault::Failed) => Err(ReplayFault::Read),
        Err(Fault::Memory) => Err(ReplayFault::Memory),
    }
}

/// Looks for a byte after the last event that is allowed.
pub fn read_last<S: Source>(source: &mut S, input: &mut Input) -> Result<(), ReplayFault>
    ensures last { LastOf
        (prepend_known input.old.pending (S.left source.old)) (prepend_known input.new.pending (S.left source.new)) result }
    ensures empty { result ≡ Err ReplayFault.Read → (input.old.pending ≡ []) × (input.new.pending ≡ []) }
    ensures reads { result ≡ Err ReplayFault.TooManyEvents → ReadsOn S.left S.before source.old source.new 0 input.old.pending }
    ensures faults { Counts (S.faults source.old) (S.faults source.new) (result ≡ Err ReplayFault.Read) }
{
    match next_byte(source, &mut input.pending) {
        Ok(Some(_)) => Err(ReplayFault::TooManyEvents),
        Ok(None) => Ok(()),
        Err(_) => Err(ReplayFault::Read),
    }
}
