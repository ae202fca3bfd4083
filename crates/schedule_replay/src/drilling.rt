ghost use Rattle.std.specs.Prelude.{◌≡◌, ◌≤◌, ◌<◌, ◌+◌, IfOk, OnOk, Err, length};
ghost use Rattle.world_law.specs.Worlds.{WorldState, start};
ghost use Rattle.world_law.specs.OneLog.{one_log};
ghost use Rattle.world_core.specs.Fit.{max_events};
ghost use Rattle.io_core.specs.Causes.{Rose};
ghost use Rattle.schedule_replay.specs.Numbered.{numbered_cluster, state_after};
ghost use Rattle.schedule_replay.specs.Drills.{PrintsDrill};
ghost use Rattle.schedule_replay.specs.Drilling.{AreNumberedFrom, items_of, tells_refusal, one_more_if, refusals_told, Drilled, Shows, IsShown, Sums};

use crate::ReplayFault;
use crate::draws::{Draws, numbered_cluster};
use crate::play::Play;
use crate::summary::Summary;
use disk_model::MemDisk;
use io_core::{Fault, Sink, write_all};
use net_model::{Brief, Event, FromServerBrief, Item, Outcome};
use std::alloc::{AllocError, Global};
use std::fmt::Write;
use storage_node::Node;
use world_core::World;

/// How many envelopes a world has, and how many of them are refusals.
#[derive(Clone, Copy)]
pub struct Tally {
    pub envelopes: u32,
    pub refused: u32,
}

// Whether an envelope's message is a refusal.
fn is_refusal(item: &Item) -> bool
    ensures { result ≡ tells_refusal item.now.brief }
{
    match &item.brief {
        Brief::FromServer(FromServerBrief::Refused(_, _)) => true,
        _ => false,
    }
}

impl Tally {
    // Counts the next envelope.
    fn add(&mut self, number: u32, is_refused: bool)
        requires numbered { number ≡ self.old.envelopes + 1 }
        requires fits { self.old.refused ≤ self.old.envelopes }
        ensures envelopes { self.new.envelopes ≡ self.old.envelopes + 1 }
        ensures refused { self.new.refused ≡ one_more_if is_refused self.old.refused }
        ensures fits { self.new.refused ≤ self.new.envelopes }
    {
        self.envelopes = number;
        if is_refused {
            self.refused += 1;
        }
    }

    // Counts the envelopes that an event made, each of which has the number after the one before it.
    fn count(&mut self, items: &[Item])
        requires numbered { AreNumberedFrom (self.old.envelopes + 1) items.now }
        requires fits { self.old.refused ≤ self.old.envelopes }
        ensures envelopes { self.new.envelopes ≡ self.old.envelopes + length items.now }
        ensures refused { self.new.refused ≡ self.old.refused + refusals_told items.now }
    {
        for item in items {
            self.add(item.number, is_refusal(item));
        }
    }

    // Counts the envelopes of an outcome.
    fn note(&mut self, outcome: &Outcome)
        requires numbered { AreNumberedFrom (self.old.envelopes + 1) (items_of outcome.now) }
        requires fits { self.old.refused ≤ self.old.envelopes }
        ensures envelopes { self.new.envelopes ≡ self.old.envelopes + length (items_of outcome.now) }
        ensures refused { self.new.refused ≡ self.old.refused + refusals_told (items_of outcome.now) }
    {
        match outcome {
            Outcome::Sent(items) => self.count(items.items()),
            _ => {}
        }
    }
}

// Steps the next event, which follows so many others, and counts what it made.
fn drill_event<P: Play>(
    alloc: Global,
    play: &mut P,
    draws: &mut Draws,
    tally: &mut Tally,
    number: u64,
    events: u32,
) -> Result<(), AllocError>
    requires few { events < 20000 }
    requires state { draws.old.state ≡ state_after number events }
    requires cluster { P.cluster_of play.old ≡ numbered_cluster }
    requires steps { P.steps play.old ≤ events }
    requires drilled { Drilled P.shows number events play.old tally.old }
    ensures state { OnOk result (draws.new.state ≡ state_after number (events + 1)) }
    ensures cluster { OnOk result (P.cluster_of play.new ≡ numbered_cluster) }
    ensures steps { OnOk result (P.steps play.new ≤ events + 1) }
    ensures drilled { OnOk result (Drilled P.shows number (events + 1) play.new tally.new) }
{
    let event = draws.next(events + 1).event(alloc)?;
    let outcome = play.step(&event)?;
    tally.note(&outcome);
    Ok(())
}

// Steps all events, and counts what they made.
fn drill_events<P: Play>(
    alloc: Global,
    play: &mut P,
    number: u64,
    events: u32,
) -> Result<Tally, AllocError>
    requires few { events ≤ 20000 }
    requires shown { P.shows play.old (start numbered_cluster) }
    requires cluster { P.cluster_of play.old ≡ numbered_cluster }
    requires fresh { P.steps play.old ≡ 0 }
    ensures drilled { IfOk result (Drilled P.shows number events play.new) }
    ensures cluster { OnOk result (P.cluster_of play.new ≡ numbered_cluster) }
    ensures steps { OnOk result (P.steps play.new ≤ events) }
{
    let mut draws = Draws::new(number);
    let mut tally = Tally {
        envelopes: 0,
        refused: 0,
    };
    for event in 0..events {
        drill_event(alloc, play, &mut draws, &mut tally, number, event)?;
    }
    Ok(tally)
}

// The length of the one log.
fn committed<P: Play>(play: &mut P) -> Result<u64, AllocError>
    requires few { P.steps play.old < max_events }
    requires cluster { P.cluster_of play.old ≡ numbered_cluster }
    requires shown { IsShown P.shows play.old }
    ensures told { IfOk result (λ length_of. Shows P.shows play.old play.new
        (λ w. length_of ≡ length (one_log w))) }
    ensures cluster { OnOk result (P.cluster_of play.new ≡ numbered_cluster) }
    ensures steps { OnOk result (P.steps play.new ≤ P.steps play.old + 1) }
{
    match play.step(&Event::Log(1))? {
        Outcome::Log(length, _) => Ok(length),
        _ => unreachable!(),
    }
}

// The register's number.
fn sessions<P: Play>(play: &mut P) -> Result<u64, AllocError>
    requires few { P.steps play.old < max_events }
    requires cluster { P.cluster_of play.old ≡ numbered_cluster }
    requires shown { IsShown P.shows play.old }
    ensures { IfOk result
        (λ number. (w : WorldState) → P.shows play.old w → number ≡ w.number) }
{
    match play.step(&Event::Read(1))? {
        Outcome::Read(number) => Ok(number),
        _ => unreachable!(),
    }
}

// Steps the schedule of a number, and sums up the world that it leads to.
fn sum_up<P: Play>(alloc: Global, number: u64, events: u32) -> Result<Summary, AllocError>
    requires few { events ≤ 20000 }
    ensures { IfOk result (Sums number events) }
{
    let mut play = P::new(alloc, numbered_cluster())?;
    let tally = drill_events(alloc, &mut play, number, events)?;
    let committed = committed(&mut play)?;
    let sessions = sessions(&mut play)?;
    Ok(Summary {
        events,
        envelopes: tally.envelopes,
        sessions,
        committed,
        refused: tally.refused,
    })
}

// Drills in a world of this kind.
fn drill_in<W: Sink, P: Play>(
    alloc: Global,
    number: u64,
    events: u32,
    sink: &mut W,
) -> Result<(), ReplayFault>
    requires few { events ≤ 20000 }
    ensures drill { PrintsDrill number events (W.contents sink.old) (W.contents sink.new)
        (Rose (W.wants sink.old) (W.wants sink.new)) result }
    ensures write { result ≡ Err ReplayFault.Write → Rose (W.faults sink.old) (W.faults sink.new) }
    ensures write_told { W.faults sink.old < W.faults sink.new → result ≡ Err ReplayFault.Write }
    ensures later { W.faults sink.old ≤ W.faults sink.new }
    ensures wants { W.wants sink.old ≤ W.wants sink.new }
{
    let Ok(summary) = sum_up::<P>(alloc, number, events) else {
        return Err(ReplayFault::Memory);
    };
    let mut line = String::new(alloc);
    let Ok(()) = write!(line, "{summary}\n") else {
        return Err(ReplayFault::Memory);
    };
    match write_all(sink, line.as_bytes()) {
        Ok(()) => Ok(()),
        Err(Fault::Failed) => Err(ReplayFault::Write),
        Err(Fault::Memory) => Err(ReplayFault::Memory),
    }
}

/// Replays the schedule of a number, with so many events, and writes what it comes to: the events, the envelopes that were
/// made, the register's number, the length of the one log, and the envelopes that are refusals, each once.
pub fn drill<W: Sink>(
    alloc: Global,
    number: u64,
    events: u32,
    sink: &mut W,
) -> Result<(), ReplayFault>
    requires few { events ≤ 20000 }
    ensures drill { PrintsDrill number events (W.contents sink.old) (W.contents sink.new)
        (Rose (W.wants sink.old) (W.wants sink.new)) result }
    ensures write { result ≡ Err ReplayFault.Write → Rose (W.faults sink.old) (W.faults sink.new) }
    ensures write_told { W.faults sink.old < W.faults sink.new → result ≡ Err ReplayFault.Write }
    ensures later { W.faults sink.old ≤ W.faults sink.new }
    ensures wants { W.wants sink.old ≤ W.wants sink.new }
{
    drill_in::<W, World<Node<MemDisk>>>(alloc, number, events, sink)
}
