//! Days of a schedule, stepped in memory without text: the events of its lines are read beforehand.
ghost use Rattle.std.specs.Prelude.{◌≡◌, ◌≤◌, ◌<◌, ◌+◌, All, IfOk, OnOk, length};
ghost use Rattle.net_model.specs.Clusters.{IsClusterInRange};
ghost use Rattle.net_model.specs.Events.{IsInRange};

use crate::work::Tally;
use disk_model::MemDisk;
use net_model::{Cluster, Event, Outcome};
use schedule_replay::fresh_nodes;
use schedule_text::{read_cluster, read_event};
use std::alloc::Global;
use std::io::{self, ErrorKind, Read};
use storage_node::Node;
use world_core::World;

/// Events of a day at most.
const MAX_EVENTS: usize = 20_000;

/// Bytes of a schedule at most.
const MAX_BYTES: usize = 8 << 20;

// All that is read, up to a limit.
fn read_all<R: Read + Drop>(alloc: Global, mut input: R) -> io::Result<Vec<u8>> {
    let mut text = Vec::new(alloc);
    let mut buffer = [0; 4096];
    for _ in 0..MAX_BYTES {
        let count = input.read(&mut buffer)?;
        if count == 0 {
            return Ok(text);
        }
        text.extend_from_slice(&buffer[..count])?;
    }
    Err(ErrorKind::InvalidInput.into())
}

// The events of lines.
fn events_of(alloc: Global, cluster: &Cluster, lines: &[&[u8]]) -> io::Result<Vec<Event>>
    ensures in_range { IfOk result (λ events. All (IsInRange cluster.now) events.items) }
{
    let mut events = Vec::new(alloc);
    'lines: for line in lines {
        let Ok(event) = read_event(alloc, line, cluster) else {
            return Err(ErrorKind::InvalidInput.into());
        };
        events.push(event)?;
    }
    Ok(events)
}

// The world of a cluster in which nothing has happened.
fn fresh_world(alloc: Global, cluster: Cluster) -> io::Result<World<Node<MemDisk>>>
    requires cluster { IsClusterInRange cluster }
    ensures cluster { IfOk result (λ world. world.system.cluster ≡ cluster) }
    ensures fresh { IfOk result (λ world. world.stepped ≡ 0) }
{
    let nodes = fresh_nodes(alloc, cluster.nodes)?;
    Ok(World::new(alloc, cluster, nodes)?)
}

// Steps a world by events in turn, and counts those after which a message is on its way.
fn step_each(world: &mut World<Node<MemDisk>>, events: &[Event]) -> io::Result<u64>
    requires fresh { world.old.stepped ≡ 0 }
    requires few { length events.now ≤ MAX_EVENTS }
    requires in_range { All (IsInRange world.old.system.cluster) events.now }
{
    let mut sent: u64 = 0;
    'events: for at in 0..events.len() {
        if let Outcome::Sent(_) = world.step(&events[at])? {
            sent = sent.saturating_add(1);
        }
    }
    Ok(sent)
}

// Steps fresh worlds by a day's events, so many times. The sum counts the messages that events sent.
fn step_days(alloc: Global, cluster: Cluster, events: &[Event], days: u64) -> io::Result<Tally>
    requires cluster { IsClusterInRange cluster }
    requires few { length events.now ≤ MAX_EVENTS }
    requires in_range { All (IsInRange cluster) events.now }
{
    let mut tally = Tally::new();
    for _ in 0..days {
        let mut world = fresh_world(alloc, cluster)?;
        tally.add(events.len(), step_each(&mut world, events)?);
    }
    Ok(tally)
}

/// Reads a schedule, and steps fresh worlds by its events, so many times. The tally has the number of events for its
/// bytes, and of events that sent a message for its sum.
pub fn step_schedule<R: Read + Drop>(alloc: Global, input: R, days: u64) -> io::Result<Tally> {
    let mut text = read_all(alloc, input)?;
    if text.last() == Some(&b'\n') {
        text.pop();
    }
    let mut lines = Vec::new(alloc);
    for line in text.split(|byte| *byte == b'\n') {
        lines.push(line)?;
    }
    let Some((first, further)) = lines.split_first() else {
        return Err(ErrorKind::InvalidInput.into());
    };
    let Ok(cluster) = read_cluster(first) else {
        return Err(ErrorKind::InvalidInput.into());
    };
    let events = events_of(alloc, &cluster, further)?;
    if events.len() > MAX_EVENTS {
        return Err(ErrorKind::InvalidInput.into());
    }
    step_days(alloc, cluster, &events, days)
}
