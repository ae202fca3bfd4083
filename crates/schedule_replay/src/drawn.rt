ghost use Rattle.std.specs.Prelude.{◌≡◌, IfOk};
ghost use Rattle.net_model.specs.declared.event.Event.TheVariants as event_value;
ghost use Rattle.schedule_replay.specs.Numbered.{adding};
ghost use Rattle.schedule_replay.specs.Drawing.{event_of};

use net_model::Event;
use std::alloc::{AllocError, Global};
use std::fmt;
use std::fmt::Write;
use tx_model::{Lock, Locks, OpText};

/// An event that the schedule of a number may have.
#[derive(Clone, Copy)]
pub enum DrawnEvent {
    Read(u8),
    Cas(u8),
    Tick(u8),
    Next,
    Skip,
    /// A client adds 1 to the key of this number: client, server, number.
    Append(u8, u8, u8),
    Ask(u8, u8),
    Deliver(u32),
    Crash(u8),
}

// A client adds 1 to the key of this number.
fn adding(alloc: Global, client: u8, server: u8, key: u8) -> Result<Event, AllocError>
    ensures { IfOk result (λ event. event ≡ adding client server key) }
{
    let mut name = String::new(alloc);
    write!(name, "k{key}")?;
    // A key of one digit is never refused but for want of memory.
    let Ok(lock) = Lock::new(alloc, name.as_bytes()) else {
        return Err(AllocError);
    };
    let mut writes = Vec::new(alloc);
    writes.push(lock)?;
    let mut ops = String::new(alloc);
    write!(ops, "add k{key} 1")?;
    let ops = ops.as_bytes().to_vec(alloc)?;
    Ok(Event::Append(
        client,
        server,
        Locks::new(writes),
        Locks::new(Vec::new(alloc)),
        OpText::new(ops),
    ))
}

impl DrawnEvent {
    /// The event of a world.
    pub fn event(self, alloc: Global) -> Result<Event, AllocError>
        ensures { IfOk result (λ event. event ≡ event_of self) }
    {
        match self {
            DrawnEvent::Read(server) => Ok(Event::Read(server)),
            DrawnEvent::Cas(server) => Ok(Event::Cas(server)),
            DrawnEvent::Tick(server) => Ok(Event::Tick(server)),
            DrawnEvent::Next => Ok(Event::Next),
            DrawnEvent::Skip => Ok(Event::Skip),
            DrawnEvent::Append(client, server, key) => adding(alloc, client, server, key),
            DrawnEvent::Ask(client, server) => Ok(Event::Ask(client, server)),
            DrawnEvent::Deliver(envelope) => Ok(Event::Deliver(envelope)),
            DrawnEvent::Crash(node) => Ok(Event::Crash(node)),
        }
    }
}

/// The line of a schedule that spells it.
impl fmt::Display for DrawnEvent {
    ghost use Rattle.std.specs.Prelude.{Some};
    ghost use Rattle.schedule_replay.specs.Numbered.{event_line};
    ghost use Rattle.schedule_replay.specs.Drawing.{event_of};

    ghost output = { λ e. Some (event_line (event_of e)) };

    fn fmt<W: fmt::Write>(&self, f: &mut fmt::Formatter<W>) -> fmt::Result {
        match self {
            DrawnEvent::Read(server) => write!(f, "read {server}"),
            DrawnEvent::Cas(server) => write!(f, "cas {server}"),
            DrawnEvent::Tick(server) => write!(f, "tick {server}"),
            DrawnEvent::Next => f.write_str("next"),
            DrawnEvent::Skip => f.write_str("skip"),
            DrawnEvent::Append(client, server, key) => {
                write!(f, "append {client} {server} k{key} - add k{key} 1")
            }
            DrawnEvent::Ask(client, server) => write!(f, "ask {client} {server}"),
            DrawnEvent::Deliver(envelope) => write!(f, "deliver {envelope}"),
            DrawnEvent::Crash(node) => write!(f, "crash {node}"),
        }
    }
}
