ghost use Rattle.std.specs.Prelude.{◌≡◌, ◌≤◌, ◌<◌, ◌⊎◌};
ghost use Rattle.io_core.specs.Causes.{Rose};
ghost use Rattle.client_loop.specs.Ends.{status_of, Finishes};

use io_core::{Fault, Sink, write_all};
use std::alloc::Global;
use std::fmt;
use std::fmt::Write;

/// How a client's command ends. Each end has a status and a last line.
#[derive(Clone, Copy, PartialEq, Eq)]
pub enum End {
    /// The script was read to its end, or who serves took the `Bye`.
    Done,
    /// The line of this number, counted from 1, is no line of a script: it stops at this place to begin one.
    Bad(u64, u64),
    /// A byte follows the last line that is allowed.
    Limit,
    /// The source failed.
    ReadFault,
    /// The sink failed.
    WriteFault,
    /// An exchange failed.
    Peer,
    /// The reply was no awaited message.
    Garbled,
    /// There was no memory.
    Memory,
}

impl End {
    pub fn status(self) -> u8
        ensures { result ≡ status_of self }
    {
        match self {
            End::Done => 0,
            End::Bad(_, _) => 3,
            End::Limit => 4,
            End::ReadFault => 10,
            End::WriteFault => 11,
            End::Peer => 13,
            End::Garbled => 19,
            End::Memory => 20,
        }
    }
}

impl fmt::Display for End {
    ghost use Rattle.std.specs.Prelude.{Some};
    ghost use Rattle.client_loop.specs.Ends.{last_line};

    ghost output = { λ end. Some (last_line end) };

    fn fmt<W: fmt::Write>(&self, f: &mut fmt::Formatter<W>) -> fmt::Result {
        match self {
            End::Done | End::WriteFault | End::Memory => f.write_str(""),
            End::Bad(line, at) => write!(f, "! line {line} at {at}\n"),
            End::Limit => f.write_str("! limit events 20000\n"),
            End::ReadFault => f.write_str("! read\n"),
            End::Peer => f.write_str("! peer\n"),
            End::Garbled => f.write_str("! answer\n"),
        }
    }
}

/// Writes the last line of an end, and gives the status. Where the sink has failed, no more is tried.
pub fn finish<W: Sink>(alloc: Global, sink: &mut W, end: End) -> u8
    ensures ends { Finishes (Rose (W.wants sink.old) (W.wants sink.new)) (W.contents sink.old) (W.contents sink.new) end result }
    ensures broken { (end ≡ End.WriteFault) ⊎ (end ≡ End.Memory) → (result ≡ status_of end) × (sink.new ≡ sink.old) }
    ensures later { W.faults sink.old ≤ W.faults sink.new }
    ensures fault { result ≡ 11 → (end ≡ End.WriteFault) ⊎ Rose (W.faults sink.old) (W.faults sink.new) }
    ensures told { W.faults sink.old < W.faults sink.new → result ≡ 11 }
    ensures wants { W.wants sink.old ≤ W.wants sink.new }
    ensures done { result ≡ 0 → end ≡ End.Done }
    ensures read { result ≡ 10 → end ≡ End.ReadFault }
    ensures peer { result ≡ 13 → end ≡ End.Peer }
{
    if end == End::WriteFault {
        return end.status();
    }
    if end == End::Memory {
        return end.status();
    }
    let mut line = String::new(alloc);
    if write!(line, "{end}").is_err() {
        return End::Memory.status();
    }
    match write_all(sink, line.as_bytes()) {
        Ok(()) => end.status(),
        Err(Fault::Failed) => End::WriteFault.status(),
        Err(Fault::Memory) => End::Memory.status(),
    }
}
