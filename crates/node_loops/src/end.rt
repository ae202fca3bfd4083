ghost use Rattle.std.specs.Prelude.{◌≡◌, ◌⊎◌, ◌≤◌, ◌<◌, OnOk, OnErr, IfErr, Err};
ghost use Rattle.std.specs.Io.KnownBytes.{Appends};
ghost use Rattle.io_core.specs.Bytes.{AppendsPrefix};
ghost use Rattle.io_core.specs.Causes.{Rose};
ghost use Rattle.node_loops.specs.Ends.{status_of, last_line, first_line, Prints, IsBrokenEnd};

use io_core::{Fault, Sink, write_all};
use std::alloc::Global;
use std::fmt;

/// How a command that serves ends. Each end has a status and a last line.
#[derive(Clone, Copy, Debug, PartialEq, Eq)]
pub enum End {
    /// It took `Bye`.
    Bye,
    /// No request comes any more.
    Port,
    /// It took as many requests as it takes at most.
    Turns,
    /// The port failed before a request was awaited.
    Unheard,
    /// The port failed.
    Peer,
    /// The disk failed.
    Disk,
    /// This file is damaged at this place.
    Damaged(u32, u64),
    /// A server of this session has taken over.
    TakenOver(u64),
    /// A peer answered what is not awaited.
    Answer,
    /// The numbers of files are used up.
    Full,
    /// The sink failed.
    WriteFault,
    /// There was no memory.
    Memory,
}

impl End {
    ghost use Rattle.node_loops.specs.Ends.{status_of};

    /// The status of the command.
    pub fn status(self) -> u8
        ensures { result ≡ status_of self }
    {
        match self {
            End::Bye | End::Port | End::Turns => 0,
            End::Unheard | End::Peer => 13,
            End::Disk => 12,
            End::Damaged(_, _) => 15,
            End::TakenOver(_) => 16,
            End::Answer => 19,
            End::Full => 21,
            End::WriteFault => 11,
            End::Memory => 20,
        }
    }
}

impl fmt::Display for End {
    ghost use Rattle.std.specs.Prelude.{Some};
    ghost use Rattle.node_loops.specs.Ends.{last_line};

    ghost output = { λ end. Some (last_line end) };

    fn fmt<W: fmt::Write>(&self, f: &mut fmt::Formatter<W>) -> fmt::Result {
        match self {
            End::Bye => f.write_str("end bye\n"),
            End::Port => f.write_str("end port\n"),
            End::Turns => f.write_str("end turns\n"),
            End::Unheard | End::Peer => f.write_str("! peer\n"),
            End::Disk => f.write_str("! disk\n"),
            End::Damaged(file, at) => write!(f, "! damaged {file} {at}\n"),
            End::TakenOver(session) => write!(f, "! taken over by {session}\n"),
            End::Answer => f.write_str("! answer\n"),
            End::Full => f.write_str("! full\n"),
            End::WriteFault | End::Memory => f.write_str(""),
        }
    }
}

/// Prints that the command listens.
pub fn begin<W: Sink>(alloc: Global, sink: &mut W, number: u16) -> Result<(), End>
    ensures written { OnOk result
        (Appends (W.contents sink.old) (W.contents sink.new) (first_line number)) }
    ensures broken { IfErr result IsBrokenEnd × OnErr result
        (AppendsPrefix (W.contents sink.old) (W.contents sink.new) (first_line number)) }
    ensures later { W.faults sink.old ≤ W.faults sink.new }
    ensures fault { result ≡ Err End.WriteFault → Rose (W.faults sink.old) (W.faults sink.new) }
    ensures told { W.faults sink.old < W.faults sink.new → result ≡ Err End.WriteFault }
{
    let Ok(text) = format!(in alloc; "listening {number}\n") else {
        return Err(End::Memory);
    };
    match write_all(sink, text.as_bytes()) {
        Ok(()) => Ok(()),
        Err(Fault::Failed) => Err(End::WriteFault),
        Err(Fault::Memory) => Err(End::Memory),
    }
}

// Prints the last line of an end, and gives the status.
fn print_last<W: Sink>(alloc: Global, sink: &mut W, end: End) -> u8
    ensures prints { Prints (W.contents sink.old) (W.contents sink.new) (last_line end)
        (status_of end) result }
    ensures later { W.faults sink.old ≤ W.faults sink.new }
    ensures fault { result ≡ 11 → (status_of end ≡ 11) ⊎ Rose (W.faults sink.old) (W.faults sink.new) }
    ensures told { W.faults sink.old < W.faults sink.new → result ≡ 11 }
{
    let Ok(text) = format!(in alloc; "{end}") else {
        return 20;
    };
    match write_all(sink, text.as_bytes()) {
        Ok(()) => end.status(),
        Err(Fault::Failed) => 11,
        Err(Fault::Memory) => 20,
    }
}

/// Prints the last line of an end, and gives the status. Where the sink has failed, no more is tried.
pub fn finish<W: Sink>(alloc: Global, sink: &mut W, end: End) -> u8
    ensures prints { Prints (W.contents sink.old) (W.contents sink.new) (last_line end)
        (status_of end) result }
    ensures failed { end ≡ End.WriteFault → (result ≡ 11) × (sink.new ≡ sink.old) }
    ensures later { W.faults sink.old ≤ W.faults sink.new }
    ensures fault { result ≡ 11 → (status_of end ≡ 11) ⊎ Rose (W.faults sink.old) (W.faults sink.new) }
    ensures told { W.faults sink.old < W.faults sink.new → result ≡ 11 }
{
    match end {
        End::WriteFault => 11,
        _ => print_last(alloc, sink, end),
    }
}
