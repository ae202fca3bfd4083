use schedule_text::Name;
use std::fmt;

/// Why a replay didn't come to the end of its input.
#[derive(Clone, Copy, Debug, PartialEq, Eq)]
pub enum ReplayFault {
    /// The source failed.
    Read,
    /// The sink failed.
    Write,
    /// The line of this number, counted from 1, is in no form, and stops at this place to begin one.
    Line(u64, u64),
    /// The line of this number is in form, and the first of its numbers that is out of range has this name.
    Range(u64, Name),
    /// A byte follows the last event that is allowed.
    TooManyEvents,
    /// There was no memory.
    Memory,
}

impl fmt::Display for ReplayFault {
    ghost use Rattle.std.specs.Prelude.{Some};
    ghost use Rattle.schedule_replay.specs.Faults.{fault_text};

    ghost output = { λ fault. Some (fault_text fault) };

    fn fmt<W: fmt::Write>(&self, f: &mut fmt::Formatter<W>) -> fmt::Result {
        match self {
            ReplayFault::Read => f.write_str("read"),
            ReplayFault::Write => f.write_str("write"),
            ReplayFault::Line(line, at) => write!(f, "line {line} at {at}"),
            ReplayFault::Range(line, name) => write!(f, "line {line} range {name}"),
            ReplayFault::TooManyEvents => f.write_str("limit events 20000"),
            ReplayFault::Memory => f.write_str("memory"),
        }
    }
}
