ghost use Rattle.std.specs.Prelude.{◌≡◌};

use schedule_replay::ReplayFault;
use std::fmt;

/// How a command ends. Each end has a status and a last line.
#[derive(Clone, Copy, PartialEq, Eq)]
pub enum End {
    /// The input was read to its end.
    Done,
    /// The words are in no form.
    Usage,
    /// A replay stopped before the end of its input.
    Stopped(ReplayFault),
}

impl End {
    ghost use Rattle.waltz_cli.specs.Ends.{status_of};

    pub fn status(self) -> u8
        ensures { result ≡ status_of self }
    {
        match self {
            End::Done => 0,
            End::Usage => 2,
            End::Stopped(ReplayFault::Line(_, _) | ReplayFault::Range(_, _)) => 3,
            End::Stopped(ReplayFault::TooManyEvents) => 4,
            End::Stopped(ReplayFault::Read) => 10,
            End::Stopped(ReplayFault::Write) => 11,
            End::Stopped(ReplayFault::Memory) => 20,
        }
    }
}

impl fmt::Display for End {
    ghost use Rattle.std.specs.Prelude.{Some};
    ghost use Rattle.waltz_cli.specs.Ends.{last_line};

    ghost output = { λ end. Some (last_line end) };

    fn fmt<W: fmt::Write>(&self, f: &mut fmt::Formatter<W>) -> fmt::Result {
        match self {
            End::Done => f.write_str(""),
            End::Usage => f.write_str("! usage\n"),
            End::Stopped(ReplayFault::Write | ReplayFault::Memory) => f.write_str(""),
            End::Stopped(fault) => write!(f, "! {fault}\n"),
        }
    }
}
