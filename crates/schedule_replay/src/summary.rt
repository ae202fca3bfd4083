use std::fmt;

/// What is counted of the world that a schedule leads to.
#[derive(Clone, Copy)]
pub struct Summary {
    /// How many events there were.
    pub events: u32,
    /// The envelopes that were made.
    pub envelopes: u32,
    /// The register's number.
    pub sessions: u64,
    /// The length of the one log.
    pub committed: u64,
    /// The envelopes that are refusals.
    pub refused: u32,
}

impl fmt::Display for Summary {
    ghost use Rattle.std.specs.Prelude.{Some};
    ghost use Rattle.schedule_replay.specs.Drilling.{text_of_summary};

    ghost output = { λ summary. Some (text_of_summary summary) };

    fn fmt<W: fmt::Write>(&self, f: &mut fmt::Formatter<W>) -> fmt::Result {
        write!(
            f,
            "events {} envelopes {} sessions {} committed {} refused {}",
            self.events, self.envelopes, self.sessions, self.committed, self.refused
        )
    }
}
