ghost use Rattle.std.specs.Prelude.{◌≡◌, ℕ, List, length, IfOk, IsErr};
ghost use Rattle.io_core.specs.Causes.{HasCause, HasCauseOrMemory, HasWant};
ghost use Rattle.io_core.specs.Ports.{Answered, answered, FitsTurn, TakesTurn};

use crate::{Failed, Fault};

/// What one turn of a port brought.
#[derive(Clone, Copy, PartialEq, Eq)]
pub enum Turn {
    /// A request of so many bytes.
    Got(usize),
    /// A request with more bytes than there is room for.
    TooLong,
    /// No request comes any more.
    End,
}

/// Where requests come in, one on each connection, and where each is answered.
pub trait Port {
    /// Whether it tells the requests to come and what was answered. A real port doesn't.
    ghost tells: { Type 0 };

    /// The requests still to come.
    ghost coming: { Self → List (List ℕ) };

    /// The calls of `answer` up to now, the last one last. One that ran out of memory is not among them: `wants`
    /// counts it.
    ghost answers: { Self → List Answered };

    /// How often `listen` and `next` have failed, up to the greatest `u64`.
    ghost faults: { Self → ℕ };

    /// How often `answer` has failed, up to the greatest `u64`. Running out of memory is no fault.
    ghost lost: { Self → ℕ };

    /// How often `answer` ran out of memory, up to the greatest `u64`.
    ghost wants: { Self → ℕ };

    /// Begins to take requests at this port.
    fn listen(&mut self, port: u16) -> Result<(), Failed>
        ensures coming { tells → coming self.new ≡ coming self.old }
        ensures answers { tells → answers self.new ≡ answers self.old }
        ensures cause { HasCause (faults self.old) (faults self.new) result }
        ensures lost { lost self.new ≡ lost self.old }
        ensures wants { wants self.new ≡ wants self.old };

    /// Waits for the next request, and reads it whole into the front of `into`. A request that its peer broke off is
    /// given as far as it came.
    fn next(&mut self, into: &mut [u8]) -> Result<Turn, Failed>
        ensures bound { IfOk result (λ turn. FitsTurn turn (length into.new)) }
        ensures taken { IfOk result (λ turn. tells →
            TakesTurn (coming self.old) (coming self.new) into.new turn) }
        ensures failed { IsErr result → tells → coming self.new ≡ coming self.old }
        ensures answers { tells → answers self.new ≡ answers self.old }
        ensures cause { HasCause (faults self.old) (faults self.new) result }
        ensures lost { lost self.new ≡ lost self.old }
        ensures wants { wants self.new ≡ wants self.old };

    /// Answers the last request.
    fn answer(&mut self, bytes: &[u8]) -> Result<(), Fault>
        ensures coming { tells → coming self.new ≡ coming self.old }
        ensures answers { tells → answers self.new ≡ answered (answers self.old) bytes.now result }
        ensures faults { faults self.new ≡ faults self.old }
        ensures cause { HasCauseOrMemory (lost self.old) (lost self.new) result }
        ensures want { HasWant (wants self.old) (wants self.new) result };
}

impl<T: Port> Port for &mut T {
    ghost tells = { T.tells };

    ghost coming = { λ p. T.coming p.now };

    ghost answers = { λ p. T.answers p.now };

    ghost faults = { λ p. T.faults p.now };

    ghost lost = { λ p. T.lost p.now };

    ghost wants = { λ p. T.wants p.now };

    fn listen(&mut self, port: u16) -> Result<(), Failed> {
        (**self).listen(port)
    }

    fn next(&mut self, into: &mut [u8]) -> Result<Turn, Failed> {
        (**self).next(into)
    }

    fn answer(&mut self, bytes: &[u8]) -> Result<(), Fault> {
        (**self).answer(bytes)
    }
}
