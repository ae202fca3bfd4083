ghost use Rattle.std.specs.Prelude.{◌≡◌, ℕ, List, length, IfOk};
ghost use Rattle.io_core.specs.Causes.{HasCauseOrMemory, HasWant};
ghost use Rattle.io_core.specs.Links.{Exchange, exchanged, FitsBack};

use crate::Fault;

/// What came back of an exchange.
#[derive(Clone, Copy, PartialEq, Eq)]
pub enum Back {
    /// A reply of so many bytes.
    Got(usize),
    /// A reply with more bytes than there is room for.
    TooLong,
}

/// A way to those that serve, one connection for each exchange.
pub trait Link {
    /// Whether it tells its exchanges. A real link doesn't.
    ghost tells: { Type 0 };

    /// The exchanges up to now, the last one last. One that ran out of memory is not among them: `wants` counts it.
    ghost transcript: { Self → List Exchange };

    /// How often an exchange has failed, up to the greatest `u64`. Running out of memory is no fault.
    ghost faults: { Self → ℕ };

    /// How often an exchange ran out of memory, up to the greatest `u64`.
    ghost wants: { Self → ℕ };

    /// Sends the bytes to whoever serves at this port, and reads the whole reply into the front of `into`.
    fn exchange(&mut self, port: u16, bytes: &[u8], into: &mut [u8]) -> Result<Back, Fault>
        ensures bound { IfOk result (λ back. FitsBack back (length into.new)) }
        ensures told { tells → transcript self.new
            ≡ exchanged (transcript self.old) port bytes.now into.new result }
        ensures cause { HasCauseOrMemory (faults self.old) (faults self.new) result }
        ensures want { HasWant (wants self.old) (wants self.new) result };
}

impl<T: Link> Link for &mut T {
    ghost tells = { T.tells };

    ghost transcript = { λ l. T.transcript l.now };

    ghost faults = { λ l. T.faults l.now };

    ghost wants = { λ l. T.wants l.now };

    fn exchange(&mut self, port: u16, bytes: &[u8], into: &mut [u8]) -> Result<Back, Fault> {
        (**self).exchange(port, bytes, into)
    }
}
