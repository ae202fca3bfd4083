ghost use Rattle.std.specs.Prelude.{◌≡◌, ℕ, Option, IfOk};
ghost use Rattle.tx_model.specs.Spelling.{IsCount};
ghost use Rattle.session_register.specs.Registers.{IsCas};
ghost use Rattle.session_register.specs.Telling.{TellsRead, TellsCas, HasRegisterCause};

use io_core::{Failed, Fault};

/// What a compare-and-set of the register answers.
#[derive(Clone, Copy, PartialEq, Eq)]
pub enum Cas {
    /// The session that is won.
    Won(u64),
    /// The register's number, which is another one.
    Lost(u64),
    /// The register holds the greatest session number.
    Exhausted,
}

/// Why a register gave no answer.
#[derive(Clone, Copy, Debug, PartialEq, Eq)]
pub enum RegisterFault {
    /// A device failed.
    Failed,
    /// The register at the other end answered what no register would.
    Garbled,
    /// There was no memory for the call.
    Memory,
}

impl From<Failed> for RegisterFault {
    ghost use Rattle.session_register.specs.declared.register.RegisterFault.TheVariants.{Failed};

    ghost from_gives = { λ _ e. e ≡ Failed };

    fn from(_e: Failed) -> RegisterFault {
        RegisterFault::Failed
    }
}

impl From<Fault> for RegisterFault {
    ghost use Rattle.session_register.specs.Telling.{register_fault};

    ghost from_gives = { λ fault e. e ≡ register_fault fault };

    fn from(fault: Fault) -> RegisterFault {
        match fault {
            Fault::Failed => RegisterFault::Failed,
            Fault::Memory => RegisterFault::Memory,
        }
    }
}

/// One number, 0 at first. Who makes it one more owns the session of that number.
pub trait Register {
    /// The number that it holds, where it tells it. One that others change between two calls doesn't.
    ghost told: { Self → Option ℕ };

    /// How often a call has failed, up to the greatest `u64`. Running out of memory is no fault.
    ghost faults: { Self → ℕ };

    /// The number that it holds.
    fn read(&mut self) -> Result<u64, RegisterFault>
        ensures tells { TellsRead (told self.old) (told self.new) result }
        ensures range { IfOk result IsCount }
        ensures cause { HasRegisterCause (faults self.old) (faults self.new) result };

    /// Makes the number one more, where it is this one and not the greatest.
    fn cas(&mut self, from: u64) -> Result<Cas, RegisterFault>
        requires { IsCount from }
        ensures tells { TellsCas from (told self.old) (told self.new) result }
        ensures range { IfOk result IsCas }
        ensures cause { HasRegisterCause (faults self.old) (faults self.new) result };
}

impl<T: Register> Register for &mut T {
    ghost told = { λ r. T.told r.now };

    ghost faults = { λ r. T.faults r.now };

    fn read(&mut self) -> Result<u64, RegisterFault> {
        (**self).read()
    }

    fn cas(&mut self, from: u64) -> Result<Cas, RegisterFault> {
        (**self).cas(from)
    }
}
