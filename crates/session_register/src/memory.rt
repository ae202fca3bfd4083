ghost use Rattle.std.specs.Prelude.{◌≡◌, ℕ, Some, Ok, IfOk};
ghost use Rattle.tx_model.specs.Spelling.{IsCount};
ghost use Rattle.session_register.specs.Registers.{cas_answer, number_after, IsCas};
ghost use Rattle.session_register.specs.Telling.{TellsRead, TellsCas, HasRegisterCause};

use crate::register::{Cas, Register, RegisterFault};
use std::marker::Model;
use tx_model::MAX_PLACE;

/// A register in memory. It never fails and takes no memory.
#[derive(Drop)]
pub struct MemRegister {
    number: u64,
}

impl Model for MemRegister {
    ghost Value = { ℕ };

    ghost view = { λ r. r.number };

    ghost invariant = { λ r. IsCount r.number };
}

impl MemRegister {
    /// The register that holds this number.
    pub fn new(value: u64) -> MemRegister
        requires { IsCount value }
        ensures { result ≡ value }
    {
        MemRegister { number: value }
    }
}

impl Register for MemRegister {
    ghost told = { λ number. Some number };

    ghost faults = { λ _. 0 };

    fn read(&mut self) -> Result<u64, RegisterFault>
        ensures tells { TellsRead (Some self.old) (Some self.new) result }
        ensures range { IfOk result IsCount }
        ensures cause { HasRegisterCause 0 0 result }

        ensures exact { result ≡ Ok self.old }
    {
        Ok(self.number)
    }

    fn cas(&mut self, from: u64) -> Result<Cas, RegisterFault>
        requires { IsCount from }
        ensures tells { TellsCas from (Some self.old) (Some self.new) result }
        ensures range { IfOk result IsCas }
        ensures cause { HasRegisterCause 0 0 result }

        ensures exact { result ≡ Ok (cas_answer self.old from) }
        ensures after { self.new ≡ number_after self.old (cas_answer self.old from) }
    {
        if from != self.number {
            return Ok(Cas::Lost(self.number));
        }
        if from == MAX_PLACE {
            return Ok(Cas::Exhausted);
        }
        self.number += 1;
        Ok(Cas::Won(self.number))
    }
}
