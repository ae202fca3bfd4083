ghost use Rattle.std.specs.Prelude.{◌≡◌, ◌≢◌, ℕ, List, None, Some, true, false, IfOk, OnOk, IsErrOf};
ghost use Rattle.tx_model.specs.Spelling.{IsCount};
ghost use Rattle.disk_model.specs.File.{IsImage};
ghost use Rattle.disk_model.specs.History.{EachMoment};
ghost use Rattle.session_register.specs.Registers.{cas_answer, number_after, IsCas};
ghost use Rattle.session_register.specs.declared.register.RegisterFault.TheVariants.{Failed as Failing, Memory as NoMemory};
ghost use Rattle.session_register.specs.Telling.{TellsRead, TellsCas, HasRegisterCause};
ghost use Rattle.serve_commands.specs.Working.{told_while};
ghost use Rattle.session_register.specs.Values.{StandsFor, EachLeftStandsForEither};

use disk_model::Disk;
use node_loops::KeptRegister;
use session_register::{Cas, DiskRegister, Register, RegisterFault};

/// A register over a disk, up to the first call at which the disk failed. The calls after that one touch nothing.
#[derive(Drop)]
pub struct Working<D: Disk> {
    pub register: DiskRegister<D>,
    pub stopped: bool,
    ghost known: { stopped ≡ false → register.failed ≡ false },
}

impl<D: Disk> Register for Working<D> {
    ghost told = { λ r. told_while r.stopped r.register.number };

    ghost faults = { λ r. D.faults r.register.disk };

    fn read(&mut self) -> Result<u64, RegisterFault>
        ensures tells { TellsRead (told_while self.old.stopped self.old.register.number)
            (told_while self.new.stopped self.new.register.number) result }
        ensures range { IfOk result IsCount }
        ensures cause { HasRegisterCause (D.faults self.old.register.disk)
            (D.faults self.new.register.disk) result }

        // It stays as it is, and fails in no device.
        ensures same { self.new.register ≡ self.old.register }
        ensures never { IsErrOf result Failing → ⊥ }
    {
        if self.stopped {
            return Err(RegisterFault::Garbled);
        }
        self.register.read()
    }

    fn cas(&mut self, from: u64) -> Result<Cas, RegisterFault>
        requires { IsCount from }
        ensures tells { TellsCas from (told_while self.old.stopped self.old.register.number)
            (told_while self.new.stopped self.new.register.number) result }
        ensures range { IfOk result IsCas }
        ensures cause { HasRegisterCause (D.faults self.old.register.disk)
            (D.faults self.new.register.disk) result }

        // As for the register over the disk.
        ensures any_moment { self.old.stopped ≡ false → D.tells → EachMoment 0
            (EachLeftStandsForEither D.plain self.old.register.number
            (number_after self.old.register.number (cas_answer self.old.register.number from)))
            (D.history self.old.register.disk) (D.history self.new.register.disk) }
        ensures every_image { OnOk result (D.tells → (image : List ℕ) →
            IsImage ((D.history self.new.register.disk).now 0) image →
            StandsFor image self.new.register.number) }
        ensures memory { IsErrOf result NoMemory → D.tells →
            D.history self.new.register.disk ≡ D.history self.old.register.disk }
    {
        if self.stopped {
            return Err(RegisterFault::Garbled);
        }
        match self.register.cas(from) {
            Ok(answer) => Ok(answer),
            Err(RegisterFault::Failed) => {
                self.stopped = true;
                Err(RegisterFault::Failed)
            }
            Err(fault) => Err(fault),
        }
    }
}

impl<D: Disk> KeptRegister for Working<D> {
    ghost stands = { λ r n. D.tells → (image : List ℕ) →
        IsImage ((D.history r.register.disk).now 0) image → StandsFor image n };

    ghost leaves = { λ r a b. D.tells →
        EachLeftStandsForEither D.plain a b ((D.history r.register.disk).now 0) };

    fn read_kept(&mut self) -> Result<u64, RegisterFault> {
        self.read()
    }

    fn cas_kept(&mut self, from: u64) -> Result<Cas, RegisterFault> {
        self.cas(from)
    }
}
