ghost use Rattle.std.specs.Prelude.{◌≡◌, ◌≢◌, ℕ, List, ◌+◌, true, false, Ok, Err, IfOk, OnOk, IsErrOf};
ghost use Rattle.tx_model.specs.Spelling.{IsCount};
ghost use Rattle.io_core.specs.Causes.{counted, Rose};
ghost use Rattle.disk_model.specs.File.{IsImage};
ghost use Rattle.disk_model.specs.History.{EachMoment, KeepsWorking};
ghost use Rattle.session_register.specs.Registers.{cas_answer, number_after, IsCas};
ghost use Rattle.session_register.specs.declared.register.RegisterFault.TheVariants.{Failed as Failing, Garbled, Memory as NoMemory};
ghost use Rattle.session_register.specs.Telling.{TellsRead, TellsCas, HasRegisterCause};
ghost use Rattle.session_register.specs.Values.{StandsFor, EachLeftStandsForEither, IsTidy};
ghost use Rattle.session_register.specs.Disks.{told_of, faults_of};

use crate::entries::{Front, write_next};
use crate::register::{Cas, Register, RegisterFault};
use disk_model::Disk;
use io_core::Fault;
use std::marker::Model;
use tx_model::MAX_PLACE;

/// A register in file 0 of its own disk. After a compare-and-set that failed it tells no number and refuses each call,
/// until it is loaded again from the disk.
#[derive(Drop)]
pub struct DiskRegister<D: Disk> {
    pub(crate) disk: D,
    pub(crate) front: Front,
    pub(crate) failed: bool,
    pub(crate) refused: u64,
}

impl<D: Disk> Model for DiskRegister<D> {
    ghost use Rattle.session_register.specs.Disks.{Kept, IsKept};

    ghost Value = { Kept D };

    ghost view = { λ r. record {
      disk = r.disk;
      number = r.front.number;
      end = r.front.end;
      failed = r.failed;
      refused = r.refused;
    } };

    ghost invariant = { λ r. IsKept D.tells (D.history r.disk) r.front.number r.front.end r.failed };
}

impl<D: Disk> DiskRegister<D> {
    /// The disk.
    pub fn into_disk(self) -> D
        ensures disk { result ≡ self.disk }
        ensures every_image { self.failed ≡ false → D.tells → (image : List ℕ) →
            IsImage ((D.history result).now 0) image → StandsFor image self.number }
    {
        self.disk
    }

    // Refuses a call.
    fn refuse(&mut self) -> RegisterFault
        ensures fault { result ≡ Failing }
        ensures after { self.new ≡ record self.old { refused = counted self.old.refused } }
    {
        self.refused = self.refused.saturating_add(1);
        RegisterFault::Failed
    }

    // Makes the number one more.
    fn raise(&mut self) -> Result<(), RegisterFault>
        requires works { self.old.failed ≡ false }
        requires range { IsCount (self.old.number + 1) }
        ensures number { OnOk result (self.new.number ≡ self.old.number + 1) }
        ensures tidy { OnOk result (D.tells →
            IsTidy self.new.number self.new.end ((D.history self.new.disk).now 0)) }
        ensures works { result ≢ Err Failing → self.new.failed ≡ false }
        ensures failed { result ≡ Err Failing → self.new.failed ≡ true }
        ensures memory { result ≡ Err NoMemory → self.new.number ≡ self.old.number }
        ensures unchanged { result ≡ Err NoMemory → D.tells →
            D.history self.new.disk ≡ D.history self.old.disk }
        ensures not_garbled { IsErrOf result Garbled → ⊥ }
        ensures refused { self.new.refused ≡ self.old.refused }
        ensures any_moment { D.tells → EachMoment 0
            (EachLeftStandsForEither D.plain self.old.number (self.old.number + 1))
            (D.history self.old.disk) (D.history self.new.disk) }
        ensures cause { HasRegisterCause (D.faults self.old.disk) (D.faults self.new.disk) result }
        ensures want { result ≡ Err NoMemory → Rose (D.wants self.old.disk) (D.wants self.new.disk) }
        ensures keeps { KeepsWorking D.reliable D.unfailing self.old.disk self.new.disk
            (result ≡ Err Failing) }
    {
        match write_next(&mut self.disk, self.front) {
            Ok(front) => {
                self.front = front;
                Ok(())
            }
            Err(Fault::Failed) => {
                self.failed = true;
                Err(RegisterFault::Failed)
            }
            Err(Fault::Memory) => Err(RegisterFault::Memory),
        }
    }
}

impl<D: Disk> Register for DiskRegister<D> {
    ghost told = { told_of };

    ghost faults = { faults_of D.faults };

    fn read(&mut self) -> Result<u64, RegisterFault>
        ensures tells { TellsRead (told_of self.old) (told_of self.new) result }
        ensures range { IfOk result IsCount }
        ensures cause { HasRegisterCause (faults_of D.faults self.old) (faults_of D.faults self.new) result }

        // It fails exactly after a compare-and-set that failed.
        ensures exact { self.old.failed ≡ false → (result ≡ Ok self.old.number) × (self.new ≡ self.old) }
        ensures refused { self.old.failed ≡ true → (result ≡ Err Failing)
            × (self.new ≡ record self.old { refused = counted self.old.refused }) }
    {
        if self.failed {
            return Err(self.refuse());
        }
        Ok(self.front.number)
    }

    fn cas(&mut self, from: u64) -> Result<Cas, RegisterFault>
        requires { IsCount from }
        ensures tells { TellsCas from (told_of self.old) (told_of self.new) result }
        ensures range { IfOk result IsCas }
        ensures cause { HasRegisterCause (faults_of D.faults self.old) (faults_of D.faults self.new) result }

        // After one that failed each fails. Else it fails only where the disk does.
        ensures refused { self.old.failed ≡ true → (result ≡ Err Failing)
            × (self.new ≡ record self.old { refused = counted self.old.refused }) }
        ensures failed { result ≡ Err Failing → self.new.failed ≡ true }
        ensures disk_cause { self.old.failed ≡ false →
            HasRegisterCause (D.faults self.old.disk) (D.faults self.new.disk) result }

        // Whatever a crash may leave at any moment stands for the number of before or the one after, and then for that.
        ensures any_moment { self.old.failed ≡ false → D.tells → EachMoment 0
            (EachLeftStandsForEither D.plain self.old.number
            (number_after self.old.number (cas_answer self.old.number from)))
            (D.history self.old.disk) (D.history self.new.disk) }
        ensures every_image { OnOk result (D.tells → (image : List ℕ) →
            IsImage ((D.history self.new.disk).now 0) image → StandsFor image self.new.number) }

        // The disk is called only where the session may be won. Memory runs out only there, which the disk counts, and that
        // leaves it as it was.
        ensures unchanged { self.old.failed ≡ false →
            cas_answer self.old.number from ≢ Cas.Won (self.old.number + 1) → self.new ≡ self.old }
        ensures want { result ≡ Err NoMemory → Rose (D.wants self.old.disk) (D.wants self.new.disk) }
        ensures memory { result ≡ Err NoMemory → D.tells →
            D.history self.new.disk ≡ D.history self.old.disk }
        ensures keeps { KeepsWorking D.reliable D.unfailing self.old.disk self.new.disk
            ((self.old.failed ≡ false) × (result ≡ Err Failing)) }
    {
        if self.failed {
            return Err(self.refuse());
        }
        let number = self.front.number;
        if from != number {
            return Ok(Cas::Lost(number));
        }
        if from == MAX_PLACE {
            return Ok(Cas::Exhausted);
        }
        self.raise()?;
        Ok(Cas::Won(number + 1))
    }
}
