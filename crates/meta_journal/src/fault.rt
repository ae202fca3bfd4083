ghost use Rattle.std.specs.Prelude.{◌≡◌};
ghost use Rattle.meta_journal.specs.declared.fault.JournalFault.TheVariants.{Disk, Memory};

use disk_model::LoadFault;
use io_core::{Failed, Fault};
use std::alloc::{AllocError, AllocFailed};

/// Why a journal's call gave up.
#[derive(Clone, Copy, Debug, PartialEq, Eq)]
pub enum JournalFault {
    /// The disk failed.
    Disk,
    /// There was no memory for the call.
    Memory,
}

impl From<Failed> for JournalFault {
    ghost from_gives = { λ _ e. e ≡ Disk };

    fn from(_e: Failed) -> JournalFault {
        JournalFault::Disk
    }
}

impl From<Fault> for JournalFault {
    ghost use Rattle.meta_journal.specs.Faults.{becomes};

    ghost from_gives = { λ fault e. e ≡ becomes fault };

    fn from(fault: Fault) -> JournalFault {
        match fault {
            Fault::Failed => JournalFault::Disk,
            Fault::Memory => JournalFault::Memory,
        }
    }
}

impl From<AllocError> for JournalFault {
    ghost from_gives = { λ _ e. e ≡ Memory };

    fn from(_e: AllocError) -> JournalFault {
        JournalFault::Memory
    }
}

impl<T: Drop> From<AllocFailed<T>> for JournalFault {
    ghost from_gives = { λ _ e. e ≡ Memory };

    fn from(_e: AllocFailed<T>) -> JournalFault {
        JournalFault::Memory
    }
}

impl From<JournalFault> for LoadFault {
    ghost use Rattle.meta_journal.specs.Faults.{told_on};

    ghost from_gives = { λ fault e. e ≡ told_on fault };

    fn from(fault: JournalFault) -> LoadFault {
        match fault {
            JournalFault::Disk => LoadFault::Disk,
            JournalFault::Memory => LoadFault::Memory,
        }
    }
}
