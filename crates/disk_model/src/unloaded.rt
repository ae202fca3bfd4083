ghost use Rattle.std.specs.Prelude.{◌≡◌};
ghost use Rattle.disk_model.specs.LoadFaults.{load_fault};
ghost use Rattle.disk_model.specs.declared.unloaded.LoadFault.TheVariants.{Disk, Memory};

use io_core::{Failed, Fault};
use std::alloc::{AllocError, AllocFailed};

/// Why something that is kept on a disk was not loaded.
#[derive(Clone, Copy, Debug, PartialEq, Eq)]
pub enum LoadFault {
    /// The disk failed.
    Disk,
    /// A file is not as it was left: its number, and the place of the first frame that is wrong.
    Damaged(u32, u64),
    /// There was no memory for the call.
    Memory,
}

impl From<Failed> for LoadFault {
    ghost from_gives = { λ _ e. e ≡ Disk };

    fn from(_e: Failed) -> LoadFault {
        LoadFault::Disk
    }
}

impl From<Fault> for LoadFault {
    ghost from_gives = { λ fault e. e ≡ load_fault fault };

    fn from(fault: Fault) -> LoadFault {
        match fault {
            Fault::Failed => LoadFault::Disk,
            Fault::Memory => LoadFault::Memory,
        }
    }
}

impl From<AllocError> for LoadFault {
    ghost from_gives = { λ _ e. e ≡ Memory };

    fn from(_e: AllocError) -> LoadFault {
        LoadFault::Memory
    }
}

impl<T: Drop> From<AllocFailed<T>> for LoadFault {
    ghost from_gives = { λ _ e. e ≡ Memory };

    fn from(_e: AllocFailed<T>) -> LoadFault {
        LoadFault::Memory
    }
}

/// What was handed in to be loaded from, given back with the reason why nothing was.
#[derive(Drop)]
pub struct Unloaded<D> {
    /// The disk.
    pub disk: D,
    /// The reason.
    pub fault: LoadFault,
}
