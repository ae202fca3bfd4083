//! Loading: the entries of file 0 are read, the file is cut behind the last of them and synced, also where nothing was cut.
ghost use Rattle.std.specs.Prelude.{◌≡◌, ℕ, List, false, IfOk, IsErrOf};
ghost use Rattle.tx_model.specs.Framing.{meta_len};
ghost use Rattle.disk_model.specs.File.{IsImage};
ghost use Rattle.disk_model.specs.Frames.{HasFirmFrames};
ghost use Rattle.disk_model.specs.History.{EachMoment, KeepsWorking};
ghost use Rattle.disk_model.specs.LoadFaults.{IfDamaged, IsNotDamaged, IsRefusal, HasDiskCause};
ghost use Rattle.disk_model.specs.declared.unloaded.LoadFault.TheVariants.{Disk as Broke};
ghost use Rattle.session_register.specs.Values.{StandsFor, EachLeftStandsFor, IsTidy, IsDamagedAt, KeepsFrames};
ghost use Rattle.session_register.specs.Disks.{disk_of, answer_of};

use crate::disk::DiskRegister;
use crate::entries::load_values;
use disk_model::{Disk, Unloaded};

impl<D: Disk> DiskRegister<D> {
    /// The register whose number the entries of file 0 come to: Value 1, 2, 3 and so on. The file is cut at the first
    /// frame that is not whole and right.
    pub fn load(disk: D) -> Result<DiskRegister<D>, Unloaded<D>>
        ensures number { IfOk result (λ r. D.tells →
            StandsFor ((D.history disk).now 0).reads r.number) }
        ensures works { IfOk result (λ r. (r.failed ≡ false) × (r.refused ≡ 0)) }

        // Then the file is tidy, and each image stands for that number.
        ensures tidy { IfOk result (λ r. D.tells → IsTidy r.number r.end ((D.history r.disk).now 0)) }
        ensures every_image { IfOk result (λ r. D.tells → (image : List ℕ) →
            IsImage ((D.history r.disk).now 0) image → StandsFor image r.number) }

        // A place is damaged exactly so.
        ensures damaged { IfDamaged (answer_of result) (λ file at. (file ≡ 0) × (D.tells →
            IsDamagedAt ((D.history disk).now 0).reads at)) }
        ensures not_damaged { D.tells → (number : ℕ) →
            StandsFor ((D.history disk).now 0).reads number → IsNotDamaged (answer_of result) }

        // After `Damaged` and `Memory` each image is one of before.
        ensures refused { IsRefusal (answer_of result) → D.tells →
            D.history (disk_of result) ≡ D.history disk }

        // Where the frames that are read are synced and were put, and no frame was put behind them, it is so at each
        // moment, also for a loading after this one. Then whatever a crash may leave stands for the number of before.
        ensures firm { D.tells → HasFirmFrames meta_len ((D.history disk).now 0) → EachMoment 0
            (KeepsFrames ((D.history disk).now 0).reads) (D.history disk) (D.history (disk_of result)) }
        ensures any_moment { D.tells → HasFirmFrames meta_len ((D.history disk).now 0) →
            (number : ℕ) → StandsFor ((D.history disk).now 0).reads number → EachMoment 0
            (EachLeftStandsFor D.plain number) (D.history disk) (D.history (disk_of result)) }
        ensures cause { HasDiskCause (D.faults disk) (D.faults (disk_of result)) (answer_of result) }
        ensures keeps { KeepsWorking D.reliable D.unfailing disk (disk_of result)
            (IsErrOf (answer_of result) Broke) }
    {
        let mut disk = disk;
        match load_values(&mut disk) {
            Ok(front) => Ok(DiskRegister {
                disk,
                front,
                failed: false,
                refused: 0,
            }),
            Err(fault) => Err(Unloaded { disk, fault }),
        }
    }
}
