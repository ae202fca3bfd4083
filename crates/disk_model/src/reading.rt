//! Reading more than one call of a disk may give.
ghost use Rattle.std.specs.Prelude.{◌≡◌, ◌-◌, ◌≤◌, length, take, drop, min, IfOk, IsErr};
ghost use Rattle.io_core.specs.Causes.{HasCause};
ghost use Rattle.disk_model.specs.History.{KeepsWorking};

use crate::Disk;
use io_core::Failed;

/// Reads from `at` on until `into` is full or the file ends, and says how many bytes.
pub fn read_full<D: Disk>(
    disk: &mut D,
    file: u32,
    at: u64,
    into: &mut [u8],
) -> Result<usize, Failed>
    ensures bound { IfOk result (λ n. n ≤ length into.old) }
    ensures count { IfOk result (λ n. D.tells →
        n ≡ min (length into.old) (length ((D.history disk.old).now file).reads - at)) }
    ensures bytes { IfOk result (λ n. D.tells →
        take n into.new ≡ take n (drop at ((D.history disk.old).now file).reads)) }
    ensures history { D.tells → D.history disk.new ≡ D.history disk.old }
    ensures cause { HasCause (D.faults disk.old) (D.faults disk.new) result }
    ensures keeps { KeepsWorking D.reliable D.unfailing disk.old disk.new (IsErr result) }
{
    let mut done = 0;
    'calls: while done < into.len() {
        let count = disk.read(file, at.saturating_add(done as u64), &mut into[done..])?;
        if count == 0 {
            return Ok(done);
        }
        done += count;
    }
    Ok(done)
}
