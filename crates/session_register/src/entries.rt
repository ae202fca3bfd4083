//! The entries of a register's file: Value 1, 2, 3 and so on.
ghost use Rattle.std.specs.Prelude.{◌≡◌, ℕ, ◌+◌, ◌<◌, length, drop, IfOk, IfSome, IfNone, OnOk, IsErr, IsErrOf};
ghost use Rattle.tx_model.specs.Spelling.{IsCount, IsMeta};
ghost use Rattle.tx_model.specs.Framing.{meta_len, framed_meta};
ghost use Rattle.io_core.specs.Causes.{HasCause, HasCauseOrMemory, Rose};
ghost use Rattle.io_core.specs.declared.fault.Fault.TheVariants.{Failed as Failing, Memory as NoMemory};
ghost use Rattle.tx_model.specs.Frames.{joined, frames_in};
ghost use Rattle.disk_model.specs.Frames.{HasFirmFrames};
ghost use Rattle.disk_model.specs.History.{EachMoment, KeepsWorking};
ghost use Rattle.disk_model.specs.LoadFaults.{IfDamaged, IsNotDamaged, IsRefusal, HasDiskCause};
ghost use Rattle.disk_model.specs.declared.unloaded.LoadFault.TheVariants.{Disk as Broke};
ghost use Rattle.session_register.specs.Values.{StandsFor, EachLeftStandsForEither, IsTidy, IsAllOf, IsDamagedAt, KeepsFrames};

use disk_model::{Disk, LoadFault, read_full};
use io_core::{Failed, Fault};
use record_frame::{META_FRAME, decode_meta, encode_meta};
use tx_model::Meta;

/// The entries up to a value, and the place where the last one ends.
#[derive(Clone, Copy)]
pub(crate) struct Front {
    pub(crate) number: u64,
    pub(crate) end: u64,
}

// The entry at a place of file 0 and the length of its frame, where a whole and right one stands there.
fn entry_at<D: Disk>(disk: &mut D, at: u64) -> Result<Option<(Meta, usize)>, Failed>
    ensures valid { IfOk result (λ found. IfSome found (λ x. IsMeta x.0 × (0 < x.1))) }
    ensures some { IfOk result (λ found. IfSome found (λ x. D.tells →
        (framed_meta (drop at ((D.history disk.old).now 0).reads) ≡ x.0)
        × (meta_len (drop at ((D.history disk.old).now 0).reads) ≡ x.1))) }
    ensures none { IfOk result (λ found. IfNone found (D.tells →
        meta_len (drop at ((D.history disk.old).now 0).reads) ≡ 0)) }
    ensures history { D.tells → D.history disk.new ≡ D.history disk.old }
    ensures cause { HasCause (D.faults disk.old) (D.faults disk.new) result }
    ensures keeps { KeepsWorking D.reliable D.unfailing disk.old disk.new (IsErr result) }
{
    let mut piece = [0; META_FRAME];
    let count = read_full(disk, 0, at, &mut piece)?;
    Ok(decode_meta(&piece[..count]).ok())
}

// Takes in the entries from the front of file 0, which is this long.
fn read_to<D: Disk>(disk: &mut D, size: u64) -> Result<Front, LoadFault>
    ensures range { IfOk result (λ front. IsCount front.number) }
    ensures front { IfOk result (λ front. D.tells → size ≡ length ((D.history disk.old).now 0).reads →
        IsAllOf ((D.history disk.old).now 0).reads front.number front.end) }
    ensures damaged { IfDamaged result (λ file at. (file ≡ 0) × (D.tells →
        size ≡ length ((D.history disk.old).now 0).reads →
        IsDamagedAt ((D.history disk.old).now 0).reads at)) }
    ensures history { D.tells → D.history disk.new ≡ D.history disk.old }
    ensures cause { HasDiskCause (D.faults disk.old) (D.faults disk.new) result }
    ensures keeps { KeepsWorking D.reliable D.unfailing disk.old disk.new (IsErrOf result Broke) }
{
    let mut front = Front { number: 0, end: 0 };
    'entries: while front.end < size {
        let Some((entry, len)) = entry_at(disk, front.end)? else {
            return Ok(front);
        };
        if entry != Meta::Value(front.number + 1) {
            return Err(LoadFault::Damaged(0, front.end));
        }
        front.number += 1;
        front.end = front.end.saturating_add(len as u64);
    }
    Ok(front)
}

// The entries of file 0.
fn read<D: Disk>(disk: &mut D) -> Result<Front, LoadFault>
    ensures range { IfOk result (λ front. IsCount front.number) }
    ensures front { IfOk result (λ front. D.tells →
        IsAllOf ((D.history disk.old).now 0).reads front.number front.end) }
    ensures damaged { IfDamaged result (λ file at. (file ≡ 0) × (D.tells →
        IsDamagedAt ((D.history disk.old).now 0).reads at)) }
    ensures history { D.tells → D.history disk.new ≡ D.history disk.old }
    ensures cause { HasDiskCause (D.faults disk.old) (D.faults disk.new) result }
    ensures keeps { KeepsWorking D.reliable D.unfailing disk.old disk.new (IsErrOf result Broke) }
{
    let size = disk.len(0)?;
    match read_to(disk, size) {
        Ok(front) => Ok(front),
        Err(fault) => Err(fault),
    }
}

// Cuts file 0 where its last entry ends, and syncs it, also where nothing was cut.
fn trim<D: Disk>(disk: &mut D, end: u64) -> Result<(), LoadFault>
    requires { D.tells → end ≡ length (joined (frames_in meta_len ((D.history disk.old).now 0).reads)) }
    ensures tidy { OnOk result (D.tells → (number : ℕ) →
        StandsFor ((D.history disk.old).now 0).reads number →
        IsTidy number end ((D.history disk.new).now 0)) }
    ensures firm { D.tells → HasFirmFrames meta_len ((D.history disk.old).now 0) → EachMoment 0
        (KeepsFrames ((D.history disk.old).now 0).reads) (D.history disk.old) (D.history disk.new) }
    ensures refused { IsRefusal result → D.tells → D.history disk.new ≡ D.history disk.old }
    ensures not_damaged { IsNotDamaged result }
    ensures cause { HasDiskCause (D.faults disk.old) (D.faults disk.new) result }
    ensures keeps { KeepsWorking D.reliable D.unfailing disk.old disk.new (IsErrOf result Broke) }
{
    disk.cut(0, end)?;
    disk.sync(0)?;
    Ok(())
}

/// Reads the entries of file 0, cuts the file behind them and syncs it.
pub(crate) fn load_values<D: Disk>(disk: &mut D) -> Result<Front, LoadFault>
    ensures range { IfOk result (λ front. IsCount front.number) }
    ensures number { IfOk result (λ front. D.tells →
        StandsFor ((D.history disk.old).now 0).reads front.number) }
    ensures tidy { IfOk result (λ front. D.tells →
        IsTidy front.number front.end ((D.history disk.new).now 0)) }
    ensures damaged { IfDamaged result (λ file at. (file ≡ 0) × (D.tells →
        IsDamagedAt ((D.history disk.old).now 0).reads at)) }
    ensures refused { IsRefusal result → D.tells → D.history disk.new ≡ D.history disk.old }
    ensures firm { D.tells → HasFirmFrames meta_len ((D.history disk.old).now 0) → EachMoment 0
        (KeepsFrames ((D.history disk.old).now 0).reads) (D.history disk.old) (D.history disk.new) }
    ensures cause { HasDiskCause (D.faults disk.old) (D.faults disk.new) result }
    ensures keeps { KeepsWorking D.reliable D.unfailing disk.old disk.new (IsErrOf result Broke) }
{
    let front = read(disk)?;
    trim(disk, front.end)?;
    Ok(front)
}

/// Writes the next value behind the last entry, and syncs the file. It takes no memory of its own.
pub(crate) fn write_next<D: Disk>(disk: &mut D, front: Front) -> Result<Front, Fault>
    requires range { IsCount (front.number + 1) }
    requires tidy { D.tells → IsTidy front.number front.end ((D.history disk.old).now 0) }
    ensures number { IfOk result (λ next. next.number ≡ front.number + 1) }
    ensures tidy { IfOk result (λ next. D.tells →
        IsTidy next.number next.end ((D.history disk.new).now 0)) }
    ensures any_moment { D.tells → EachMoment 0
        (EachLeftStandsForEither D.plain front.number (front.number + 1))
        (D.history disk.old) (D.history disk.new) }
    ensures memory { IsErrOf result NoMemory → D.tells → D.history disk.new ≡ D.history disk.old }
    ensures cause { HasCauseOrMemory (D.faults disk.old) (D.faults disk.new) result }
    ensures want { IsErrOf result NoMemory → Rose (D.wants disk.old) (D.wants disk.new) }
    ensures keeps { KeepsWorking D.reliable D.unfailing disk.old disk.new (IsErrOf result Failing) }
{
    let mut frame = [0; META_FRAME];
    let number = front.number + 1;
    let len = encode_meta(&Meta::Value(number), &mut frame);
    let (bytes, _) = frame.split_at(len);
    disk.write_at(0, front.end, bytes)?;
    disk.sync(0)?;
    Ok(Front {
        number,
        end: front.end + len as u64,
    })
}
