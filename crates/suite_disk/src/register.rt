ghost use Rattle.std.specs.Prelude.{◌<◌, ◌^◌};

use disk_model::{Disk, LoadFault, MemDisk};
use record_frame::{META_FRAME, encode_meta};
use session_register::{Cas, DiskRegister, MemRegister, Register, RegisterFault};
use std::alloc::Global;
use std::test::Fail;
use tx_model::Meta;

// What a register in memory answers that holds this number.
fn tried(value: u64, from: u64) -> Result<Cas, RegisterFault>
    requires value { value < 2 ^ 48 }
    requires from { from < 2 ^ 48 }
{
    MemRegister::new(value).cas(from)
}

#[test]
fn a_number_above_the_greatest_is_not_won(rt: HostRuntime) -> Result<(), Fail> {
    assert!(rt; tried(281474976710655, 281474976710655) == Ok(Cas::Exhausted));
    assert!(rt; tried(281474976710655, 0) == Ok(Cas::Lost(281474976710655)));
    Ok(())
}

// Two servers read the number before either tries to win the next one, and the first tries once more.
fn race<R: Register>(register: &mut R) -> Result<([u64; 2], [Cas; 3]), RegisterFault> {
    let first = register.read()?;
    let second = register.read()?;
    let won = register.cas(first)?;
    let lost = register.cas(second)?;
    Ok(([first, second], [won, lost, register.cas(1)?]))
}

fn disk_race(alloc: Global) -> Result<([u64; 2], [Cas; 3]), Fail> {
    let mut register = DiskRegister::load(MemDisk::new(alloc)).map_err(|u| u.fault)?;
    Ok(race(&mut register)?)
}

#[test]
fn of_two_servers_one_wins(rt: HostRuntime) -> Result<(), Fail> {
    let want = ([0, 0], [Cas::Won(1), Cas::Lost(1), Cas::Won(2)]);
    assert!(rt; race(&mut MemRegister::new(0))? == want);
    assert!(rt; disk_race(rt.alloc())? == want);
    Ok(())
}

// What is answered from 0 by a register of which this call of the disk fails, and to a reading then; and the number
// that is read after another loading.
fn after_failing(
    alloc: Global,
    call: u64,
) -> Result<(Result<Cas, RegisterFault>, Result<u64, RegisterFault>, u64), Fail> {
    let mut fails = Vec::new(alloc);
    fails.push(call)?;
    let mut register = DiskRegister::load(MemDisk::failing(alloc, fails)).map_err(|u| u.fault)?;
    let answer = register.cas(0);
    let read = register.read();
    let mut again = DiskRegister::load(register.into_disk()).map_err(|u| u.fault)?;
    Ok((answer, read, again.read()?))
}

#[test]
fn after_a_failed_call_it_is_loaded_again(rt: HostRuntime) -> Result<(), Fail> {
    // Loading an empty file asks for its length, cuts and syncs.
    let failed = Err(RegisterFault::Failed);
    assert!(rt; after_failing(rt.alloc(), 4)? == (failed, Err(RegisterFault::Failed), 0));
    assert!(rt; after_failing(rt.alloc(), 5)? == (failed, Err(RegisterFault::Failed), 1));
    assert!(rt; after_failing(rt.alloc(), 99)? == (Ok(Cas::Won(1)), Ok(1), 1));
    Ok(())
}

// What is answered from 0 by a register whose disk takes so many bytes, how long its file is then, and the number that
// is read after a crash.
fn stopped(alloc: Global, bytes: u64) -> Result<(Result<Cas, RegisterFault>, usize, u64), Fail> {
    let mut disk = MemDisk::new(alloc);
    disk.fuse(bytes);
    let mut register = DiskRegister::load(disk).map_err(|u| u.fault)?;
    let answer = register.cas(0);
    let mut disk = register.into_disk();
    disk.crash();
    let len = disk.bytes(0).len();
    let mut again = DiskRegister::load(disk).map_err(|u| u.fault)?;
    Ok((answer, len, again.read()?))
}

// After how many bytes it isn't as it should be: the frame has 21, and the sync comes after it.
fn wrong_after(alloc: Global) -> Result<Option<u64>, Fail> {
    for bytes in 1..30u64 {
        let answer = if bytes > 21 {
            Ok(Cas::Won(1))
        } else {
            Err(RegisterFault::Failed)
        };
        let number = if bytes >= 21 { 1 } else { 0 };
        if stopped(alloc, bytes)? != (answer, bytes.min(21) as usize, number) {
            return Ok(Some(bytes));
        }
    }
    Ok(None)
}

#[test]
fn a_call_may_stop_after_each_byte(rt: HostRuntime) -> Result<(), Fail> {
    assert!(rt; wrong_after(rt.alloc())? == None);
    Ok(())
}

// The entries as file 0 of a disk, with one byte changed, if there is such a place: 5 is a value, 3 a low mark.
fn disk_with(alloc: Global, entries: &[(u8, u8)], changed: usize) -> Result<MemDisk, Fail> {
    let mut bytes = Vec::new(alloc);
    for (kind, number) in entries {
        let number = u64::from(*number);
        let entry = if *kind == 5 {
            Meta::Value(number)
        } else {
            Meta::Low(number)
        };
        let mut frame = [0; META_FRAME];
        let len = encode_meta(&entry, &mut frame);
        bytes.extend_from_slice(&frame[..len.min(META_FRAME)])?;
    }
    if let Some(byte) = bytes.get_mut(changed) {
        *byte ^= 1;
    }
    let mut disk = MemDisk::new(alloc);
    disk.write_at(0, 0, &bytes)?;
    Ok(disk)
}

// The number that is loaded of such a disk, or why none is, and how long the file is then.
fn loaded(
    alloc: Global,
    entries: &[(u8, u8)],
    changed: usize,
) -> Result<(Result<u64, LoadFault>, usize), Fail> {
    match DiskRegister::load(disk_with(alloc, entries, changed)?) {
        Ok(mut register) => {
            let number = register.read()?;
            Ok((Ok(number), register.into_disk().bytes(0).len()))
        }
        Err(unloaded) => Ok((Err(unloaded.fault), unloaded.disk.bytes(0).len())),
    }
}

#[test]
fn a_value_out_of_turn_is_damage(rt: HostRuntime) -> Result<(), Fail> {
    let none = 999;
    let cases = [
        ([].as_slice(), none, (Ok(0), 0)),
        (&[(5, 1), (5, 2), (5, 3)], none, (Ok(3), 63)),
        (&[(5, 2)], none, (Err(LoadFault::Damaged(0, 0)), 21)),
        (&[(5, 0)], none, (Err(LoadFault::Damaged(0, 0)), 21)),
        (
            &[(5, 1), (5, 1)],
            none,
            (Err(LoadFault::Damaged(0, 21)), 42),
        ),
        (
            &[(5, 1), (5, 3)],
            none,
            (Err(LoadFault::Damaged(0, 21)), 42),
        ),
        // Another entry.
        (
            &[(5, 1), (3, 2)],
            none,
            (Err(LoadFault::Damaged(0, 21)), 42),
        ),
        // A wrong check begins the tail, which is cut, whatever stands behind it.
        (&[(5, 1), (5, 2), (5, 3)], 41, (Ok(1), 21)),
        (&[(5, 1), (5, 2), (3, 3)], 30, (Ok(1), 21)),
    ];
    for (entries, changed, want) in cases {
        assert!(rt; loaded(rt.alloc(), entries, changed)? == want);
    }
    Ok(())
}
