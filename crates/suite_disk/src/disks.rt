use crate::blind::Blind;
use disk_model::{Disk, LoadFault, MemDisk, Unloaded, read_full};
use io_core::{Failed, Fault};
use std::alloc::Global;
use std::test::Fail;

// Adds bytes at the end of file 2, and says how long it is then.
fn add<D: Disk>(disk: &mut D, bytes: &[u8]) -> Result<u64, Fault> {
    let end = disk.len(2)?;
    disk.write_at(2, end, bytes)?;
    Ok(disk.len(2)?)
}

// Writes into file 2 where that is within it.
fn put(disk: &mut MemDisk, at: u64, bytes: &[u8]) -> Result<(), Fault> {
    if (disk.bytes(2).len() as u64) < at {
        return Err(Fault::Failed);
    }
    disk.write_at(2, at, bytes)
}

// A disk whose file 2 holds this.
fn disk_of(alloc: Global, bytes: &[u8]) -> Result<MemDisk, Fail> {
    let mut disk = MemDisk::new(alloc);
    put(&mut disk, 0, bytes)?;
    Ok(disk)
}

// Whether file 2 is this after a write at a place of these bytes.
fn is_written(alloc: Global, old: &[u8], at: u64, bytes: &[u8], want: &[u8]) -> Result<bool, Fail> {
    let mut disk = disk_of(alloc, old)?;
    put(&mut disk, at, bytes)?;
    Ok(disk.bytes(2) == want)
}

#[test]
fn a_write_is_laid_over_what_stands_there(rt: HostRuntime) -> Result<(), Fail> {
    let cases = [
        (b"".as_slice(), 0, b"abcd".as_slice(), b"abcd".as_slice()),
        (b"abcd", 1, b"xy", b"axyd"),
        (b"axyd", 3, b"123", b"axy123"),
        (b"axy123", 6, b"", b"axy123"),
    ];
    for (old, at, bytes, want) in cases {
        assert!(rt; is_written(rt.alloc(), old, at, bytes, want)?);
    }
    Ok(())
}

// What one read of four bytes gives of `axy123`, and what reading on gives.
fn read_from(alloc: Global, at: u64) -> Result<(usize, [u8; 4], usize), Fail> {
    let mut disk = disk_of(alloc, b"axy123")?;
    let mut into = [0; 4];
    let count = disk.read(2, at, &mut into)?;
    let full = read_full(&mut disk, 2, at, &mut [0; 4])?;
    Ok((count, into, full))
}

#[test]
fn a_read_ends_with_the_file(rt: HostRuntime) -> Result<(), Fail> {
    let cases = [
        (1, (4, *b"xy12", 4)),
        (5, (1, *b"3\0\0\0", 1)),
        (6, (0, [0; 4], 0)),
        (7, (0, [0; 4], 0)),
    ];
    for (at, want) in cases {
        assert!(rt; read_from(rt.alloc(), at)? == want, "at {at}");
    }
    Ok(())
}

// The lengths of files 2 and 3 after a cut and a sync.
fn lengths_after_cut(alloc: Global, len: u64) -> Result<(u64, u64), Fail> {
    let mut disk = disk_of(alloc, b"axy123")?;
    disk.cut(2, len)?;
    disk.sync(2)?;
    Ok((disk.len(2)?, disk.len(3)?))
}

#[test]
fn a_cut_never_lengthens(rt: HostRuntime) -> Result<(), Fail> {
    for (len, want) in [(9, (6, 0)), (2, (2, 0)), (0, (0, 0))] {
        assert!(rt; lengths_after_cut(rt.alloc(), len)? == want);
    }
    Ok(())
}

// What the calls of a disk answer one after another, of which those with these numbers fail: puts of two bytes at the
// end, then a cut of all, then syncs. The file's bytes come last.
fn answers_failing(alloc: Global, fails: Vec<u64>) -> ([bool; 5], usize) {
    let mut disk = MemDisk::failing(alloc, fails);
    let first = add(&mut disk, b"ab").is_ok();
    let second = add(&mut disk, b"cd").is_ok();
    let cut = disk.cut(2, 1).is_ok();
    let sync = disk.sync(2).is_ok();
    let again = disk.sync(2).is_ok();
    ([first, second, cut, sync, again], disk.bytes(2).len())
}

#[test]
fn calls_of_chosen_numbers_fail_and_change_no_byte(rt: HostRuntime) -> Result<(), Fail> {
    let alloc = rt.alloc();
    // An addition has three calls, of which the second writes, or as many as up to the one that fails.
    let cases = [
        (
            vec![in alloc; 5, 6, 7]?,
            ([true, false, false, false, true], 2),
        ),
        (vec![in alloc; 2, 4]?, ([false, false, true, true, true], 0)),
        (vec![in alloc; 99]?, ([true, true, true, true, true], 1)),
    ];
    for (fails, want) in cases {
        assert!(rt; answers_failing(alloc, fails) == want);
    }
    Ok(())
}

// What is kept of two writes by a disk whose fuse lets so many bytes through, whether each answered Ok, and whether a
// fuse that is set anew lets another write through: before the crash, and after it.
fn fused(alloc: Global, bytes: u64) -> ([bool; 4], usize) {
    let mut disk = MemDisk::new(alloc);
    disk.fuse(bytes);
    let first = put(&mut disk, 0, b"abc").is_ok();
    let second = put(&mut disk, 3, b"defg").is_ok();
    let kept = disk.bytes(2).len();
    disk.fuse(9);
    let before = add(&mut disk, b"").is_ok();
    disk.crash();
    let after = add(&mut disk, b"").is_ok();
    ([first, second, before, after], kept)
}

#[test]
fn a_fuse_keeps_the_front_of_a_write_and_then_all_fails(rt: HostRuntime) {
    let cases = [
        (0, ([false, false, false, true], 0)),
        (2, ([false, false, false, true], 2)),
        (3, ([true, false, false, true], 3)),
        (5, ([true, false, false, true], 5)),
        (7, ([true, true, true, true], 7)),
        (9, ([true, true, true, true], 7)),
    ];
    for (bytes, want) in cases {
        assert!(rt; fused(rt.alloc(), bytes) == want, "at {bytes}");
    }
}

// The lengths after two additions through references to a disk.
fn lengths_through<D: Disk>(disk: &mut D) -> Result<(u64, u64), Fault> {
    Ok((add(disk, b"ab")?, add(&mut &mut *disk, b"cd")?))
}

#[test]
fn a_disk_works_through_its_trait(rt: HostRuntime) {
    let mut into = [9; 4];
    let mut blind = Blind::new();
    assert!(rt; lengths_through(&mut MemDisk::new(rt.alloc())) == Ok((2, 4)));
    assert!(rt; lengths_through(&mut blind) == Ok((2, 4)));
    assert!(rt; read_full(&mut blind, 2, 1, &mut into) == Ok(3) && into == [1, 2, 3, 9]);
}

#[test]
fn a_fault_is_one_of_loading(rt: HostRuntime) {
    let unloaded = Unloaded {
        disk: MemDisk::new(rt.alloc()),
        fault: LoadFault::from(Failed),
    };
    assert!(rt; unloaded.fault == LoadFault::Disk);
    assert!(rt; LoadFault::from(Fault::Memory) == LoadFault::Memory);
}
