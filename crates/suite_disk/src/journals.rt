ghost use Rattle.tx_model.specs.Spelling.{IsMeta};
ghost use Rattle.disk_model.specs.MemDisk.{mem_history};
ghost use Rattle.meta_journal.specs.Entries.{IsTidy};

use disk_model::{Disk, LoadFault, MemDisk};
use meta_journal::{Journal, JournalFault};
use std::alloc::Global;
use std::test::Fail;
use tx_model::Meta;

// Writes an entry by its call. None writes the number of a register.
fn put(disk: &mut MemDisk, journal: &mut Journal, entry: Meta) -> Result<(), JournalFault>
    requires tidy { IsTidy journal.old ((mem_history disk.old).now 0) }
    requires valid { IsMeta entry }
{
    match entry {
        Meta::Promise(session) => journal.promise(disk, session),
        Meta::Adopt(session, first, file, count) => {
            journal.adopt(disk, session, first, file, count)
        }
        Meta::Roll(file, first) => journal.roll(disk, file, first),
        Meta::Low(low) => journal.low(disk, low),
        Meta::Value(_) => Ok(()),
    }
}

// What the call of an entry behind the promise of session 1 answers where it stops after some bytes, which entries are
// loaded after a crash, and how long the file is then.
fn left_by(
    alloc: Global,
    entry: Meta,
    bytes: u64,
) -> Result<(Result<(), JournalFault>, Vec<Meta>, usize), Fail>
    requires { IsMeta entry }
{
    let mut disk = MemDisk::new(alloc);
    let (mut journal, _) = Journal::load(alloc, &mut disk)?;
    journal.promise(&mut disk, 1)?;
    disk.fuse(bytes);
    let answer = put(&mut disk, &mut journal, entry);
    disk.crash();
    let (_, entries) = Journal::load(alloc, &mut disk)?;
    Ok((answer, entries, disk.bytes(0).len()))
}

// After how many bytes it isn't as it should be: a promise has 21 bytes, this entry `len`, and the sync comes after.
fn wrong_after(alloc: Global, entry: Meta, len: u8) -> Result<Option<u64>, Fail>
    requires { IsMeta entry }
{
    let len = u64::from(len);
    let both = [Meta::Promise(1), entry];
    for bytes in 0..43u64 {
        let kept = if bytes < len { 1 } else { 2 };
        let end = if bytes < len { 21 } else { 21 + len };
        let wanted = if bytes > len {
            Ok(())
        } else {
            Err(JournalFault::Disk)
        };
        let (answer, entries, left) = left_by(alloc, entry, bytes)?;
        if answer != wanted || entries.as_slice() != &both[..kept] || left as u64 != end {
            return Ok(Some(bytes));
        }
    }
    Ok(None)
}

#[test]
fn a_call_may_stop_after_each_byte(rt: HostRuntime) -> Result<(), Fail> {
    let alloc = rt.alloc();
    assert!(rt; wrong_after(alloc, Meta::Promise(2), 21)? == None);
    assert!(rt; wrong_after(alloc, Meta::Adopt(2, 1, 2, 0), 41)? == None);
    Ok(())
}

#[test]
fn so_may_the_other_calls(rt: HostRuntime) -> Result<(), Fail> {
    let alloc = rt.alloc();
    assert!(rt; wrong_after(alloc, Meta::Roll(3, 7), 25)? == None);
    assert!(rt; wrong_after(alloc, Meta::Low(5), 21)? == None);
    Ok(())
}

// How many entries are loaded of a promise and a low mark, of which one byte is changed, and how long the file is then.
fn changed_at(alloc: Global, place: u64) -> Result<(usize, usize), Fail> {
    let mut disk = MemDisk::new(alloc);
    let (mut journal, _) = Journal::load(alloc, &mut disk)?;
    journal.promise(&mut disk, 1)?;
    journal.low(&mut disk, 3)?;
    if place < disk.bytes(0).len() as u64 {
        disk.write_at(0, place, &[99])?;
    }
    let (_, entries) = Journal::load(alloc, &mut disk)?;
    Ok((entries.len(), disk.bytes(0).len()))
}

#[test]
fn a_wrong_frame_begins_the_tail(rt: HostRuntime) -> Result<(), Fail> {
    for (place, want) in [
        (99, (2, 42)),
        (41, (1, 21)),
        (21, (1, 21)),
        (20, (0, 0)),
        (0, (0, 0)),
    ] {
        assert!(rt; changed_at(rt.alloc(), place)? == want, "at {place}");
    }
    Ok(())
}

#[test]
fn a_fault_of_a_journal_is_one_of_loading(rt: HostRuntime) {
    assert!(rt; LoadFault::from(JournalFault::Disk) == LoadFault::Disk);
    assert!(rt; LoadFault::from(JournalFault::Memory) == LoadFault::Memory);
}
