ghost use Rattle.std.specs.Prelude.{◌≡◌, IfOk};
ghost use Rattle.disk_model.specs.MemDisk.{mem_history};
ghost use Rattle.segment_store.specs.Index.{IsIndexOf, IsTidy};

use crate::blind::Blind;
use crate::records::{entries, entry};
use disk_model::{Disk, MemDisk};
use record_frame::encode_record;
use segment_store::{Segment, SegmentFault};
use std::alloc::Global;
use std::test::Fail;

// Appends so many records to a segment whose first id is 1.
fn grow(
    alloc: Global,
    disk: &mut MemDisk,
    segment: &mut Segment,
    count: u8,
    payload: &[u8],
) -> Result<Result<(), SegmentFault>, Fail>
    requires tidy { IsTidy segment.old ((mem_history disk.old).now segment.old.file) }
    requires first { segment.old.first ≡ 1 }
    ensures place { (segment.new.file ≡ segment.old.file) × (segment.new.first ≡ 1) }
    ensures tidy { IfOk result (λ answer. IfOk answer (λ _.
        IsTidy segment.new ((mem_history disk.new).now segment.new.file))) }
{
    let next = segment.count().saturating_add(1);
    if next > 1_000_000 {
        return Ok(Err(SegmentFault::Memory));
    }
    let records = entries(alloc, next, count.into(), payload)?;
    Ok(segment.append(disk, &records))
}

// What stands on a disk when the append of so many records to others in file 2 stopped after some bytes, what was
// answered, and how many records the segment had then.
fn stopped(
    alloc: Global,
    old: u8,
    new: u8,
    bytes: u64,
) -> Result<(MemDisk, Result<(), SegmentFault>, u64), Fail> {
    let mut disk = MemDisk::new(alloc);
    let mut segment = Segment::load(alloc, &mut disk, 2, 1, 0)?;
    grow(alloc, &mut disk, &mut segment, old, b"set a 5")??;
    disk.fuse(bytes);
    let answer = grow(alloc, &mut disk, &mut segment, new, b"set a 6")?;
    disk.crash();
    Ok((disk, answer, segment.count()))
}

// The id of a record, and the length of its payload.
type Got = Option<(u64, usize)>;

// The record with this id.
fn got(disk: &mut MemDisk, segment: &Segment, id: u64) -> Result<Got, Fail>
    requires { IsIndexOf segment.now ((mem_history disk.old).now segment.now.file).reads }
    ensures { mem_history disk.new ≡ mem_history disk.old }
{
    let found = segment.get(disk, id)?;
    Ok(found.map(|r| (r.id, r.tx.payload().len())))
}

// What such an append answered, how many records the segment had then, how many are loaded after a crash, the last one
// of them and the one behind it, and how long the file is then.
fn left_by(
    alloc: Global,
    old: u8,
    new: u8,
    bytes: u64,
) -> Result<(Result<(), SegmentFault>, u64, u64, [Got; 2], usize), Fail> {
    let (mut disk, answer, count) = stopped(alloc, old, new, bytes)?;
    let segment = Segment::load(alloc, &mut disk, 2, 1, old.into())?;
    let last = segment.count();
    let found = got(&mut disk, &segment, last)?;
    let behind = got(&mut disk, &segment, last.saturating_add(1))?;
    Ok((answer, count, last, [found, behind], disk.bytes(2).len()))
}

// After how many bytes it isn't as it should be: each frame has 68 bytes, and the sync comes after the last.
fn wrong_after(alloc: Global, old: u8, new: u8) -> Result<Option<u64>, Fail> {
    let all = u64::from(old) + u64::from(new);
    for bytes in 0..206u64 {
        let whole = all.min(u64::from(old) + bytes / 68);
        let done = bytes > 68 * u64::from(new);
        let (answer, count) = if done {
            (Ok(()), all)
        } else {
            (Err(SegmentFault::Disk), old.into())
        };
        let last = if whole == 0 { None } else { Some((whole, 7)) };
        let found = [last, None];
        if left_by(alloc, old, new, bytes)? != (answer, count, whole, found, 68 * whole as usize) {
            return Ok(Some(bytes));
        }
    }
    Ok(None)
}

#[test]
fn an_append_may_stop_after_each_byte(rt: HostRuntime) -> Result<(), Fail> {
    for (old, new) in [(0, 2), (2, 3), (1, 1)] {
        assert!(rt;
            wrong_after(rt.alloc(), old, new)? == None,
            "at {old} and {new}"
        );
    }
    Ok(())
}

// The frames of records with these ids in a row as file 2 of a disk, with one byte changed, if there is such a place.
fn disk_with(alloc: Global, ids: &[u64], changed: usize) -> Result<MemDisk, Fail> {
    let mut bytes = Vec::new(alloc);
    for id in ids {
        let entry = entry(alloc, (*id).max(1).min(9), b"set a 5")?;
        encode_record(alloc, &entry, &mut bytes)?;
    }
    if let Some(byte) = bytes.get_mut(changed) {
        *byte ^= 1;
    }
    let mut disk = MemDisk::new(alloc);
    disk.write_at(2, 0, &bytes)?;
    Ok(disk)
}

// How many records are loaded of such a disk where at least so many are needed, and how long the file is then.
fn loaded(
    alloc: Global,
    ids: &[u64],
    changed: usize,
    first: u64,
    count: u64,
) -> Result<(Result<u64, SegmentFault>, usize), Fail> {
    let mut disk = disk_with(alloc, ids, changed)?;
    let answer = Segment::load(alloc, &mut disk, 2, first, count);
    Ok((answer.map(|s| s.count()), disk.bytes(2).len()))
}

#[test]
fn a_place_is_damaged_or_begins_the_tail(rt: HostRuntime) -> Result<(), Fail> {
    let none = 999;
    let cases = [
        ([1, 2, 3].as_slice(), none, 1, 3, (Ok(3), 204)),
        (&[5, 6], none, 5, 1, (Ok(2), 136)),
        // One record fewer than are needed.
        (
            &[1, 2],
            none,
            1,
            3,
            (Err(SegmentFault::Damaged(2, 136)), 136),
        ),
        (&[], none, 1, 1, (Err(SegmentFault::Damaged(2, 0)), 0)),
        // Another id than the next, also behind those that are needed.
        (&[1, 2], none, 2, 0, (Err(SegmentFault::Damaged(2, 0)), 136)),
        (
            &[1, 3, 3],
            none,
            1,
            1,
            (Err(SegmentFault::Damaged(2, 68)), 204),
        ),
        // A wrong check, of a record that is needed and of one that is not.
        (
            &[1, 2, 3],
            100,
            1,
            2,
            (Err(SegmentFault::Damaged(2, 68)), 204),
        ),
        (&[1, 2, 3], 100, 1, 1, (Ok(1), 68)),
    ];
    for (ids, changed, first, count, want) in cases {
        assert!(rt; loaded(rt.alloc(), ids, changed, first, count)? == want);
    }
    Ok(())
}

// How many records are read, how many frames stand there, and where the first wrong id does behind those that are
// needed.
type Read = Result<(u64, u64, Option<u64>), SegmentFault>;

// What is read of such a disk, and how many records are loaded.
fn read(
    alloc: Global,
    ids: &[u64],
    changed: usize,
    count: u64,
) -> Result<(Read, Result<u64, SegmentFault>), Fail> {
    let mut disk = disk_with(alloc, ids, changed)?;
    let found = Segment::read(alloc, &mut disk, 2, 1, count);
    let loaded = Segment::load(alloc, &mut disk, 2, 1, count);
    Ok((
        found.map(|f| (f.segment.count(), f.frames, f.wrong)),
        loaded.map(|s| s.count()),
    ))
}

#[test]
fn a_wrong_id_behind_those_that_are_needed_is_kept(rt: HostRuntime) -> Result<(), Fail> {
    let none = 999;
    let first = Err(SegmentFault::Damaged(2, 0));
    let second = Err(SegmentFault::Damaged(2, 68));
    let cases = [
        // With none needed the first id is wrong, or the second; then only frames are counted.
        ([2].as_slice(), none, 0, (Ok((0, 1, Some(0))), first)),
        (&[1, 3, 3], none, 0, (Ok((1, 3, Some(68))), second)),
        (&[1, 3, 2], none, 1, (Ok((1, 3, Some(68))), second)),
        // With two needed it is one of them.
        (
            &[1, 3, 3],
            none,
            2,
            (Err(SegmentFault::Damaged(2, 68)), second),
        ),
        // Frames up to the first wrong check, or all.
        (&[1, 3, 3], 150, 1, (Ok((1, 2, Some(68))), second)),
        (&[1, 3], 100, 1, (Ok((1, 1, None)), Ok(1))),
        (&[1, 2], none, 1, (Ok((2, 2, None)), Ok(2))),
    ];
    for (ids, changed, count, want) in cases {
        assert!(rt; read(rt.alloc(), ids, changed, count)? == want);
    }
    Ok(())
}

// The ids of a run of a segment that has the records 5, 6 and 7, or the first ones of them.
fn run_of(alloc: Global, kept: u64, from: u64, count: u8) -> Result<Vec<u64>, Fail> {
    let mut disk = disk_with(alloc, &[5, 6, 7], 999)?;
    let mut segment = Segment::load(alloc, &mut disk, 2, 5, 3)?;
    segment.close(kept);
    let found = segment.get_run(&mut disk, from, count)?;
    let mut ids = Vec::new(alloc);
    for record in &found {
        ids.push(record.id)?;
    }
    Ok(ids)
}

#[test]
fn a_run_has_the_records_that_are_there(rt: HostRuntime) -> Result<(), Fail> {
    let cases = [
        (9, 5, 3, [5, 6, 7].as_slice()),
        (9, 6, 1, &[6]),
        (9, 6, 255, &[6, 7]),
        (9, 7, 0, &[]),
        (9, 8, 1, &[]),
        (9, 4, 8, &[]),
        (2, 5, 8, &[5, 6]),
        (0, 5, 8, &[]),
    ];
    for (kept, from, count, ids) in cases {
        assert!(rt;
            run_of(rt.alloc(), kept, from, count)?.as_slice() == ids,
            "from {from}"
        );
    }
    Ok(())
}

// A disk whose file 2 has two records with the longest payload.
fn longest_disk(alloc: Global) -> Result<MemDisk, Fail> {
    let mut disk = MemDisk::new(alloc);
    let mut segment = Segment::load(alloc, &mut disk, 2, 1, 0)?;
    let payload = zeros(alloc, 65536)?;
    grow(alloc, &mut disk, &mut segment, 2, &payload)??;
    Ok(disk)
}

// How many records of such a disk a segment has that is loaded and closed, and the second of them.
fn longest(alloc: Global, kept: u64) -> Result<(u64, Got), Fail> {
    let mut disk = longest_disk(alloc)?;
    let mut segment = Segment::load(alloc, &mut disk, 2, 1, 2)?;
    segment.close(kept);
    let second = got(&mut disk, &segment, 2)?;
    Ok((segment.count(), second))
}

fn zeros(alloc: Global, len: usize) -> Result<Vec<u8>, Fail> {
    Ok(vec![in alloc; 0u8; len]?)
}

#[test]
fn frames_longer_than_a_piece(rt: HostRuntime) -> Result<(), Fail> {
    assert!(rt; longest(rt.alloc(), 2)? == (2, Some((2, 65536))));
    assert!(rt; longest(rt.alloc(), 1)? == (1, None));
    Ok(())
}

// How many records were staged, and how many are loaded then.
fn staged(alloc: Global) -> Result<(u64, u64), Fail> {
    let mut disk = MemDisk::new(alloc);
    let mut segment = Segment::new(alloc, 2, 1);
    let records = entries(alloc, 1, 2, b"set a 5")?;
    segment.stage(&mut disk, &records)?;
    let again = Segment::load(alloc, &mut disk, 2, 1, 2)?;
    Ok((segment.count(), again.count()))
}

#[test]
fn staged_records_stand_in_the_file(rt: HostRuntime) -> Result<(), Fail> {
    assert!(rt; staged(rt.alloc())? == (2, 2));
    Ok(())
}

// What is answered of the records 7 and 8 where the disk doesn't keep their bytes.
fn answers_blind(alloc: Global) -> Result<[Option<SegmentFault>; 3], Fail> {
    let mut disk = Blind::new();
    let mut segment = Segment::new(alloc, 2, 7);
    let records = entries(alloc, 7, 2, b"set a 5")?;
    segment.stage(&mut disk, &records)?;
    let run = segment.get_run(&mut disk, 7, 2).err();
    let second = segment.get(&mut disk, 8).err();
    let past = segment.get(&mut disk, 9).err();
    Ok([run, second, past])
}

#[test]
fn records_that_are_not_there_are_damaged(rt: HostRuntime) -> Result<(), Fail> {
    let first = Some(SegmentFault::Damaged(2, 0));
    let second = Some(SegmentFault::Damaged(2, 68));
    assert!(rt; answers_blind(rt.alloc())? == [first, second, None]);
    Ok(())
}
