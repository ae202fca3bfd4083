//! A segment over a disk in memory: records are appended in batches of eight, loaded again, and read by their ids.
ghost use Rattle.std.specs.Prelude.{◌≡◌, ◌≤◌, ◌<◌, ◌^◌, ◌+◌, All, IfOk};
ghost use Rattle.tx_model.specs.Records.{IsRecord, RiseByOne};
ghost use Rattle.disk_model.specs.MemDisk.{mem_history};
ghost use Rattle.segment_store.specs.Index.{IsIndexOf, IsTidy};

use crate::work::{Tally, example};
use disk_model::MemDisk;
use segment_store::Segment;
use std::alloc::Global;
use std::io::{self, ErrorKind};
use tx_model::Record;

/// Eight records with ids from a first one on.
pub fn batch(alloc: Global, first: u64) -> io::Result<Vec<Record>>
    requires some { 1 ≤ first }
    requires below { first + 8 < 2 ^ 48 }
    ensures rise { IfOk result (λ records. RiseByOne first records.items) }
    ensures valid { IfOk result (λ records. All IsRecord records.items) }
{
    let mut records = Vec::with_capacity(alloc, 8)?;
    for k in 0..8 {
        records.push(example(alloc, first + k)?)?;
    }
    Ok(records)
}

/// Appends so many records to file 2 of an empty disk.
fn append_all(alloc: Global, disk: &mut MemDisk, count: u64) -> io::Result<Segment>
    ensures { IfOk result (λ s. IsTidy s ((mem_history disk.new).now s.file)) }
{
    let Ok(mut segment) = Segment::load(alloc, disk, 2, 1, 0) else {
        return Err(ErrorKind::Other.into());
    };
    'batches: for _ in 0..count / 8 {
        let first = segment.count().saturating_add(1);
        if first >= 1 << 40 {
            return Err(ErrorKind::InvalidInput.into());
        }
        let records = batch(alloc, first)?;
        if segment.append(disk, &records).is_err() {
            return Err(ErrorKind::Other.into());
        }
    }
    Ok(segment)
}

/// Appends so many records, and loads them again.
pub fn append_and_load(alloc: Global, count: u64) -> io::Result<Tally> {
    let mut disk = MemDisk::new(alloc);
    let segment = append_all(alloc, &mut disk, count)?;
    let Ok(again) = Segment::load(alloc, &mut disk, 2, 1, segment.count()) else {
        return Err(ErrorKind::Other.into());
    };
    Ok(Tally {
        bytes: disk.bytes(2).len() as u64,
        sum: again.count(),
    })
}

/// Appends 800 records, and reads eight of them so often, by one call or each by its own.
pub fn append_and_get(alloc: Global, times: u64, at_once: bool) -> io::Result<Tally> {
    let mut disk = MemDisk::new(alloc);
    let segment = append_all(alloc, &mut disk, 800)?;
    get_often(&segment, &mut disk, times, at_once)
}

fn get_often(segment: &Segment, disk: &mut MemDisk, times: u64, at_once: bool) -> io::Result<Tally>
    requires { IsIndexOf segment.now ((mem_history disk.old).now segment.now.file).reads }
{
    let mut tally = Tally::new();
    'reads: for turn in 0..times {
        let from = turn % 100 * 8 + 1;
        if at_once {
            get_at_once(segment, disk, from, &mut tally)?;
        } else {
            get_each(segment, disk, from, &mut tally)?;
        }
    }
    Ok(tally)
}

fn get_at_once(
    segment: &Segment,
    disk: &mut MemDisk,
    from: u64,
    tally: &mut Tally,
) -> io::Result<()>
    requires { IsIndexOf segment.now ((mem_history disk.old).now segment.now.file).reads }
    ensures { mem_history disk.new ≡ mem_history disk.old }
{
    let Ok(records) = segment.get_run(disk, from, 8) else {
        return Err(ErrorKind::Other.into());
    };
    for record in &records {
        tally.add(record.tx.payload().len(), record.id);
    }
    Ok(())
}

fn get_each(segment: &Segment, disk: &mut MemDisk, from: u64, tally: &mut Tally) -> io::Result<()>
    requires { IsIndexOf segment.now ((mem_history disk.old).now segment.now.file).reads }
    ensures { mem_history disk.new ≡ mem_history disk.old }
{
    'ids: for k in 0..8 {
        let Ok(Some(record)) = segment.get(disk, from.saturating_add(k)) else {
            return Err(ErrorKind::Other.into());
        };
        tally.add(record.tx.payload().len(), record.id);
    }
    Ok(())
}
