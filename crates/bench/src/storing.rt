//! A store over a disk in memory: batches of eight records are appended, and loaded again.
ghost use Rattle.std.specs.Prelude.{◌≡◌, ◌≤◌, ◌<◌, ◌^◌, ◌+◌, None, All, IfOk, OnOk};
ghost use Rattle.tx_model.specs.Records.{IsRecord, first_id};

use crate::segment::batch;
use crate::work::Tally;
use disk_model::{Disk, MemDisk};
use partition_store::Store;
use record_frame::encode_record;
use std::alloc::Global;
use std::io::{self, ErrorKind};
use tx_model::{Batch, Record};

/// The file of the log of a store that has adopted once.
const FILE: u32 = 2;

// An empty store that has adopted session 1.
fn adopted(alloc: Global) -> io::Result<Store<MemDisk>>
    ensures adopted { IfOk result (λ store. 0 < store.status.adopted) }
    ensures none { IfOk result (λ store. store.staged ≡ None) }
{
    let Ok(mut store) = Store::load(alloc, MemDisk::new(alloc)) else {
        return Err(ErrorKind::Other.into());
    };
    let status = store.status();
    if status.promised > 0 {
        return Err(ErrorKind::Other.into());
    }
    if status.adopted > 0 {
        return Err(ErrorKind::Other.into());
    }
    if store.promise(1).is_err() {
        return Err(ErrorKind::Other.into());
    }
    if store.adopt(1).is_err() {
        return Err(ErrorKind::Other.into());
    }
    Ok(store)
}

// Eight records with ids from a first one on, as a batch.
fn next_batch(alloc: Global, first: u64) -> io::Result<Batch>
    requires { 1 ≤ first }
{
    if first >= 1 << 40 {
        return Err(ErrorKind::InvalidInput.into());
    }
    let Ok(batch) = Batch::new(batch(alloc, first)?) else {
        return Err(ErrorKind::Other.into());
    };
    Ok(batch)
}

// Appends the next batch.
fn append_next(alloc: Global, store: &mut Store<MemDisk>) -> io::Result<()>
    requires adopted { 0 < store.old.status.adopted }
    requires none { store.old.staged ≡ None }
    ensures adopted { OnOk result (0 < store.new.status.adopted) }
    ensures none { OnOk result (store.new.staged ≡ None) }
{
    let next = store.status().length.saturating_add(1);
    let batch = next_batch(alloc, next)?;
    if batch.first() > next {
        return Err(ErrorKind::Other.into());
    }
    if store.append(&batch).is_err() {
        return Err(ErrorKind::Other.into());
    }
    Ok(())
}

// Appends so many batches.
fn appended(alloc: Global, batches: u64) -> io::Result<Store<MemDisk>> {
    let mut store = adopted(alloc)?;
    'batches: for _ in 0..batches {
        append_next(alloc, &mut store)?;
    }
    Ok(store)
}

fn tally_of(store: &Store<MemDisk>) -> Tally {
    Tally {
        bytes: store.disk().bytes(FILE).len() as u64,
        sum: store.status().length,
    }
}

/// Appends so many batches. The sum is the length of the log.
pub fn store_batches(alloc: Global, batches: u64) -> io::Result<Tally> {
    Ok(tally_of(&appended(alloc, batches)?))
}

/// Appends so many batches, and loads them again.
pub fn store_and_load(alloc: Global, batches: u64) -> io::Result<Tally> {
    let store = appended(alloc, batches)?;
    let Ok(again) = Store::load(alloc, store.into_disk()) else {
        return Err(ErrorKind::Other.into());
    };
    Ok(tally_of(&again))
}

// The frames of records in a row.
fn frames_of(alloc: Global, records: &[Record]) -> io::Result<Vec<u8>>
    requires { All IsRecord records.now }
{
    let mut frames = Vec::new(alloc);
    for entry in records {
        encode_record(alloc, entry, &mut frames)?;
    }
    Ok(frames)
}

// Writes the frames of eight records behind the others, as a store does.
fn write_next(alloc: Global, disk: &mut MemDisk, first: u64) -> io::Result<()>
    requires { 1 ≤ first }
{
    if first >= 1 << 40 {
        return Err(ErrorKind::InvalidInput.into());
    }
    let records = batch(alloc, first)?;
    let frames = frames_of(alloc, &records)?;
    let end = disk.bytes(FILE).len() as u64;
    if disk.write_at(FILE, end, &frames).is_err() {
        return Err(ErrorKind::Other.into());
    }
    if disk.sync(FILE).is_err() {
        return Err(ErrorKind::Other.into());
    }
    Ok(())
}

/// Writes the frames of so many batches to a disk that no store looks after. The sum is the last id.
pub fn write_batches(alloc: Global, batches: u64) -> io::Result<Tally> {
    let mut disk = MemDisk::new(alloc);
    for turn in 0..batches {
        write_next(alloc, &mut disk, turn.saturating_mul(8).saturating_add(1))?;
    }
    Ok(Tally {
        bytes: disk.bytes(FILE).len() as u64,
        sum: batches.saturating_mul(8),
    })
}
