use crate::asks::{Ask, Turn, message, sum_of};
use crate::stops::{Left, left_of};
use disk_model::MemDisk;
use partition_store::Store;
use proto_model::{NodeFault, ToNode};
use std::alloc::Global;
use std::test::Fail;
use tx_model::Batch;

fn promise(store: &mut Store<MemDisk>, session: u64) -> Result<(), NodeFault> {
    if store.status().promised < session && 0 < session && session < 256 {
        return store.promise(session);
    }
    Ok(())
}

fn stage(store: &mut Store<MemDisk>, batch: &Batch) -> Result<(), NodeFault> {
    if batch.first() == store.status().low + store.staged() + 1 {
        return store.stage(batch);
    }
    Ok(())
}

fn adopt(store: &mut Store<MemDisk>) -> Result<(), NodeFault> {
    let status = store.status();
    if status.adopted < status.promised {
        return store.adopt(status.promised);
    }
    Ok(())
}

fn append(store: &mut Store<MemDisk>, batch: &Batch) -> Result<(), NodeFault> {
    let status = store.status();
    if store.staged() == 0 && 0 < status.adopted && batch.first() <= status.length + 1 {
        return store.append(batch);
    }
    Ok(())
}

fn low(store: &mut Store<MemDisk>, mark: u64) -> Result<(), NodeFault> {
    let status = store.status();
    if store.staged() == 0 && status.low < mark && mark <= status.length {
        return store.low(mark);
    }
    Ok(())
}

// A store does what a message asks for, where it may.
fn take(store: &mut Store<MemDisk>, m: &ToNode) -> Result<(), NodeFault> {
    match m {
        ToNode::Open(session) => promise(store, *session),
        ToNode::Fetch(_, _, _) => Ok(()),
        ToNode::Stage(_, batch) => stage(store, batch),
        ToNode::Adopt(_, _) => adopt(store),
        ToNode::Append(_, batch) => append(store, batch),
        ToNode::Low(_, mark) => low(store, *mark),
    }
}

// A store over an empty disk that did what these messages ask for.
fn store_after(alloc: Global, turns: &[Turn]) -> Result<Store<MemDisk>, Fail> {
    let mut store = Store::load(alloc, MemDisk::new(alloc)).map_err(|u| u.fault)?;
    for turn in turns {
        take(&mut store, &message(alloc, *turn)?)?;
    }
    Ok(store)
}

// It stops once so many bytes are written, and is loaded again.
fn stop(alloc: Global, store: &mut Store<MemDisk>, turn: Turn, keep: u64) -> Result<(), Fail> {
    let m = message(alloc, turn)?;
    store.fuse(keep);
    let _done = take(store, &m);
    store.crash();
    store.reload()?;
    Ok(())
}

// What is left of a store that did what these messages ask for, and stopped within one more.
pub fn store_left(alloc: Global, turns: &[Turn], last: Turn, keep: u64) -> Result<Left, Fail> {
    let mut store = store_after(alloc, turns)?;
    stop(alloc, &mut store, last, keep)?;
    let s = store.status();
    let records = store.get_run(1, 8)?;
    let log = if records.is_empty() {
        0
    } else {
        sum_of(&records)
    };
    Ok(left_of(
        [s.promised, s.adopted, s.low, s.length],
        log,
        s.low + store.staged() + 1,
    ))
}

// The id of the record that a store with two committed records gives for an id.
fn got(alloc: Global, id: u64) -> Result<Option<u64>, Fail> {
    let turns = [
        (1, Ask::Open),
        (1, Ask::Adopt(0)),
        (1, Ask::Append(1, 2)),
        (1, Ask::Low(2)),
    ];
    let mut store = store_after(alloc, &turns)?;
    let found = store.get(id)?;
    Ok(found.map(|r| r.id))
}

#[test]
fn a_committed_record_is_found_by_its_id(rt: HostRuntime) -> Result<(), Fail> {
    for (id, found) in [(0, None), (1, Some(1)), (2, Some(2)), (3, None)] {
        assert!(rt; got(rt.alloc(), id)? == found, "{id}");
    }
    Ok(())
}
