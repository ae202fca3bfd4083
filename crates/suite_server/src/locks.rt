ghost use Rattle.std.specs.Prelude.{◌≡◌, ◌<◌};

use lock_table::{LockTable, LockedAt};
use std::alloc::Global;
use std::marker::Brand;
use std::sync::ledger::{Blank, Ledger};
use std::test::Fail;
use tx_model::{Lock, Steps, Tx};

// Locks with names of one byte each.
fn locks(alloc: Global, names: &[u8]) -> Result<Vec<Lock>, Fail> {
    let mut locks = Vec::new(alloc);
    for name in names {
        locks.push(Lock::new(alloc, &[*name])?)?;
    }
    Ok(locks)
}

// A transaction of mark 4 with these read and write locks.
fn tx(alloc: Global, reads: &[u8], writes: &[u8]) -> Result<Tx, Fail> {
    let reads = locks(alloc, reads)?;
    let writes = locks(alloc, writes)?;
    Ok(Tx::new(alloc, 1, 1, 4, reads, writes, Vec::new(alloc))?)
}

// A lock's probed mark, and which lock refuses a transaction.
fn asked_with<L: Ledger>(
    table: &LockTable,
    lock: &Lock,
    tx: &Tx,
    blank: Blank,
) -> (u64, Option<LockedAt>)
    requires name { blank.name ≡ L.name }
    requires parts { blank.parts ≡ L.parts }
    requires some { 0 < blank.parts }
{
    let mut steps = Steps::<L>::new(blank);
    let mark = table.probe(lock, &mut steps);
    (mark, table.admit(tx, &mut steps).err())
}

fn asked(table: &LockTable, lock: &Lock, tx: &Tx) -> (u64, Option<LockedAt>) {
    asked_with::<Brand>(table, lock, tx, Blank::new(1))
}

// What the table of one row and slot, from mark 4, answers on `b` after these records of `a`.
fn asked_of_one_slot(
    alloc: Global,
    ids: &[u64],
    reset: bool,
) -> Result<(u64, Option<LockedAt>), Fail> {
    let written = tx(alloc, b"", b"a")?;
    let mut table = LockTable::new(alloc, 1, 1, 4)?;
    for id in ids {
        table.note(*id, &written);
    }
    if reset {
        table.reset(4);
    }
    let b = Lock::new(alloc, b"b")?;
    Ok(asked(&table, &b, &tx(alloc, b"a", b"b")?))
}

#[test]
fn one_slot_is_shared_by_all_locks(rt: HostRuntime) -> Result<(), Fail> {
    let refusing = Some(LockedAt { place: 0, mark: 5 });
    assert!(rt; asked_of_one_slot(rt.alloc(), &[], false)? == (4, None));
    assert!(rt; asked_of_one_slot(rt.alloc(), &[5], false)? == (5, refusing));
    assert!(rt; asked_of_one_slot(rt.alloc(), &[5], true)? == (4, None));
    Ok(())
}

// What a table that has noted a read lock `a` and a write lock `x` answers on a lock.
fn asked_on(alloc: Global, name: u8) -> Result<(u64, Option<LockedAt>), Fail> {
    let mut table = LockTable::new(alloc, 2, 64, 0)?;
    table.note(7, &tx(alloc, b"a", b"x")?);
    let lock = Lock::new(alloc, &[name])?;
    Ok(asked(&table, &lock, &tx(alloc, b"AB", &[name])?))
}

#[test]
fn read_locks_raise_nothing(rt: HostRuntime) -> Result<(), Fail> {
    let refusing = Some(LockedAt { place: 2, mark: 7 });
    let cases = [(b'a', 0, None), (b'b', 0, None), (b'x', 7, refusing)];
    for (name, mark, refusing) in cases {
        assert!(rt;
            asked_on(rt.alloc(), name)? == (mark, refusing),
            "at {name}"
        );
    }
    Ok(())
}

// A lock's probed mark in a table of 64 slots a row, where record 7 holds `a`.
fn mark_beside_a(alloc: Global, rows: u8, name: &[u8]) -> Result<u64, Fail> {
    let written = tx(alloc, b"", b"a")?;
    let mut table = LockTable::new(alloc, rows.clamp(1, 8), 64, 0)?;
    table.note(7, &written);
    Ok(asked(&table, &Lock::new(alloc, name)?, &written).0)
}

// By the published FNV-1a, `ad` has the slot of `a` in row 0, `cp` that of row 1, and `add` both.
#[test]
fn names_hash_to_the_published_slots(rt: HostRuntime) -> Result<(), Fail> {
    for (rows, name, mark) in [
        (1, b"ad".as_slice(), 7),
        (1, b"cp", 0),
        (2, b"ad", 0),
        (2, b"cp", 0),
        (2, b"add", 7),
        (2, b"a", 7),
        (2, b"b", 0),
    ] {
        assert!(rt;
            mark_beside_a(rt.alloc(), rows, name)? == mark,
            "at {rows}, {mark}"
        );
    }
    Ok(())
}
