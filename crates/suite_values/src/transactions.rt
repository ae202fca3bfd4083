//! Transactions, their locks, records, heads and batches.
ghost use Rattle.std.specs.Prelude.{◌<◌, ◌≤◌, ◌^◌, All, IfOk};
ghost use Rattle.tx_model.specs.Records.{IsRecord};

use std::alloc::Global;
use std::test::Fail;
use tx_model::{
    Batch, BatchFault, Head, Heads, Lock, LockFault, Locks, MAX_BATCH, MAX_LOCKS, MAX_PAYLOAD,
    OpText, Record, Tx, TxFault, admitted_name_no_held_lock, is_key_byte,
};

// Locks with names of one byte each.
fn locks(alloc: Global, names: &[u8]) -> Result<Vec<Lock>, Fail> {
    let mut locks = Vec::new(alloc);
    for name in names {
        locks.push(Lock::new(alloc, &[*name])?)?;
    }
    Ok(locks)
}

// Whether the names, each with a space behind it, are these bytes.
fn are_spelled(alloc: Global, locks: &[Lock], bytes: &[u8]) -> Result<bool, Fail> {
    let mut spelled = Vec::new(alloc);
    for lock in locks {
        spelled.extend_from_slice(lock.bytes())?;
        spelled.push(b' ')?;
    }
    Ok(spelled.as_slice() == bytes)
}

// What `Tx::new` answers to names of one byte each and a payload of this length.
fn made(
    alloc: Global,
    reads: &[u8],
    writes: &[u8],
    len: usize,
) -> Result<Result<Tx, TxFault>, Fail> {
    let reads = locks(alloc, reads)?;
    let writes = locks(alloc, writes)?;
    let payload = vec![in alloc; 7u8; len]?;
    Ok(Tx::new(alloc, 1, 2, 3, reads, writes, payload))
}

// A record with a read lock `r`, the write locks `w` and `x`, and a payload of five bytes.
fn entry(alloc: Global, id: u64) -> Result<Record, Fail>
    requires some { 1 ≤ id }
    requires below { id < 2 ^ 48 }
    ensures { IfOk result IsRecord }
{
    let tx = made(alloc, b"r", b"xw", 5)??;
    let _payload = tx.payload();
    Ok(Record { id, session: 4, tx })
}

fn entries(alloc: Global, ids: &[u16]) -> Result<Vec<Record>, Fail>
    ensures { IfOk result (λ records. All IsRecord records.items) }
{
    let mut records = Vec::new(alloc);
    for id in ids {
        records.push(entry(alloc, u64::from(*id).max(1))?)?;
    }
    Ok(records)
}

// Why no lock has a name of this length.
fn name_fault(alloc: Global, len: usize) -> Result<Option<LockFault>, Fail> {
    let name = vec![in alloc; 1u8; len]?;
    Ok(Lock::new(alloc, &name).err())
}

#[test]
fn locks_have_1_to_64_bytes(rt: HostRuntime) -> Result<(), Fail> {
    let cases = [
        (0, Some(LockFault::Empty)),
        (1, None),
        (64, None),
        (65, Some(LockFault::TooLong)),
    ];
    for (len, fault) in cases {
        assert!(rt; name_fault(rt.alloc(), len)? == fault, "at {len}");
    }
    Ok(())
}

// Whether a copy of a lock of this name has this name.
fn is_copied(alloc: Global, name: &[u8]) -> Result<bool, Fail> {
    let lock = Lock::new(alloc, name)?;
    let copy = lock.copy(alloc)?;
    Ok(copy == lock && copy.bytes() == name)
}

// Whether the lock of the first name stands before that of the second.
fn is_before(alloc: Global, first: &[u8], second: &[u8]) -> Result<bool, Fail> {
    let first = Lock::new(alloc, first)?;
    let second = Lock::new(alloc, second)?;
    Ok(first < second)
}

#[test]
fn locks_stand_in_byte_order(rt: HostRuntime) -> Result<(), Fail> {
    assert!(rt; is_copied(rt.alloc(), &[1; 64])?);
    for (first, second) in [(b"a".as_slice(), b"aa".as_slice()), (b"ab", b"b")] {
        assert!(rt; is_before(rt.alloc(), first, second)?);
    }
    Ok(())
}

// Whether this is what was made of `ba` and `dec`.
fn is_sorted(alloc: Global, tx: &Tx) -> Result<bool, Fail> {
    let reads = are_spelled(alloc, tx.reads(), b"a b ")?;
    let writes = are_spelled(alloc, tx.writes(), b"c d e ")?;
    let rest = (tx.client(), tx.request(), tx.mark()) == (1, 2, 3);
    Ok(reads && writes && rest && tx.payload() == [7; 5].as_slice())
}

// Whether a transaction, or its copy, says what it was made of.
fn says_what_was_told(alloc: Global, copied: bool) -> Result<bool, Fail> {
    let tx = made(alloc, b"ba", b"dec", 5)??;
    if copied {
        return is_sorted(alloc, &tx.copy(alloc)?);
    }
    is_sorted(alloc, &tx)
}

#[test]
fn transactions_are_sorted(rt: HostRuntime) -> Result<(), Fail> {
    for copied in [false, true] {
        assert!(rt; says_what_was_told(rt.alloc(), copied)?);
    }
    Ok(())
}

// Why there is no such transaction.
fn fault_of(
    alloc: Global,
    reads: &[u8],
    writes: &[u8],
    len: usize,
) -> Result<Option<TxFault>, Fail> {
    Ok(made(alloc, reads, writes, len)?.err())
}

// 64 names of one byte each.
const MANY: &[u8] = b"0123456789ABCDEFGHIJKLMNOPQRSTUVWXYZabcdefghijklmnopqrstuvwxyz+-";

#[test]
fn transactions_are_refused_in_order(rt: HostRuntime) -> Result<(), Fail> {
    let cases = [
        (MANY, b"".as_slice(), 65536, None),
        (b"", MANY, 65536, None),
        (MANY, b"\xff", 0, Some(TxFault::TooManyLocks)),
        (MANY, b"\x00", 65537, Some(TxFault::TooManyLocks)),
        (b"ab", b"cb", 0, Some(TxFault::DoubleLock)),
        (b"aba", b"c", 0, Some(TxFault::DoubleLock)),
        (b"c", b"aba", 65537, Some(TxFault::DoubleLock)),
        (b"a", b"b", 65537, Some(TxFault::PayloadTooLong)),
        (b"a", b"b", 65536, None),
    ];
    for (reads, writes, len, fault) in cases {
        assert!(rt; fault_of(rt.alloc(), reads, writes, len)? == fault);
    }
    Ok(())
}

// Locks with names of 64 bytes each.
fn long_locks(alloc: Global) -> Result<Vec<Lock>, Fail> {
    let mut locks = Vec::new(alloc);
    for k in 0..64u8 {
        let mut name = [9; 64];
        name[63] = k;
        locks.push(Lock::new(alloc, &name)?)?;
    }
    Ok(locks)
}

#[test]
fn the_largest_transaction(rt: HostRuntime) -> Result<(), Fail> {
    let writes = long_locks(rt.alloc())?;
    let payload = vec![in rt.alloc(); 0u8; 65536]?;
    let most = u64::MAX;
    let tx = Tx::new(
        rt.alloc(),
        most,
        most,
        most,
        Vec::new(rt.alloc()),
        writes,
        payload,
    )?;
    let sizes = (tx.writes().len(), tx.payload().len());
    assert!(rt; sizes == (MAX_LOCKS, MAX_PAYLOAD));
    assert!(rt; (tx.client(), tx.request(), tx.mark()) == (most, most, most));
    Ok(())
}

#[test]
fn records_are_copied(rt: HostRuntime) -> Result<(), Fail> {
    let copy = entry(rt.alloc(), 6)?.copy(rt.alloc())?;
    assert!(rt; (copy.id, copy.session, copy.tx.request()) == (6, 4, 2));
    assert!(rt; copy.tx.payload() == [7; 5].as_slice());
    Ok(())
}

// Whether this is the head of the record 6.
fn is_head(alloc: Global, head: &Head) -> Result<bool, Fail> {
    let reads = are_spelled(alloc, head.reads.items(), b"r ")?;
    let writes = are_spelled(alloc, head.writes.items(), b"w x ")?;
    Ok(reads && writes && (head.id, head.session, head.mark) == (6, 4, 3))
}

// The head of the record 6, or its copy, in a list.
fn listed(alloc: Global, copied: bool) -> Result<Heads, Fail> {
    let mut head = entry(alloc, 6)?.head(alloc)?;
    if copied {
        head = head.copy(alloc)?;
    }
    let mut heads = Vec::new(alloc);
    heads.push(head)?;
    Ok(Heads::new(heads))
}

// Whether the list is of one head, that of the record 6.
fn is_listed(alloc: Global, copied: bool) -> Result<bool, Fail> {
    match listed(alloc, copied)?.items() {
        [head] => is_head(alloc, head),
        _ => Ok(false),
    }
}

#[test]
fn heads_are_copied(rt: HostRuntime) -> Result<(), Fail> {
    for copied in [false, true] {
        assert!(rt; is_listed(rt.alloc(), copied)?);
    }
    Ok(())
}

// Whether a copy of a list of locks has the same locks.
fn is_list_copied(alloc: Global) -> Result<bool, Fail> {
    let list = Locks::new(locks(alloc, b"ba")?);
    let copy = list.copy(alloc)?;
    Ok(copy.into_items().as_slice() == list.items() && list.items().len() == 2)
}

#[test]
fn lists_of_locks_are_copied(rt: HostRuntime) -> Result<(), Fail> {
    assert!(rt; is_list_copied(rt.alloc())?);
    Ok(())
}

#[test]
fn keys_have_small_letters_digits_and_underscores(rt: HostRuntime) {
    for byte in *b"az09_m5" {
        assert!(rt; is_key_byte(byte), "at {byte}");
    }
    for byte in *b"`{/:AZ -^\x00\xe9" {
        assert!(rt; !is_key_byte(byte), "at {byte}");
    }
}

#[test]
fn the_law_of_admission_is_called(_rt: HostRuntime) {
    admitted_name_no_held_lock();
}

#[test]
fn texts_have_their_bytes(rt: HostRuntime) -> Result<(), Fail> {
    let text = OpText::new(vec![in rt.alloc(); 5u8; 3]?);
    assert!(rt; text.items() == [5, 5, 5].as_slice());
    Ok(())
}

// Why these records are no batch.
fn batch_fault(alloc: Global, ids: &[u16]) -> Result<Option<BatchFault>, Fail> {
    Ok(Batch::new(entries(alloc, ids)?).err())
}

#[test]
fn batches_are_refused(rt: HostRuntime) -> Result<(), Fail> {
    let cases = [
        ([].as_slice(), BatchFault::Empty),
        (&[1, 2, 3, 4, 5, 6, 7, 8, 9], BatchFault::TooMany),
        (&[1, 2, 4], BatchFault::Gap(2)),
        (&[3, 3, 5], BatchFault::Gap(1)),
        (&[3, 2], BatchFault::Gap(1)),
    ];
    for (ids, fault) in cases {
        assert!(rt; batch_fault(rt.alloc(), ids)? == Some(fault));
    }
    Ok(())
}

#[test]
fn a_batch_is_copied(rt: HostRuntime) -> Result<(), Fail> {
    let records = entries(rt.alloc(), &[5, 6, 7, 8, 9, 10, 11, 12])?;
    let copy = Batch::new(records)?.copy(rt.alloc())?;
    assert!(rt; (copy.first(), copy.len()) == (5, 8));
    assert!(rt; copy.records().len() == MAX_BATCH && copy.records()[7].id == 12);
    assert!(rt; copy.into_records().len() == MAX_BATCH);
    Ok(())
}
