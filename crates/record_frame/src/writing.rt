//! Records as frames.
ghost use Rattle.std.specs.Prelude.{◌≡◌, ◌+◌, ◌*◌, ◌≤◌, ◌++◌, length, OnOk, OnErr};
ghost use Rattle.record_frame.specs.Adding.{Keeps};
ghost use Rattle.tx_model.specs.Records.{IsRecord};
ghost use Rattle.tx_model.specs.Spelling.{spelled_name, spelled_names, spelled_locks, spelled_transaction, record_body, record_frame};

use crate::framing::check_of;
use std::alloc::{AllocError, Global};
use tx_model::{Lock, MAX_LOCKS, Record, Tx};

/// How many bytes spell the names.
fn names_len(locks: &[Lock]) -> usize
    requires { length locks.now ≤ MAX_LOCKS }
    ensures len { result ≡ length (spelled_names locks.now) }
    ensures short { result ≤ 65 * length locks.now }
{
    let mut len = 0;
    for lock in locks {
        len += 1 + lock.bytes().len();
    }
    len
}

/// The length of a record's body.
pub fn body_len(entry: &Record) -> usize
    ensures len { result ≡ length (record_body entry.now) }
    ensures short { result ≤ 69743 }
{
    let reads = entry.tx.reads();
    let writes = entry.tx.writes();
    47 + names_len(reads) + names_len(writes) + entry.tx.payload().len()
}

/// Adds the name of a lock behind its length. On an error some of it may stand behind what stood there.
pub fn put_name(into: &mut Vec<u8>, lock: &Lock) -> Result<(), AllocError>
    ensures ok { OnOk result (into.new.items ≡ into.old.items ++ spelled_name lock.now) }
    ensures kept { Keeps into.old.items into.new.items }
{
    let name = lock.bytes();
    into.push(name.len() as u8)?;
    into.extend_from_slice(name)?;
    Ok(())
}

fn put_names(into: &mut Vec<u8>, locks: &[Lock]) -> Result<(), AllocError>
    ensures ok { OnOk result (into.new.items ≡ into.old.items ++ spelled_names locks.now) }
    ensures kept { Keeps into.old.items into.new.items }
{
    for lock in locks {
        put_name(into, lock)?;
    }
    Ok(())
}

/// Adds how many read locks and write locks there are, and their names. On an error some of it may stand behind what stood there.
pub fn put_locks(into: &mut Vec<u8>, reads: &[Lock], writes: &[Lock]) -> Result<(), AllocError>
    requires { length reads.now + length writes.now ≤ MAX_LOCKS }
    ensures ok { OnOk result
        (into.new.items ≡ into.old.items ++ spelled_locks reads.now writes.now) }
    ensures kept { Keeps into.old.items into.new.items }
{
    into.push(reads.len() as u8)?;
    into.push(writes.len() as u8)?;
    put_names(into, reads)?;
    put_names(into, writes)?;
    Ok(())
}

/// Adds the fields of a transaction. On an error some of it may stand behind what stood there.
pub fn put_transaction(into: &mut Vec<u8>, tx: &Tx) -> Result<(), AllocError>
    ensures ok { OnOk result (into.new.items ≡ into.old.items ++ spelled_transaction tx.now) }
    ensures kept { Keeps into.old.items into.new.items }
{
    let reads = tx.reads();
    let writes = tx.writes();
    let payload = tx.payload();
    into.extend_from_slice(&tx.client().to_be_bytes())?;
    into.extend_from_slice(&tx.request().to_be_bytes())?;
    into.extend_from_slice(&tx.mark().to_be_bytes())?;
    put_locks(into, reads, writes)?;
    into.extend_from_slice(&(payload.len() as u32).to_be_bytes())?;
    into.extend_from_slice(payload)?;
    Ok(())
}

/// Adds the body of a record. On an error some of it may stand behind what stood there.
pub fn put_record(into: &mut Vec<u8>, entry: &Record) -> Result<(), AllocError>
    ensures ok { OnOk result (into.new.items ≡ into.old.items ++ record_body entry.now) }
    ensures kept { Keeps into.old.items into.new.items }
{
    into.push(1)?;
    into.extend_from_slice(&entry.id.to_be_bytes())?;
    into.extend_from_slice(&entry.session.to_be_bytes())?;
    put_transaction(into, &entry.tx)?;
    Ok(())
}

/// Adds the frame of a record. On an error some of it may stand behind what stood there.
fn put_frame(into: &mut Vec<u8>, entry: &Record, len: u32) -> Result<(), AllocError>
    requires record { IsRecord entry.now }
    requires len { len ≡ length (record_body entry.now) }
    ensures ok { OnOk result (into.new.items ≡ into.old.items ++ record_frame entry.now) }
    ensures kept { Keeps into.old.items into.new.items }
{
    let start = into.len();
    into.extend_from_slice(&len.to_be_bytes())?;
    put_record(into, entry)?;
    let check = check_of(&into[start..]);
    into.extend_from_slice(&check)?;
    Ok(())
}

/// Adds the one frame of a record, in memory that is taken once.
pub fn encode_record(_alloc: Global, entry: &Record, into: &mut Vec<u8>) -> Result<(), AllocError>
    requires { IsRecord entry.now }
    ensures ok { OnOk result (into.new.items ≡ into.old.items ++ record_frame entry.now) }
    ensures err { OnErr result (into.new.items ≡ into.old.items) }
{
    let start = into.len();
    let len = body_len(entry);
    into.reserve(12 + len)?;
    let written = put_frame(into, entry, len as u32);
    if written.is_err() {
        into.truncate(start);
    }
    written
}
