ghost use Rattle.std.specs.Prelude.{◌≤◌, ◌<◌, ◌+◌, ◌^◌, All, IfOk};
ghost use Rattle.tx_model.specs.Records.{IsRecord};
ghost use Rattle.tx_model.specs.Spelling.{IsCount};
ghost use Rattle.proto_model.specs.Sanity.{request_session};
ghost use Rattle.proto_model.specs.Validity.{IsValidToNode};

use proto_model::{FromNode, ToNode};
use std::alloc::Global;
use std::test::Fail;
use tx_model::{Batch, Lock, Record, Tx};

// A message to a node without its session. Of a batch it has the first id, and how many records there are.
#[derive(Clone, Copy)]
pub enum Ask {
    Open,
    Fetch(u16, u8),
    Stage(u16, u8),
    Adopt(u16),
    Append(u16, u8),
    Low(u16),
}

// A message of a session.
pub type Turn = (u8, Ask);

// A record whose frame has 68 bytes, and whose payload ends with the session.
fn entry(alloc: Global, session: u8, id: u64) -> Result<Record, Fail>
    requires some { 1 ≤ id }
    requires below { id < 2 ^ 48 }
    ensures { IfOk result IsRecord }
{
    let mut writes = Vec::new(alloc);
    writes.push(Lock::new(alloc, b"a")?)?;
    let payload = [b's', b'e', b't', b' ', b'a', b' ', session].to_vec(alloc)?;
    let tx = Tx::new(alloc, 1, 1, 0, Vec::new(alloc), writes, payload)?;
    let _payload = tx.payload();
    Ok(Record { id, session: 1, tx })
}

// Such records with ids from a first one on.
fn entries(alloc: Global, session: u8, first: u64, count: u64) -> Result<Vec<Record>, Fail>
    requires some { 1 ≤ first }
    requires below { first + count < 2 ^ 48 }
    ensures { IfOk result (λ records. All IsRecord records.items) }
{
    let mut records = Vec::new(alloc);
    for k in 0..count {
        records.push(entry(alloc, session, first + k)?)?;
    }
    Ok(records)
}

fn batch(alloc: Global, session: u8, first: u16, count: u8) -> Result<Batch, Fail> {
    let records = entries(alloc, session, u64::from(first.max(1)), u64::from(count))?;
    Ok(Batch::new(records)?)
}

pub fn message(alloc: Global, turn: Turn) -> Result<ToNode, Fail>
    ensures valid { IfOk result IsValidToNode }
    ensures session { IfOk result (λ m. IsCount (request_session m)) }
{
    let (session, ask) = turn;
    let number = u64::from(session.max(1));
    match ask {
        Ask::Open => Ok(ToNode::Open(number)),
        Ask::Fetch(from, max) => Ok(ToNode::Fetch(
            number,
            u64::from(from.max(1)),
            max.max(1).min(8),
        )),
        Ask::Stage(first, count) => {
            let batch = batch(alloc, session, first, count)?;
            Ok(ToNode::Stage(number, batch))
        }
        Ask::Adopt(length) => Ok(ToNode::Adopt(number, u64::from(length))),
        Ask::Append(first, count) => {
            let batch = batch(alloc, session, first, count)?;
            Ok(ToNode::Append(number, batch))
        }
        Ask::Low(low) => Ok(ToNode::Low(number, u64::from(low))),
    }
}

// What tells lists of bytes apart.
fn mixed(sum: u64, bytes: &[u8]) -> u64 {
    let mut sum = sum;
    for byte in bytes {
        sum = sum.wrapping_mul(257).wrapping_add(u64::from(*byte) + 1);
    }
    sum
}

// What tells lists of records apart: their ids and payloads in one number.
pub fn sum_of(records: &[Record]) -> u64 {
    let mut sum = 1;
    for record in records {
        sum = mixed(sum, &record.id.to_be_bytes());
        sum = mixed(sum, record.tx.payload());
    }
    sum
}

// Which reply it is, and its numbers: of a batch the first id, how many records there are, and what tells them apart.
pub fn told(reply: &FromNode) -> [u64; 5] {
    match reply {
        FromNode::Opened(session, adopted, low, length) => [0, *session, *adopted, *low, *length],
        FromNode::Stale(session, promised) => [1, *session, *promised, 0, 0],
        FromNode::Unopened(session, promised) => [2, *session, *promised, 0, 0],
        FromNode::Records(session, batch) => told_of(*session, batch),
        FromNode::Staged(session, upto) => [4, *session, *upto, 0, 0],
        FromNode::StageAt(session, next) => [5, *session, *next, 0, 0],
        FromNode::Adopted(session, length) => [6, *session, *length, 0, 0],
        FromNode::Acked(session, length) => [7, *session, *length, 0, 0],
        FromNode::Gap(session, length) => [8, *session, *length, 0, 0],
        FromNode::NotAdopted(session, adopted) => [9, *session, *adopted, 0, 0],
        FromNode::LowSet(session, low) => [10, *session, *low, 0, 0],
    }
}

fn told_of(session: u64, batch: &Batch) -> [u64; 5] {
    let count = u64::from(batch.len());
    [3, session, batch.first(), count, sum_of(batch.records())]
}
