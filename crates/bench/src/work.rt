//! The work that is measured, over records with two locks and a payload of 100 bytes.
ghost use Rattle.std.specs.Prelude.{◌≡◌, ◌≤◌, ◌<◌, ◌^◌, IfOk};
ghost use Rattle.tx_model.specs.Records.{IsRecord};

use record_frame::{decode_record, encode_record};
use sha2::{Digest, Sha256};
use std::alloc::Global;
use std::io::{self, ErrorKind};
use tx_model::{Lock, Record, Tx};

/// How many bytes were worked on, and a sum that depends on all of them. Both wrap.
#[derive(Clone, Copy, Debug, PartialEq, Eq)]
pub struct Tally {
    pub bytes: u64,
    pub sum: u64,
}

impl Tally {
    pub fn new() -> Tally {
        Tally { bytes: 0, sum: 0 }
    }

    pub fn add(&mut self, len: usize, value: u64) {
        self.bytes = self.bytes.wrapping_add(len as u64);
        self.sum = self.sum.wrapping_add(value);
    }
}

/// A record with a read lock and a write lock of eight bytes each.
pub fn example(alloc: Global, id: u64) -> io::Result<Record>
    requires some { 1 ≤ id }
    requires below { id < 2 ^ 48 }
    ensures valid { IfOk result IsRecord }
    ensures id { IfOk result (λ r. r.id ≡ id) }
{
    let mut reads = Vec::new(alloc);
    let mut writes = Vec::new(alloc);
    reads.push(Lock::of_name(alloc, b"account1")?)?;
    writes.push(Lock::of_name(alloc, b"account2")?)?;
    let payload = vec![in alloc; b'x'; 100]?;
    let Ok(tx) = Tx::new(alloc, 1, id, 0, reads, writes, payload) else {
        return Err(ErrorKind::InvalidInput.into());
    };
    let _payload = tx.payload();
    Ok(Record { id, session: 1, tx })
}

fn frame(alloc: Global, id: u64) -> io::Result<Vec<u8>>
    requires some { 1 ≤ id }
    requires below { id < 2 ^ 48 }
{
    let mut bytes = Vec::new(alloc);
    encode_record(alloc, &example(alloc, id)?, &mut bytes)?;
    Ok(bytes)
}

/// Encodes a record, each time with the next id.
pub fn encode(alloc: Global, times: u64) -> io::Result<Tally> {
    let mut tally = Tally::new();
    let mut entry = example(alloc, 1)?;
    let mut bytes = Vec::new(alloc);
    for turn in 0..times {
        entry.id = turn % 1_000_000_000 + 1;
        bytes.clear();
        encode_record(alloc, &entry, &mut bytes)?;
        tally.add(bytes.len(), bytes.last().map_or(0, |b| u64::from(*b)));
    }
    Ok(tally)
}

/// Decodes two frames in turn.
pub fn decode(alloc: Global, times: u64) -> io::Result<Tally> {
    let mut tally = Tally::new();
    let even = frame(alloc, 1)?;
    let odd = frame(alloc, 2)?;
    for turn in 0..times {
        let bytes = if turn % 2 == 0 { &even } else { &odd };
        let Ok((entry, len)) = decode_record(alloc, bytes) else {
            return Err(ErrorKind::InvalidData.into());
        };
        tally.add(len, entry.id.wrapping_add(entry.tx.payload().len() as u64));
    }
    Ok(tally)
}

/// Hashes a frame, of which each digest changes a byte.
pub fn digest(alloc: Global, times: u64) -> io::Result<Tally> {
    let mut tally = Tally::new();
    let mut bytes = frame(alloc, 1)?;
    for _ in 0..times {
        let digest = Sha256::digest(&bytes);
        if let Some(first) = bytes.first_mut() {
            *first = digest[0];
        }
        tally.add(bytes.len(), u64::from(digest[31]));
    }
    Ok(tally)
}
