ghost use Rattle.std.specs.Prelude.{◌≡◌, ◌≤◌, ◌<◌, ◌+◌, ◌^◌, IfOk};
ghost use Rattle.tx_model.specs.Records.{IsRecord, RiseByOne};

use std::alloc::Global;
use std::test::Fail;
use tx_model::{Lock, Record, Tx};

// A record with a write lock of one byte and this payload.
pub fn entry(alloc: Global, id: u64, payload: &[u8]) -> Result<Record, Fail>
    requires some { 1 ≤ id }
    requires below { id < 2 ^ 48 }
    ensures valid { IfOk result IsRecord }
    ensures id { IfOk result (λ r. r.id ≡ id) }
{
    let mut writes = Vec::new(alloc);
    writes.push(Lock::new(alloc, b"a")?)?;
    let tx = Tx::new(
        alloc,
        1,
        1,
        0,
        Vec::new(alloc),
        writes,
        payload.to_vec(alloc)?,
    )?;
    let _payload = tx.payload();
    Ok(Record { id, session: 1, tx })
}

// Records with ids from a first one on. With a payload of seven bytes the frame of each has 68 bytes.
pub fn entries(alloc: Global, first: u64, count: u64, payload: &[u8]) -> Result<Vec<Record>, Fail>
    requires some { 1 ≤ first }
    requires below { first + count < 2 ^ 48 }
    ensures { IfOk result (λ records. RiseByOne first records.items) }
{
    let mut records = Vec::new(alloc);
    for k in 0..count {
        records.push(entry(alloc, first + k, payload)?)?;
    }
    Ok(records)
}
