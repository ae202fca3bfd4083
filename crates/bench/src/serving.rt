//! A running server of three nodes takes appends of two locks each, and every node acknowledges them, eight at a time.
ghost use Rattle.std.specs.Prelude.{◌≡◌, OnOk, IfOk};

use crate::work::Tally;
use partition_server::{Server, append_uncounted};
use proto_model::FromNode;
use std::alloc::Global;
use std::io::{self, ErrorKind};
use tx_model::{Lock, MAX_PLACE, Tx};

const ROWS: u8 = 4;

const SLOTS: u32 = 4096;

// A server of session 1 whose three nodes have adopted the empty log.
fn running(alloc: Global) -> io::Result<Server>
    ensures { IfOk result (λ server. server.known.nodes ≡ 3) }
{
    let mut server = Server::new(alloc, 3, ROWS, SLOTS)?;
    server.drew(1);
    'opened: for node in 1..4 {
        let _ = server.receive(node, FromNode::Opened(1, 0, 0, 0))?;
    }
    'adopted: for node in 1..4 {
        let _ = server.receive(node, FromNode::Adopted(1, 0))?;
    }
    Ok(server)
}

// The lock of a number's eight bytes.
fn lock_of(alloc: Global, number: u64) -> io::Result<Lock> {
    let Ok(lock) = Lock::new(alloc, &number.to_be_bytes()) else {
        return Err(ErrorKind::OutOfMemory.into());
    };
    Ok(lock)
}

// The transaction of this number, which has two write locks of its own.
fn transaction(alloc: Global, number: u64, mark: u64) -> io::Result<Tx> {
    let mut writes = Vec::with_capacity(alloc, 2)?;
    let first = number.wrapping_mul(2);
    writes.push(lock_of(alloc, first)?)?;
    writes.push(lock_of(alloc, first.wrapping_add(1))?)?;
    let Ok(tx) = Tx::new(
        alloc,
        1,
        number,
        mark,
        Vec::new(alloc),
        writes,
        Vec::new(alloc),
    ) else {
        return Err(ErrorKind::InvalidInput.into());
    };
    Ok(tx)
}

// Appends eight transactions, each at the mark of the record before it.
fn append_eight(alloc: Global, server: &mut Server) -> io::Result<()>
    requires { server.old.known.nodes ≡ 3 }
    ensures { OnOk result (server.new.known.nodes ≡ 3) }
{
    'appends: for _ in 0..8 {
        let last = server.last();
        let tx = transaction(alloc, last, last)?;
        if append_uncounted(server, tx).is_err() {
            return Err(ErrorKind::Other.into());
        }
    }
    Ok(())
}

// Each node acknowledges all records.
fn acknowledge(server: &mut Server) -> io::Result<()>
    requires { server.old.known.nodes ≡ 3 }
    ensures { OnOk result (server.new.known.nodes ≡ 3) }
{
    let last = server.last();
    if last > MAX_PLACE {
        return Err(ErrorKind::Other.into());
    }
    'nodes: for node in 1..4 {
        let _ = server.receive(node, FromNode::Acked(1, last))?;
    }
    Ok(())
}

/// Takes so many appends. The sum is how many are committed then.
pub fn serve(alloc: Global, count: u64) -> io::Result<Tally> {
    let mut server = running(alloc)?;
    'rounds: for _ in 0..count / 8 {
        append_eight(alloc, &mut server)?;
        acknowledge(&mut server)?;
    }
    Ok(Tally {
        bytes: server.last().wrapping_mul(16),
        sum: server.committed(),
    })
}

const START: u64 = 0xcbf29ce484222325;

const PRIME: u64 = 0x100000001b3;

// FNV-1a of 64 bits over a row's number and a name, as a lock table takes it.
fn hash_of(row: u8, name: &[u8]) -> u64 {
    let mut state = (START ^ u64::from(row)).wrapping_mul(PRIME);
    for byte in name {
        state = (state ^ u64::from(*byte)).wrapping_mul(PRIME);
    }
    state
}

// The sum of the slots of a name, one of each row.
fn slots_of(number: u64) -> u64 {
    let mut sum = 0u64;
    for row in 0..ROWS {
        sum = sum.wrapping_add(hash_of(row, &number.to_be_bytes()) % u64::from(SLOTS));
    }
    sum
}

/// The hashes alone of so many appends: each row's of each name, once to admit it and once to note it.
pub fn hash_alone(count: u64) -> Tally {
    let mut tally = Tally::new();
    for number in 0..count {
        let first = number.wrapping_mul(2);
        for _ in 0..2 {
            tally.add(8, slots_of(first));
            tally.add(8, slots_of(first.wrapping_add(1)));
        }
    }
    tally
}
