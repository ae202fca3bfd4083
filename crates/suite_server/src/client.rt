ghost use Rattle.std.specs.Prelude.{◌≡◌, IfOk};
ghost use Rattle.proto_model.specs.Validity.{HasPlace};

use client_core::*;
use kv_app::KvApp;
use proto_model::{BuildFault, FromServer, ToServer};
use std::alloc::Global;
use std::test::Fail;
use tx_model::{Heads, Lock, Record, Tx};

// Locks with names of one byte each.
fn locks(alloc: Global, names: &[u8]) -> Result<Vec<Lock>, Fail> {
    let mut locks = Vec::new(alloc);
    for name in names {
        locks.push(Lock::new(alloc, &[*name])?)?;
    }
    Ok(locks)
}

// A record that adds 5 to `a`.
fn entry(alloc: Global, id: u16, session: u64) -> Result<Record, Fail>
    ensures { IfOk result (λ entry. entry.id ≡ id) }
{
    let payload = b"add a 5".to_vec(alloc)?;
    let tx = Tx::new(
        alloc,
        1,
        1,
        0,
        Vec::new(alloc),
        locks(alloc, b"a")?,
        payload,
    )?;
    Ok(Record {
        id: u64::from(id),
        session,
        tx,
    })
}

// What a server tells of such records.
#[derive(Clone, Copy)]
enum Told<'a> {
    // Heads that were asked for from the first number on, of the session 4.
    Heads(u64, &'a [u16]),
    // The record of this id and session.
    Entry(u16, u64),
    // An answer that is none to an ask.
    Flushed,
}

fn answer(alloc: Global, told: Told<'_>) -> Result<FromServer, Fail>
    ensures { IfOk result HasPlace }
{
    match told {
        Told::Heads(from, ids) => {
            let mut heads = Vec::new(alloc);
            for id in ids {
                heads.push(entry(alloc, *id, 4)?.head(alloc)?)?;
            }
            Ok(FromServer::Heads(from, 9, Heads::new(heads)))
        }
        Told::Entry(id, session) => Ok(FromServer::Entry(entry(alloc, id, session)?)),
        Told::Flushed => Ok(FromServer::Flushed(9)),
    }
}

// The id that is asked for next, and how many heads of that, 0 where the record is.
fn ask(client: &Client<KvApp>) -> (u64, u8) {
    match client.next_ask() {
        ToServer::Feed(from, max) => (from, max),
        ToServer::Get(id) => (id, 0),
        _ => (0, 0),
    }
}

#[test]
fn each_record_is_applied_once(rt: HostRuntime) -> Result<(), Fail> {
    let alloc = rt.alloc();
    let mut client = Client::new(alloc, 1, 1, KvApp::new(alloc));
    let cases = [
        (Told::Flushed, false, (1, 16), "the first ask"),
        (Told::Entry(1, 4), false, (1, 16), "no head is kept"),
        (Told::Heads(1, &[]), false, (1, 16), "there is no head"),
        (
            Told::Heads(2, &[2]),
            false,
            (1, 16),
            "a gap before the heads",
        ),
        (
            Told::Heads(1, &[1, 3]),
            false,
            (1, 16),
            "a gap among the heads",
        ),
        (Told::Heads(1, &[1, 2]), true, (1, 0), "heads"),
        (Told::Heads(1, &[1]), false, (1, 0), "heads are kept"),
        (Told::Entry(2, 4), false, (1, 0), "a gap before the record"),
        (Told::Entry(1, 4), true, (2, 0), "the next record"),
        (Told::Entry(1, 4), false, (2, 0), "the same record again"),
        (
            Told::Entry(2, 5),
            false,
            (2, 16),
            "another record than was told",
        ),
        (Told::Entry(2, 4), false, (2, 16), "all heads are dropped"),
        (Told::Heads(2, &[2]), true, (2, 0), "heads again"),
    ];
    for (told, moved, next, why) in cases {
        let found = client.receive(&answer(alloc, told)?)?;
        assert!(rt; found == moved && ask(&client) == next, "{why}");
        assert!(rt; client.mark() + 1 == next.0, "{why}");
    }
    assert!(rt; client.app().get(b"a") == Some(5));
    Ok(())
}

// Why nothing is built: the reason's place among the reasons, counted from 1, and the number that it tells.
fn refused(fault: BuildFault) -> [u64; 2] {
    match fault {
        BuildFault::BadOps(at) => [1, at],
        BuildFault::TooManyLocks => [2, 0],
        BuildFault::DoubleLock => [3, 0],
        BuildFault::PayloadTooLong => [4, 0],
        BuildFault::Unlocked(key) => [5, first_byte(&key)],
        BuildFault::LastRequest => [6, 0],
        BuildFault::Memory => [7, 0],
    }
}

// What comes of building with this next request number: a reason, or 0 and the number of the request after it.
fn build(
    alloc: Global,
    request: u64,
    writes: &[u8],
    reads: &[u8],
    ops: &[u8],
) -> Result<[u64; 2], Fail> {
    let mut client = Client::new(alloc, 7, request.max(1), KvApp::new(alloc));
    if let Err(fault) = client.build(locks(alloc, writes)?, locks(alloc, reads)?, ops) {
        return Ok(refused(fault));
    }
    Ok([0, client.request()])
}

fn first_byte(lock: &Lock) -> u64 {
    match lock.bytes().first() {
        Some(byte) => u64::from(*byte),
        None => 0,
    }
}

#[test]
fn a_transaction_is_built_or_refused(rt: HostRuntime) -> Result<(), Fail> {
    let mut many = [0; 65];
    for (place, name) in many.iter_mut().enumerate() {
        *name = place as u8;
    }
    let cases = [
        (
            3,
            b"b".as_slice(),
            b"a".as_slice(),
            b"set b 1;add c 1;del a".as_slice(),
            [5, 97],
        ),
        (3, b"aa", b"", b"put a 5", [1, 1]),
        (3, b"ab", b"b", b"set c 5", [3, 0]),
        (3, b"ba", b"c", b"del a", [0, 4]),
        (3, b"a", b"", b"set b 5", [5, 98]),
        (3, &many, b"", b"del a", [2, 0]),
        (3, &many[1..], b"", b"", [0, 4]),
        (u64::MAX, b"", b"", b"", [6, 0]),
        (u64::MAX, b"", b"", b"del a", [5, 97]),
        (u64::MAX - 1, b"", b"", b"", [0, u64::MAX]),
    ];
    for (request, writes, reads, ops, wanted) in cases {
        let found = build(rt.alloc(), request, writes, reads, ops)?;
        assert!(rt; found == wanted);
    }
    Ok(())
}

#[test]
fn a_transaction_says_what_was_asked(rt: HostRuntime) -> Result<(), Fail> {
    let alloc = rt.alloc();
    let mut client = Client::new(alloc, 7, 3, KvApp::new(alloc));
    let Ok(tx) = client.build(locks(alloc, b"ba")?, locks(alloc, b"c")?, b"del a") else {
        return Err(Fail::from("refused"));
    };
    assert!(rt; [tx.client(), tx.request(), tx.mark()] == [7, 3, 0]);
    assert!(rt; tx.writes() == locks(alloc, b"ab")?.as_slice());
    assert!(rt; tx.payload() == b"del a".as_slice());
    Ok(())
}
