use client_loop::run_client;
use io_core::{MemLink, MemSink, MemSource};
use std::alloc::Global;
use std::test::Fail;

// The heads from this id on: one, of session 1, at mark 0 and with the write lock `a`.
fn heads_from(alloc: Global, id: u64) -> Option<Vec<u8>> {
    let mut bytes = Vec::from_slice(alloc, b"\0\0\0\x2f\x04\x04").ok()?;
    for number in [id, id] {
        bytes.extend_from_slice(&number.to_be_bytes()).ok()?;
    }
    bytes.push(1).ok()?;
    for number in [id, 1, 0] {
        bytes.extend_from_slice(&number.to_be_bytes()).ok()?;
    }
    bytes.extend_from_slice(b"\0\x01\x01a").ok()?;
    Some(bytes)
}

// The record that this head tells of, of client 1: it adds 1 to `a`.
fn entry_of(alloc: Global, id: u64) -> Option<Vec<u8>> {
    let mut bytes = Vec::from_slice(alloc, b"\0\0\0\x3e\x04\x05\0\0\0\x38\x01").ok()?;
    for number in [id, 1, 1, id, 0] {
        bytes.extend_from_slice(&number.to_be_bytes()).ok()?;
    }
    bytes
        .extend_from_slice(b"\0\x01\x01a\0\0\0\x07add a 1")
        .ok()?;
    Some(bytes)
}

// Heads of one record and then that record, so often.
fn records(alloc: Global, count: u64) -> Option<Vec<Vec<u8>>> {
    let mut replies = Vec::new(alloc);
    for place in 0..count {
        let heads = heads_from(alloc, place + 1)?;
        replies.push(heads).ok()?;
        let entry = entry_of(alloc, place + 1)?;
        replies.push(entry).ok()?;
    }
    Some(replies)
}

// What a script prints where so many records are shown one by one.
fn printed(alloc: Global, script: &str, count: u64) -> Option<Vec<u8>> {
    let bytes = Vec::from_slice(alloc, script.as_bytes()).ok()?;
    let mut source = MemSource::new(bytes, 7, Vec::new(alloc));
    let mut link = MemLink::new(alloc, records(alloc, count)?, Vec::new(alloc));
    let mut sink = MemSink::new(alloc, Vec::new(alloc));
    run_client(alloc, &mut source, &mut link, 1, 7100, &mut sink);
    Vec::from_slice(alloc, sink.bytes()).ok()
}

#[test]
fn a_sync_stops_after_a_hundred_thousand_asks(rt: HostRuntime) -> Result<(), Fail> {
    let text = printed(rt.alloc(), "sync\napp\n", 50000);
    let want = b"mark 50000 more\napp 1 mark=50000 a=50000\n";
    assert!(rt; text.is_some_and(|text| text.as_slice() == want.as_slice()));
    Ok(())
}
