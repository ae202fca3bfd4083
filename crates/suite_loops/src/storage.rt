use crate::bytes::{BYE, DONE, NO, READ, all_bytes, are};
use disk_model::MemDisk;
use io_core::{MemPort, MemSink};
use node_loops::serve_storage;
use proto_model::Replica;
use std::alloc::Global;
use std::test::Fail;
use storage_node::Node;

const OPEN_1: &str = "0000000a 01 01 0000000000000001";

const OPENED_1: &str =
    "00000022 02 01 0000000000000001 0000000000000000 0000000000000000 0000000000000000";

// The front of the one entry of file 0: its length, its kind and the promised session. Eight bytes of a check follow.
const PROMISE_1: &[u8] = b"\0\0\0\x09\x01\0\0\0\0\0\0\0\x01";

// Whether a node over an empty disk of which this call fails answers so, ends so and prints this. Then there is one entry,
// and loaded again the node has promised session 1.
fn serves(alloc: Global, call: u64, want: (&[&str], u8, &str)) -> Result<bool, Fail> {
    let disk = MemDisk::failing(alloc, vec![in alloc; call]?);
    let mut node = Node::load(alloc, disk).map_err(|u| u.fault)?;
    let requests = all_bytes(alloc, &[OPEN_1, READ, BYE])?;
    let mut port = MemPort::new(alloc, requests, Vec::new(alloc));
    let mut sink = MemSink::new(alloc, Vec::new(alloc));
    let status = serve_storage(alloc, &mut node, &mut port, 7001, &mut sink);
    let disk = node.into_disk();
    let file = disk.bytes(0);
    let promised = file.len() == 21 && file.starts_with(PROMISE_1);
    let again = Node::load(alloc, disk).map_err(|u| u.fault)?;
    let (answers, due, text) = want;
    Ok(
        are(alloc, port.answers(), answers)?
            && status == due
            && sink.bytes() == text.as_bytes()
            && promised
            && again.status().promised == 1,
    )
}

#[test]
fn a_node_answers_its_own_family(rt: HostRuntime) -> Result<(), Fail> {
    let answers = [OPENED_1, NO, DONE];
    let want = (answers.as_slice(), 0, "listening 7001\nend bye\n");
    assert!(rt; serves(rt.alloc(), 0, want)?);
    Ok(())
}

#[test]
fn a_node_whose_sync_fails_ends_without_an_answer(rt: HostRuntime) -> Result<(), Fail> {
    // Loading an empty file asks for its length, cuts and syncs. Then comes the write of the entry, which stays, and its
    // sync.
    let none = [""; 0];
    let want = (none.as_slice(), 12, "listening 7001\n! disk\n");
    assert!(rt; serves(rt.alloc(), 5, want)?);
    Ok(())
}
