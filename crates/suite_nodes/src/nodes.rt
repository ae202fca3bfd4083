use crate::asks::{Ask, Turn, message, told};
use disk_model::MemDisk;
use proto_model::{Crashing, Replica};
use std::alloc::Global;
use std::test::Fail;
use storage_node::Node;

// Promised, adopted, low and length.
pub fn status_of(node: &Node<MemDisk>) -> [u64; 4] {
    let status = node.status();
    [status.promised, status.adopted, status.low, status.length]
}

// What a node tells in its reply.
pub fn answer_of(alloc: Global, node: &mut Node<MemDisk>, turn: Turn) -> Result<[u64; 5], Fail> {
    let m = message(alloc, turn)?;
    let reply = node.step(&m)?;
    Ok(told(&reply))
}

// It stops within a message, once so many bytes are written.
pub fn tear(alloc: Global, node: &mut Node<MemDisk>, turn: Turn, keep: u64) -> Result<(), Fail> {
    let m = message(alloc, turn)?;
    node.step_torn(&m, keep)?;
    Ok(())
}

// A node over an empty disk that took these messages.
pub fn node_after(alloc: Global, turns: &[Turn]) -> Result<Node<MemDisk>, Fail> {
    let mut node = Node::fresh(alloc)?;
    for turn in turns {
        answer_of(alloc, &mut node, *turn)?;
    }
    Ok(node)
}

// The status after an adoption that stops so, and what an append is answered then.
fn torn_adoption(alloc: Global, keep: u64) -> Result<([u64; 4], [u64; 5]), Fail> {
    let mut node = node_after(alloc, &[(1, Ask::Open)])?;
    tear(alloc, &mut node, (1, Ask::Adopt(0)), keep)?;
    let status = status_of(&node);
    let answer = answer_of(alloc, &mut node, (1, Ask::Append(1, 2)))?;
    Ok((status, answer))
}

// The status after an append of two records that stops so.
fn torn_append(alloc: Global, keep: u64) -> Result<[u64; 4], Fail> {
    let mut node = node_after(alloc, &[(1, Ask::Open), (1, Ask::Adopt(0))])?;
    tear(alloc, &mut node, (1, Ask::Append(1, 2)), keep)?;
    Ok(status_of(&node))
}

// An adoption's entry has 41 bytes. Below that it is not adopted, and then two records are acknowledged.
#[test]
fn an_adoption_may_stop_within(rt: HostRuntime) -> Result<(), Fail> {
    assert!(rt; torn_adoption(rt.alloc(), 40)? == ([1, 0, 0, 0], [9, 1, 0, 0, 0]));
    assert!(rt; torn_adoption(rt.alloc(), 41)? == ([1, 1, 0, 0], [7, 1, 2, 0, 0]));
    Ok(())
}

// Each record's frame has 68 bytes.
#[test]
fn an_append_may_stop_within(rt: HostRuntime) -> Result<(), Fail> {
    for (keep, length) in [(67, 0), (100, 1), (136, 2)] {
        assert!(rt;
            torn_append(rt.alloc(), keep)? == [1, 1, 0, length],
            "at {keep}"
        );
    }
    Ok(())
}

// A log of ten records that is replaced by one of nine.
const REPLACED: [Turn; 8] = [
    (5, Ask::Open),
    (5, Ask::Adopt(0)),
    (5, Ask::Append(1, 8)),
    (5, Ask::Append(9, 2)),
    (7, Ask::Open),
    (7, Ask::Stage(1, 8)),
    (7, Ask::Stage(9, 1)),
    (7, Ask::Adopt(9)),
];

fn replaced(alloc: Global) -> Result<[u64; 4], Fail> {
    Ok(status_of(&node_after(alloc, &REPLACED)?))
}

#[test]
fn a_long_stale_tail_is_gone(rt: HostRuntime) -> Result<(), Fail> {
    assert!(rt; replaced(rt.alloc())? == [7, 7, 0, 9]);
    Ok(())
}
