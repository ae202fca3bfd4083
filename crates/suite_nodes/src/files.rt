ghost use Rattle.tx_model.specs.Spelling.{IsMeta};

use crate::asks::{Ask, message};
use crate::nodes::{answer_of, status_of};
use disk_model::{Disk, LoadFault, MemDisk};
use proto_model::{NodeFault, Replica};
use record_frame::{META_FRAME, encode_meta};
use std::alloc::Global;
use std::test::Fail;
use storage_node::Node;
use tx_model::Meta;

// Adds an entry to file 0.
fn add(disk: &mut MemDisk, entry: Meta) -> Result<(), Fail>
    requires { IsMeta entry }
{
    let mut frame = [0; META_FRAME];
    let len = encode_meta(&entry, &mut frame);
    let end = disk.len(0)?;
    disk.write_at(0, end, &frame[..len.min(META_FRAME)])?;
    Ok(())
}

fn fault_of(alloc: Global, disk: MemDisk) -> Option<LoadFault> {
    match Node::load(alloc, disk) {
        Ok(_) => None,
        Err(unloaded) => Some(unloaded.fault),
    }
}

// Why a disk with a low mark alone isn't loaded.
fn low_alone(alloc: Global) -> Result<Option<LoadFault>, Fail> {
    let mut disk = MemDisk::new(alloc);
    add(&mut disk, Meta::Low(1))?;
    Ok(fault_of(alloc, disk))
}

// A node over a disk on which the greatest number of a file is used.
fn last_file(alloc: Global) -> Result<Node<MemDisk>, Fail> {
    let mut disk = MemDisk::new(alloc);
    add(&mut disk, Meta::Promise(1))?;
    add(&mut disk, Meta::Adopt(1, 1, 4294967295, 0))?;
    Ok(Node::load(alloc, disk).map_err(|u| u.fault)?)
}

// Its status after session 2 is promised, and how long its file 0 is.
fn promised(alloc: Global) -> Result<([u64; 4], usize), Fail> {
    let mut node = last_file(alloc)?;
    answer_of(alloc, &mut node, (2, Ask::Open))?;
    let status = status_of(&node);
    Ok((status, node.into_disk().bytes(0).len()))
}

// Why it then adopts no other log, and the same afterwards.
fn full(alloc: Global) -> Result<(Option<NodeFault>, [u64; 4], usize), Fail> {
    let mut node = last_file(alloc)?;
    answer_of(alloc, &mut node, (2, Ask::Open))?;
    let fault = node.step(&message(alloc, (2, Ask::Adopt(0)))?).err();
    let status = status_of(&node);
    Ok((fault, status, node.into_disk().bytes(0).len()))
}

#[test]
fn an_illegal_entry_is_damage(rt: HostRuntime) -> Result<(), Fail> {
    assert!(rt; low_alone(rt.alloc())? == Some(LoadFault::Damaged(0, 0)));
    Ok(())
}

// Two promises have 21 bytes each, and the adoption between them 41.
#[test]
fn the_last_file_is_not_followed(rt: HostRuntime) -> Result<(), Fail> {
    let alloc = rt.alloc();
    assert!(rt; status_of(&last_file(alloc)?) == [1, 1, 0, 0]);
    assert!(rt; promised(alloc)? == ([2, 1, 0, 0], 83));
    assert!(rt; full(alloc)? == (Some(NodeFault::Full), [2, 1, 0, 0], 83));
    Ok(())
}
