use net_model::{Cluster, Event};
use schedule_text::{LineFault, lines_are_one, read_cluster, read_event};
use std::alloc::{AllocError, Global};
use std::test::Fail;
use tx_model::Lock;

// The numbers of a first line, or none.
fn numbers(line: &[u8]) -> [u32; 5] {
    match read_cluster(line) {
        Ok(c) => [
            u32::from(c.nodes),
            u32::from(c.servers),
            u32::from(c.clients),
            u32::from(c.rows),
            c.slots,
        ],
        Err(_) => [0; 5],
    }
}

#[test]
fn every_number_of_a_first_line_has_its_range(rt: HostRuntime) {
    assert!(rt; numbers(b"cluster 7 9 8 1 4096") == [7, 9, 8, 1, 4096]);
    assert!(rt; numbers(b"cluster 1 1 9 8 1") == [1, 1, 9, 8, 1]);
    let refused: [&[u8]; 10] = [
        b"cluster 8 1 1 1 1",
        b"cluster 0 1 1 1 1",
        b"cluster 1 10 1 1 1",
        b"cluster 1 1 10 1 1",
        b"cluster 1 1 1 9 1",
        b"cluster 1 1 1 0 1",
        b"cluster 1 1 1 1 4097",
        b"cluster 1 1 1 1 1 1",
        b"cluster 1 1 1 1",
        b"cluster  1 1 1 1 1",
    ];
    for line in refused {
        assert!(rt; numbers(line) == [0; 5]);
    }
}

fn cluster() -> Cluster {
    Cluster {
        nodes: 3,
        servers: 2,
        clients: 1,
        rows: 2,
        slots: 64,
    }
}

// The second letter of a line's word and its numbers, or a mark where it is no event that is read.
fn found(alloc: Global, line: &[u8]) -> [u8; 3] {
    match read_event(alloc, line, &cluster()) {
        Ok(Event::Read(server)) => [b'e', server, 0],
        Ok(Event::Cas(server)) => [b'a', server, 0],
        Ok(Event::Tick(server)) => [b'i', server, 0],
        Ok(Event::Next) => [b'n', 0, 0],
        Ok(Event::Append(client, server, _, _, _)) => [b'p', client, server],
        Ok(Event::Ask(client, server)) => [b's', client, server],
        Ok(Event::App(client)) => [b'@', client, 0],
        Ok(_) => [b'?', 0, 0],
        Err(LineFault::Bad(_) | LineFault::Range(_)) => [b'!', 0, 0],
        Err(LineFault::Memory) => [b'm', 0, 0],
    }
}

#[test]
fn a_line_has_its_numbers(rt: HostRuntime) {
    let cases = [
        (b"read 2".as_slice(), [b'e', 2, 0]),
        (b"cas 1", [b'a', 1, 0]),
        (b"tick 2", [b'i', 2, 0]),
        (b"next", [b'n', 0, 0]),
        (b"append 1 2 - - -", [b'p', 1, 2]),
        (b"ask 1 2", [b's', 1, 2]),
        (b"app 1", [b'@', 1, 0]),
    ];
    for (line, event) in cases {
        assert!(rt; found(rt.alloc(), line) == event);
    }
}

#[test]
fn other_lines_are_bad(rt: HostRuntime) {
    let refused: [&[u8]; 24] = [
        b"read 3",
        b"read 0",
        b"read 02",
        b"cas",
        b"cas ",
        b"next ",
        b"reads 1",
        b"ask 1",
        b"ask 2 1",
        b"ask 1  1",
        b"app",
        b"append",
        b"append 2 1 a - set a 5",
        b"append 1 3 a - set a 5",
        b"append 1 a - set a 5",
        b"append 1 1  a - set a 5",
        b"append 1 1 A - set A 5",
        b"append 1 1 a, - set a 5",
        b"append 1 1 , - set a 5",
        b"append 1 1 a;b - set a 5",
        b"append 1 1 a -",
        b"append 1 1 a - ",
        b"append 1 1 a - set\ta 5",
        b"append 1 1 aaaaaaaaaaaaaaaaaaaaaaaaaaaaaaaaaaaaaaaaaaaaaaaaaaaaaaaaaaaaaaaaa - -",
    ];
    for line in refused {
        assert!(rt; found(rt.alloc(), line) == [b'!', 0, 0]);
    }
}

// Adds names, each with a space behind it.
fn add_names(locks: &[Lock], text: &mut Vec<u8>) -> Result<(), AllocError> {
    for lock in locks {
        text.extend_from_slice(lock.bytes())?;
        text.push(b' ')?;
    }
    Ok(())
}

// The write locks, the read locks and the ops of an append, with a bar between them.
fn parts(alloc: Global, line: &[u8]) -> Result<Vec<u8>, AllocError> {
    let mut text = Vec::new(alloc);
    if let Ok(Event::Append(_, _, writes, reads, ops)) = read_event(alloc, line, &cluster()) {
        add_names(writes.items(), &mut text)?;
        text.push(b'|')?;
        add_names(reads.items(), &mut text)?;
        text.push(b'|')?;
        text.extend_from_slice(ops.items())?;
    }
    Ok(text)
}

#[test]
fn an_append_has_its_keys_and_ops(rt: HostRuntime) -> Result<(), Fail> {
    let cases = [
        (
            b"append 1 2 a,b_1 - set a 5;del b_1 ".as_slice(),
            b"a b_1 ||set a 5;del b_1 ".as_slice(),
        ),
        (b"append 1 2 a c,0 -x", b"a |c 0 |-x"),
        (b"append 1 1 - a -", b"|a |"),
        (b"append 1 1 - - -", b"||"),
    ];
    for (line, text) in cases {
        assert!(rt; parts(rt.alloc(), line)?.as_slice() == text);
    }
    Ok(())
}

#[test]
fn a_line_is_one_event(_rt: HostRuntime) {
    lines_are_one();
}
