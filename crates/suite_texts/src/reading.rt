//! The lines of schedules and of client scripts: what each form says, and where and why a line is none.
use LineFault::{Bad, Range};
use net_model::{Cluster, Event};
use schedule_text::{LineFault, Name, ScriptLine, read_cluster, read_event, read_script};
use std::alloc::{AllocError, Global};
use std::test::Fail;
use tx_model::Lock;

fn cluster() -> Cluster {
    Cluster {
        nodes: 3,
        servers: 2,
        clients: 4,
        rows: 2,
        slots: 64,
    }
}

// The place of an event among the events, counted from 1, and its numbers.
fn numbers(event: &Event) -> [u64; 4] {
    match event {
        Event::Read(v) => [1, u64::from(*v), 0, 0],
        Event::Cas(v) => [2, u64::from(*v), 0, 0],
        Event::Waste(v) => [3, u64::from(*v), 0, 0],
        Event::Tick(v) => [4, u64::from(*v), 0, 0],
        Event::Next => [5, 0, 0, 0],
        Event::Skip => [6, 0, 0, 0],
        Event::Deliver(e) => [7, u64::from(*e), 0, 0],
        Event::Tear(e, k) => [8, u64::from(*e), u64::from(*k), 0],
        Event::Crash(r) => [9, u64::from(*r), 0, 0],
        Event::Restart(v) => [10, u64::from(*v), 0, 0],
        Event::Reboot(c) => [11, u64::from(*c), 0, 0],
        Event::Append(c, v, _, _, _) => [12, u64::from(*c), u64::from(*v), 0],
        Event::Ask(c, v) => [13, u64::from(*c), u64::from(*v), 0],
        Event::Flush(c, v) => [14, u64::from(*c), u64::from(*v), 0],
        Event::Show(r) => [15, u64::from(*r), 0, 0],
        Event::Server(v) => [16, u64::from(*v), 0, 0],
        Event::App(c) => [17, u64::from(*c), 0, 0],
        Event::Log(f) => [18, *f, 0, 0],
        Event::Dump(r, f, a) => [19, u64::from(*r), u64::from(*f), u64::from(*a)],
    }
}

fn event(alloc: Global, line: &[u8]) -> [u64; 4] {
    match read_event(alloc, line, &cluster()) {
        Ok(event) => numbers(&event),
        Err(_) => [0; 4],
    }
}

#[test]
fn every_form_has_its_numbers(rt: HostRuntime) {
    let cases = [
        (b"read 2".as_slice(), [1, 2, 0, 0]),
        (b"cas 1", [2, 1, 0, 0]),
        (b"waste 2", [3, 2, 0, 0]),
        (b"tick 1", [4, 1, 0, 0]),
        (b"next", [5, 0, 0, 0]),
        (b"skip", [6, 0, 0, 0]),
        (b"deliver 4294967295", [7, 4294967295, 0, 0]),
        (b"tear 7 1000000", [8, 7, 1000000, 0]),
        (b"crash 3", [9, 3, 0, 0]),
        (b"restart 2", [10, 2, 0, 0]),
        (b"reboot 4", [11, 4, 0, 0]),
        (b"append 4 2 a - set a 5", [12, 4, 2, 0]),
        (b"ask 3 2", [13, 3, 2, 0]),
        (b"flush 4 1", [14, 4, 1, 0]),
        (b"show 3", [15, 3, 0, 0]),
        (b"server 2", [16, 2, 0, 0]),
        (b"app 4", [17, 4, 0, 0]),
        (b"log 281474976710655", [18, 281474976710655, 0, 0]),
        (b"dump 3 4294967295 0", [19, 3, 4294967295, 0]),
    ];
    for (line, want) in cases {
        assert!(rt; event(rt.alloc(), line) == want);
    }
}

fn fault(alloc: Global, line: &[u8]) -> Option<LineFault> {
    match read_event(alloc, line, &cluster()) {
        Ok(_) => None,
        Err(fault) => Some(fault),
    }
}

#[test]
fn a_line_stops_where_no_form_goes_on(rt: HostRuntime) {
    let cases = [
        (b"".as_slice(), 1),
        (b"xtick", 1),
        (b"Next", 1),
        (b"re", 3),
        (b"tick", 5),
        (b"tick ", 6),
        (b"tick  1", 6),
        (b"next ", 5),
        (b"serve 1", 6),
        (b"app", 4),
        (b"appends", 7),
        (b"ask 1", 6),
        (b"ask 1 2 ", 8),
        (b"read 02", 7),
        (b"read +2", 6),
        (b"read 1\r", 7),
    ];
    for (line, at) in cases {
        assert!(rt; fault(rt.alloc(), line) == Some(Bad(at)));
    }
}

#[test]
fn keys_and_ops_stop_at_their_first_wrong_byte(rt: HostRuntime) {
    let cases = [
        (b"append 1 1 ,a - x".as_slice(), 12),
        (b"append 1 1 -a - x", 13),
        (b"append 1 1 a, - x", 14),
        (b"append 1 1 a,- - x", 14),
        (b"append 1 1 A - x", 12),
        (b"append 1 1 a  - x", 14),
        (b"append 1 1 a -", 15),
        (b"append 1 1 a b ", 16),
        (b"append 1 1 a b x\ty", 17),
        (b"append 1 1 a b \x7f", 16),
    ];
    for (line, at) in cases {
        assert!(rt; fault(rt.alloc(), line) == Some(Bad(at)));
    }
}

#[test]
fn the_first_number_out_of_range_has_its_name(rt: HostRuntime) {
    let cases = [
        (b"tick 3".as_slice(), Name::Server),
        (b"tick 0", Name::Server),
        (b"tick 18446744073709551615", Name::Server),
        (b"append 5 3 a b c", Name::Client),
        (b"ask 4 3", Name::Server),
        (b"crash 4", Name::Node),
        (b"deliver 4294967296", Name::Envelope),
        (b"tear 0 1000001", Name::Envelope),
        (b"tear 1 1000001", Name::Bytes),
        (b"log 281474976710656", Name::From),
        (b"log 0", Name::From),
        (b"dump 1 4294967296 4294967296", Name::File),
        (b"dump 1 0 4294967296", Name::At),
    ];
    for (line, name) in cases {
        assert!(rt; fault(rt.alloc(), line) == Some(Range(name)));
    }
}

#[test]
fn a_broken_line_is_told_by_its_place_though_a_number_is_out_of_range(rt: HostRuntime) {
    for (line, at) in [
        (b"tick 9 ".as_slice(), 7),
        (b"append 9 9 a b ", 16),
        (b"tick 18446744073709551616", 25),
        (b"tick 184467440737095516150", 26),
    ] {
        assert!(rt; fault(rt.alloc(), line) == Some(Bad(at)));
    }
}

#[test]
fn the_least_and_the_greatest_numbers_are_in_range(rt: HostRuntime) {
    for line in [
        b"tear 1 0".as_slice(),
        b"dump 3 4294967295 4294967295",
        b"dump 1 0 0",
        b"log 1",
        b"append 1 1 - - -",
        b"append 1 1 a - --",
    ] {
        assert!(rt; fault(rt.alloc(), line) == None);
    }
}

// The line of an append with so many bytes, of which the last is another.
fn long_line(alloc: Global, count: usize, last: u8) -> Result<Vec<u8>, AllocError> {
    let mut line = Vec::from_slice(alloc, b"append 1 1 a - ")?;
    for _ in 16..count {
        line.push(b'x')?;
    }
    line.push(last)?;
    Ok(line)
}

#[test]
fn a_line_of_more_than_512_bytes_stops_there_at_the_latest(rt: HostRuntime) -> Result<(), Fail> {
    let cases = [
        (512, b'x', None),
        (513, b'x', Some(Bad(513))),
        (600, b'x', Some(Bad(513))),
        (600, b'\t', Some(Bad(513))),
        (513, b'\t', Some(Bad(513))),
        (512, b'\t', Some(Bad(512))),
    ];
    for (count, last, want) in cases {
        let line = long_line(rt.alloc(), count, last)?;
        assert!(rt; fault(rt.alloc(), &line) == want);
    }
    Ok(())
}

fn first(line: &[u8]) -> Option<LineFault> {
    match read_cluster(line) {
        Ok(_) => None,
        Err(fault) => Some(fault),
    }
}

#[test]
fn a_first_line_has_its_place_and_its_names(rt: HostRuntime) {
    let cases = [
        (b"".as_slice(), Some(Bad(1))),
        (b"next", Some(Bad(1))),
        (b"cluster 7 9 9 8 4096", None),
        (b"cluster 8 1 1 1 1", Some(Range(Name::Nodes))),
        (b"cluster 1 0 1 1 1", Some(Range(Name::Servers))),
        (b"cluster 1 1 10 9 1", Some(Range(Name::Clients))),
        (b"cluster 1 1 1 9 1", Some(Range(Name::Rows))),
        (b"cluster 7 9 9 8 4097", Some(Range(Name::Slots))),
        (b"cluster 7 9 9 8 ", Some(Bad(17))),
        (b"cluster 07 9 9 8 1", Some(Bad(10))),
        (b"cluster 1 1 1 1 1 1", Some(Bad(18))),
    ];
    for (line, want) in cases {
        assert!(rt; first(line) == want);
    }
}

// Adds names, each with a space behind it.
fn add_names(locks: &[Lock], text: &mut Vec<u8>) -> Result<(), AllocError> {
    for lock in locks {
        text.extend_from_slice(lock.bytes())?;
        text.push(b' ')?;
    }
    Ok(())
}

// What a script's line says: of an append the write locks, the read locks and the ops, with a bar between them.
fn script(alloc: Global, line: &[u8]) -> Result<Vec<u8>, AllocError> {
    match read_script(alloc, line) {
        Ok(ScriptLine::Append(writes, reads, ops)) => {
            let mut text = Vec::new(alloc);
            add_names(writes.items(), &mut text)?;
            text.push(b'|')?;
            add_names(reads.items(), &mut text)?;
            text.push(b'|')?;
            text.extend_from_slice(ops.items())?;
            Ok(text)
        }
        Ok(ScriptLine::Sync) => Vec::from_slice(alloc, b"sync"),
        Ok(ScriptLine::App) => Vec::from_slice(alloc, b"app"),
        Ok(ScriptLine::Flush) => Vec::from_slice(alloc, b"flush"),
        Err(_) => Ok(Vec::new(alloc)),
    }
}

#[test]
fn a_script_says_what_the_client_does(rt: HostRuntime) -> Result<(), Fail> {
    let cases = [
        (b"append a - set a 5".as_slice(), b"a ||set a 5".as_slice()),
        (b"append a,b_1 c,0 x ", b"a b_1 |c 0 |x "),
        (b"append - - -", b"||"),
        (b"append 1 1 a - x", b"1 |1 |a - x"),
        (b"sync", b"sync"),
        (b"app", b"app"),
        (b"flush", b"flush"),
    ];
    for (line, text) in cases {
        assert!(rt; script(rt.alloc(), line)?.as_slice() == text);
    }
    Ok(())
}

fn script_fault(alloc: Global, line: &[u8]) -> Option<LineFault> {
    match read_script(alloc, line) {
        Ok(_) => None,
        Err(fault) => Some(fault),
    }
}

#[test]
fn a_script_knows_no_events(rt: HostRuntime) {
    let cases = [
        (b"".as_slice(), 1),
        (b"next", 1),
        (b"stop", 2),
        (b"app 1", 4),
        (b"flush 1 1", 6),
        (b"append a", 9),
        (b"append a b", 11),
        (b"append a, b x", 10),
        (b"append A b x", 8),
    ];
    for (line, at) in cases {
        assert!(rt; script_fault(rt.alloc(), line) == Some(Bad(at)));
    }
}
