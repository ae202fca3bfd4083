ghost use Rattle.std.specs.Prelude.{◌≤◌};

use crate::devices::run_alone;
use io_core::{MemSink, MemSource};
use std::alloc::Global;
use std::test::*;

// Whether a replay of a schedule that is read in pieces, where calls of these numbers fail, ends with this status and
// prints this text.
fn replays(
    alloc: Global,
    schedule: &str,
    piece: usize,
    read_fails: &[u64],
    write_fails: &[u64],
    want: (u8, &str),
) -> Result<bool, Fail>
    requires { 1 ≤ piece }
{
    let bytes = schedule.as_bytes().to_vec(alloc)?;
    let mut source = MemSource::new(bytes, piece, read_fails.to_vec(alloc)?);
    let mut sink = MemSink::new(alloc, write_fails.to_vec(alloc)?);
    let status = run_alone(alloc, &["replay"], &mut source, &mut sink)?;
    Ok(status == want.0 && sink.bytes() == want.1.as_bytes())
}

// Whether these words print the usage.
fn are_refused(alloc: Global, words: &[&str]) -> Result<bool, Fail> {
    let mut source = MemSource::new(Vec::new(alloc), 512, Vec::new(alloc));
    let mut sink = MemSink::new(alloc, Vec::new(alloc));
    let status = run_alone(alloc, words, &mut source, &mut sink)?;
    Ok(status == 2 && sink.bytes() == b"! usage\n".as_slice())
}

#[test]
fn pieces_do_not_matter(rt: HostRuntime) -> Result<(), Fail> {
    let schedule = "cluster 1 1 1 2 64\nread 1\ncas 1\nnext\nread 1";
    let want = (0, "read 0\nwon 1\nnone\nread 1\n");
    for piece in 1..50 {
        assert!(rt; replays(rt.alloc(), schedule, piece, &[], &[], want)?);
    }
    Ok(())
}

#[test]
fn first_lines_that_no_schedule_has(rt: HostRuntime) -> Result<(), Fail> {
    for (schedule, want) in [
        ("", "! line 1 at 1\n"),
        ("\n", "! line 1 at 1\n"),
        ("Cluster 1 1 1 2 64\n", "! line 1 at 1\n"),
        ("cluster 1 1 1 2\n", "! line 1 at 16\n"),
        ("cluster 1 1 1 02 64\n", "! line 1 at 16\n"),
        ("cluster 1 1 1 2 64 \n", "! line 1 at 19\n"),
        ("cluster 8 1 1 2 64\n", "! line 1 range nodes\n"),
        ("cluster 1 10 0 2 64\n", "! line 1 range servers\n"),
        ("cluster 1 1 10 0 64\n", "! line 1 range clients\n"),
        ("cluster 1 1 1 0 64\n", "! line 1 range rows\n"),
        ("cluster 1 1 1 9 64\n", "! line 1 range rows\n"),
        ("cluster 1 1 1 2 4097\n", "! line 1 range slots\n"),
    ] {
        assert!(rt; replays(rt.alloc(), schedule, 512, &[], &[], (3, want))?);
    }
    Ok(())
}

// The third line, and what follows the outcome of the second one.
#[test]
fn lines_that_no_schedule_has(rt: HostRuntime) -> Result<(), Fail> {
    for (line, fault) in [
        ("", "! line 3 at 1\n"),
        ("Next", "! line 3 at 1\n"),
        ("next 1", "! line 3 at 5\n"),
        ("read  1", "! line 3 at 6\n"),
        ("read 01", "! line 3 at 7\n"),
        ("read 1 ", "! line 3 at 7\n"),
        ("read 18446744073709551617", "! line 3 at 25\n"),
        ("append 1 1 a, - -", "! line 3 at 14\n"),
        ("append 1 1 a -", "! line 3 at 15\n"),
        ("read 0", "! line 3 range server\n"),
        ("tick 2", "! line 3 range server\n"),
        ("append 2 2 a - -", "! line 3 range client\n"),
        ("crash 3", "! line 3 range node\n"),
        ("deliver 0", "! line 3 range envelope\n"),
        ("tear 1 1000001", "! line 3 range bytes\n"),
        ("log 0", "! line 3 range from\n"),
        ("dump 1 4294967296 4294967296", "! line 3 range file\n"),
    ] {
        let mut schedule = String::from_str(rt.alloc(), "cluster 1 1 1 2 64\nnext\n")?;
        schedule.push_str(line)?;
        schedule.push_str("\nnext\n")?;
        let mut want = String::from_str(rt.alloc(), "none\n")?;
        want.push_str(fault)?;
        assert!(rt; replays(rt.alloc(), &schedule, 512, &[], &[], (3, &want))?);
    }
    Ok(())
}

// The calls that fail are the source's and the sink's.
#[test]
fn a_fault_ends_with_its_status_and_what_was_read_whole(rt: HostRuntime) -> Result<(), Fail> {
    let schedule = "cluster 1 1 1 2 64\nread 1\nread 1\n";
    let none: &[u64] = &[];
    let one: &[u64] = &[1];
    let two: &[u64] = &[2];
    for (text, piece, reads, writes, want) in [
        (schedule, 27, one, none, (10, "! read\n")),
        (schedule, 27, two, none, (10, "read 0\n! read\n")),
        (schedule, 27, two, two, (11, "read 0\n")),
        (schedule, 26, none, two, (11, "read 0\n")),
        (schedule, 512, none, one, (11, "")),
        ("x", 26, none, one, (11, "")),
        ("x", 26, two, none, (10, "! read\n")),
    ] {
        assert!(rt; replays(rt.alloc(), text, piece, reads, writes, want)?);
    }
    Ok(())
}

#[test]
fn other_words_are_usage(rt: HostRuntime) -> Result<(), Fail> {
    // No words, one that is empty, and others.
    assert!(rt; are_refused(rt.alloc(), &[])?);
    for line in [
        "",
        "replay x",
        "Replay",
        "storage",
        "storage 0",
        "storage 65536",
        "storage 07001",
        "storage -7001",
        "storage 7001 7002",
        "storage  7001",
        "register x",
        "server 1 2 0 64 3",
        "server 1 2 2 4097 3",
        "server 1 2 2 64",
        "server 7100 7000 2 64 7001 7001",
        "server 1 2 2 64 3 4 3",
        "server 1 2 2 64 3 4 5 6 7 8 9 10",
    ] {
        let mut words = Vec::new(rt.alloc());
        for word in line.split(' ') {
            words.push(word)?;
        }
        assert!(rt; are_refused(rt.alloc(), &words)?);
    }
    Ok(())
}
