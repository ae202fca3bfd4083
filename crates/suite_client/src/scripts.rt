use crate::setup::{Outside, Seen, is, link_of, observe, replying, sink_of, source_of};
use client_loop::run_client;
use std::alloc::Global;
use std::test::Fail;

// Client 1 does a script against port 7100.
fn run(alloc: Global, script: &str, outside: &Outside<'_>) -> Option<Seen> {
    let mut source = source_of(alloc, script, outside)?;
    let mut link = link_of(alloc, outside)?;
    let mut sink = sink_of(alloc, outside)?;
    let status = run_client(alloc, &mut source, &mut link, 1, 7100, &mut sink);
    observe(alloc, status, &link, &sink)
}

// Whether a script has this status, prints this and sends these frames.
fn does(
    alloc: Global,
    script: &str,
    outside: &Outside<'_>,
    status: u8,
    printed: &str,
    sent: &str,
) -> bool {
    is(alloc, run(alloc, script, outside), status, printed, sent)
}

// Whether a script has this status, prints so many bytes and these last.
fn ends(seen: Option<Seen>, status: u8, count: usize, last: &str) -> bool {
    match seen {
        Some(seen) => {
            seen.status == status
                && seen.printed.len() == count
                && seen.printed.as_slice().ends_with(last.as_bytes())
        }
        None => false,
    }
}

// Client 1, request 1, mark 0, no read lock, the write lock `a`, the payload `set a 5`.
const APPEND: &str = "00000029 0301 0000000000000001 0000000000000001 0000000000000000 00 01 01 61 \
    00000007 73657420612035";

const COMMITTED: &str = "00000012 0401 0000000000000001 0000000000000001";

const PENDING: &str = "00000012 0402 0000000000000001 0000000000000001";

// Of request 2.
const OTHER: &str = "00000012 0401 0000000000000002 0000000000000001";

const FEED_1: &str = "0000000b 0302 0000000000000001 10";

// From 1, committed 1, and the head of record 1 of session 1.
const HEAD_1: &str = "0000002f 0404 0000000000000001 0000000000000001 01 \
    0000000000000001 0000000000000001 0000000000000000 00 01 01 61";

const GET_1: &str = "0000000a 0303 0000000000000001";

const ENTRY_1: &str =
    "0000003e 0405 00000038 01 0000000000000001 0000000000000001 0000000000000001 \
    0000000000000001 0000000000000000 00 01 01 61 00000007 73657420612035";

const FEED_2: &str = "0000000b 0302 0000000000000002 10";

const HEADS_2: &str = "00000013 0404 0000000000000002 0000000000000001 00";

const NOT_YET: &str = "0000000b 0407 08 0000000000000000";

// Of request 1, locked: the lock `a`, of a record at 1.
const LOCKED: &str = "00000015 0403 0000000000000001 04 01 61 0000000000000001";

// Not running, idle.
const IDLE: &str = "00000004 0407 01 00";

const BAD_ID: &str = "00000003 0407 07";

const NOT_YET_1: &str = "0000000b 0407 08 0000000000000001";

const FLUSH: &str = "00000002 0304";

const FLUSHED: &str = "0000000a 0406 0000000000000001";

// The script of four lines, and what it sends.
const SCRIPT: &str = "append a - set a 5\nsync\napp\nflush\n";

#[test]
fn a_script_is_done_line_by_line(rt: HostRuntime) -> Result<(), Fail> {
    let replies = [COMMITTED, HEAD_1, ENTRY_1, HEADS_2, FLUSHED];
    let outside = replying(&replies);
    let printed = "committed 1\nmark 1\napp 1 mark=1 a=5\nflushed 1\n";
    let mut sent = String::new(rt.alloc());
    for frame in [APPEND, FEED_1, GET_1, FEED_2, FLUSH] {
        sent.push_str(frame)?;
    }
    assert!(rt; does(rt.alloc(), SCRIPT, &outside, 0, printed, &sent));
    Ok(())
}

#[test]
fn what_is_not_built_is_not_sent(rt: HostRuntime) -> Result<(), Fail> {
    let cases = [
        ("append a - set b 5", "refused unlocked b\n"),
        ("append a - put a 5\n", "refused badops 1\n"),
        ("", ""),
    ];
    let outside = replying(&[]);
    for (script, printed) in cases {
        assert!(rt; does(rt.alloc(), script, &outside, 0, printed, ""));
    }
    Ok(())
}

#[test]
fn answers_are_told(rt: HostRuntime) -> Result<(), Fail> {
    let append = "append a - set a 5\n";
    let cases = [
        (append, PENDING, 0, "pending 1\n", APPEND),
        (append, LOCKED, 0, "refused locked a 1\n", APPEND),
        (append, OTHER, 19, "! answer\n", APPEND),
        ("sync\n", NOT_YET, 0, "refused notyet 0\n", FEED_1),
        ("sync\n", BAD_ID, 0, "refused badid\n", FEED_1),
        ("sync\n", NOT_YET_1, 0, "refused notyet 1\n", FEED_1),
        ("sync\n", HEADS_2, 19, "! answer\n", FEED_1),
        ("flush\n", IDLE, 0, "refused notrunning idle\n", FLUSH),
        ("flush\n", COMMITTED, 19, "! answer\n", FLUSH),
    ];
    for (script, reply, status, printed, sent) in cases {
        let replies = [reply];
        let outside = replying(&replies);
        assert!(rt; does(rt.alloc(), script, &outside, status, printed, sent));
    }
    Ok(())
}

#[test]
fn a_bad_line_ends_a_script(rt: HostRuntime) -> Result<(), Fail> {
    let printed = "flushed 1\n! line 2 at 5\n";
    let replies = [FLUSHED];
    let outside = replying(&replies);
    assert!(rt; does(rt.alloc(), "flush\nsyncc\n", &outside, 3, printed, FLUSH));
    Ok(())
}

// A call that fails, of the source, the link or the sink, at the second of two lines.
#[test]
fn a_fault_ends_a_script(rt: HostRuntime) -> Result<(), Fail> {
    let none = [0; 0];
    let cases = [
        (
            [2].as_slice(),
            none.as_slice(),
            none.as_slice(),
            10,
            17,
            "1\n! read\n",
        ),
        (&none, &[2], &none, 13, 17, "1\n! peer\n"),
        (&none, &none, &[2], 11, 10, "flushed 1\n"),
    ];
    for (reads, exchanges, writes, status, count, last) in cases {
        let outside = Outside {
            replies: &[FLUSHED, FLUSHED],
            reads,
            exchanges,
            writes,
        };
        let seen = run(rt.alloc(), "flush\nflush\n", &outside);
        assert!(rt; ends(seen, status, count, last));
    }
    Ok(())
}

// So many lines `app`.
fn apps(alloc: Global, lines: usize) -> Option<Seen> {
    let mut script = String::new(alloc);
    for _ in 0..lines {
        script.push_str("app\n").ok()?;
    }
    run(alloc, &script, &replying(&[]))
}

#[test]
fn a_script_has_twenty_thousand_lines_at_most(rt: HostRuntime) -> Result<(), Fail> {
    let cases = [
        (20000, 0, 260000, "app 1 mark=0\n"),
        (20001, 4, 260021, "app 1 mark=0\n! limit events 20000\n"),
    ];
    for (lines, status, count, last) in cases {
        assert!(rt; ends(apps(rt.alloc(), lines), status, count, last));
    }
    Ok(())
}
