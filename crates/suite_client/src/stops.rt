use crate::setup::{Outside, Seen, is, link_of, observe, replying, sink_of};
use client_loop::stop;
use std::alloc::Global;
use std::test::Fail;

fn run(alloc: Global, outside: &Outside<'_>) -> Option<Seen> {
    let mut link = link_of(alloc, outside)?;
    let mut sink = sink_of(alloc, outside)?;
    let status = stop(alloc, &mut link, 7100, &mut sink);
    observe(alloc, status, &link, &sink)
}

// Whether `stop` has this status, prints this and sends these frames.
fn does(alloc: Global, outside: &Outside<'_>, status: u8, printed: &str, sent: &str) -> bool {
    is(alloc, run(alloc, outside), status, printed, sent)
}

const BYE: &str = "00000002 0701";

const DONE: &str = "00000002 0702";

const NO: &str = "00000002 0703";

#[test]
fn only_done_stops(rt: HostRuntime) -> Result<(), Fail> {
    let cases = [
        (DONE, 0, ""),
        (NO, 19, "! answer\n"),
        (BYE, 19, "! answer\n"),
        ("", 19, "! answer\n"),
    ];
    for (reply, status, printed) in cases {
        let replies = [reply];
        assert!(rt; does(rt.alloc(), &replying(&replies), status, printed, BYE));
    }
    Ok(())
}

#[test]
fn a_link_that_fails_is_told(rt: HostRuntime) -> Result<(), Fail> {
    let outside = Outside {
        replies: &[DONE],
        reads: &[],
        exchanges: &[1],
        writes: &[],
    };
    assert!(rt; does(rt.alloc(), &outside, 13, "! peer\n", ""));
    Ok(())
}

#[test]
fn a_sink_that_fails_is_told(rt: HostRuntime) -> Result<(), Fail> {
    let outside = Outside {
        replies: &[NO],
        reads: &[],
        exchanges: &[],
        writes: &[1],
    };
    assert!(rt; does(rt.alloc(), &outside, 11, "", BYE));
    Ok(())
}
