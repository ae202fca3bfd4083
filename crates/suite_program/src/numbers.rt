ghost use Rattle.std.specs.Prelude.{◌≤◌};

use io_core::MemSink;
use schedule_replay::{drill, generate};
use std::alloc::Global;
use std::test::*;

// Whether the schedule of a number has this text, and is counted so.
fn comes_to(alloc: Global, number: u64, events: u32, text: &str, counts: &str) -> Result<bool, Fail>
    requires { events ≤ 20000 }
{
    let mut made = MemSink::new(alloc, Vec::new(alloc));
    let mut counted = MemSink::new(alloc, Vec::new(alloc));
    if generate(alloc, number, events, &mut made).is_err() {
        return Ok(false);
    }
    if drill(alloc, number, events, &mut counted).is_err() {
        return Ok(false);
    }
    Ok(made.bytes() == text.as_bytes() && counted.bytes() == counts.as_bytes())
}

// Worked by hand from the formats: the first number that is drawn for number 1 is 22 of 64.
#[test]
fn a_schedule_of_a_number(rt: HostRuntime) -> Result<(), Fail> {
    let one = "cluster 5 2 4 2 64\nread 1\n";
    let three = "cluster 5 2 4 2 64\nread 1\ncas 1\nnext\n";
    for (events, text, counts) in [
        (
            1,
            one,
            "events 1 envelopes 0 sessions 0 committed 0 refused 0\n",
        ),
        (
            3,
            three,
            "events 3 envelopes 0 sessions 1 committed 0 refused 0\n",
        ),
    ] {
        assert!(rt; comes_to(rt.alloc(), 1, events, text, counts)?);
    }
    Ok(())
}

// Whether the schedule of a number is counted so.
fn is_counted(alloc: Global, number: u64, events: u32, counts: &str) -> Result<bool, Fail>
    requires { events ≤ 20000 }
{
    let mut counted = MemSink::new(alloc, Vec::new(alloc));
    let done = drill(alloc, number, events, &mut counted);
    Ok(done.is_ok() && counted.bytes() == counts.as_bytes())
}

// Counted by another program, which was written from the formats.
#[test]
fn longer_schedules_are_counted(rt: HostRuntime) -> Result<(), Fail> {
    for (number, counts) in [
        (
            1,
            "events 1000 envelopes 311 sessions 4 committed 5 refused 25\n",
        ),
        (
            2,
            "events 1000 envelopes 323 sessions 1 committed 9 refused 24\n",
        ),
        (
            5,
            "events 1000 envelopes 306 sessions 1 committed 10 refused 25\n",
        ),
    ] {
        assert!(rt; is_counted(rt.alloc(), number, 1000, counts)?);
    }
    Ok(())
}

// What cannot be written is told.
#[test]
fn a_sink_that_fails_is_told(rt: HostRuntime) -> Result<(), Fail> {
    let mut sink = MemSink::new(rt.alloc(), [1].to_vec(rt.alloc())?);
    assert!(rt; generate(rt.alloc(), 1, 3, &mut sink).is_err());
    let mut sink = MemSink::new(rt.alloc(), [1].to_vec(rt.alloc())?);
    assert!(rt; drill(rt.alloc(), 1, 3, &mut sink).is_err());
    Ok(())
}
