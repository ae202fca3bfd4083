use crate::devices::run_alone;
use io_core::{MemSink, MemSource};
use std::alloc::Global;
use std::test::*;

/// Server 2 takes over from server 1, and hears the record that one node holds.
const SCHEDULE: &str = "cluster 3 2 1 2 64
read 1
cas 1
tick 1
next
next
next
next
next
next
tick 1
next
next
next
next
next
next
append 1 1 a - set a 5
next
tick 1
next
skip
skip
skip
read 2
cas 2
tick 2
next
next
skip
next
next
tick 2
next
skip
next
tick 2
next
next
skip
next
next
tick 2
next
next
skip
next
next
server 2
log 1
";

const OUTCOMES: &str = "read 0
won 1
sent 1 s1>n1 open 1, 2 s1>n2 open 1, 3 s1>n3 open 1
sent 4 n1>s1 opened 1 0 0 0
sent 5 n2>s1 opened 1 0 0 0
sent 6 n3>s1 opened 1 0 0 0
quiet
quiet
quiet
sent 7 s1>n1 adopt 1 0, 8 s1>n2 adopt 1 0, 9 s1>n3 adopt 1 0
sent 10 n1>s1 adopted 1 0
sent 11 n2>s1 adopted 1 0
sent 12 n3>s1 adopted 1 0
quiet
quiet
quiet
sent 13 c1>s1 append 1
quiet
sent 14 s1>n1 append 1 1 1, 15 s1>n2 append 1 1 1, 16 s1>n3 append 1 1 1
sent 17 n1>s1 acked 1 1
skipped 15
skipped 16
skipped 17
read 1
won 2
sent 18 s2>n1 open 2, 19 s2>n2 open 2, 20 s2>n3 open 2
sent 21 n1>s2 opened 2 1 0 1
sent 22 n2>s2 opened 2 1 0 0
skipped 20
quiet
quiet
sent 23 s2>n1 fetch 2 1 1, 24 s2>n3 open 2
sent 25 n1>s2 records 2 1 1
skipped 24
quiet
sent 26 s2>n1 stage 2 1 1, 27 s2>n2 stage 2 1 1, 28 s2>n3 open 2
sent 29 n1>s2 staged 2 1
sent 30 n2>s2 staged 2 1
skipped 28
quiet
quiet
sent 31 s2>n1 adopt 2 1, 32 s2>n2 adopt 2 1, 33 s2>n3 open 2
sent 34 n1>s2 adopted 2 1
sent 35 n2>s2 adopted 2 1
skipped 33
quiet
quiet
s2 running session=2 last=1 committed=1
log len=1 1/1/1.1
";

// Whether the program replays a schedule to its end, and prints these outcomes.
fn is_replayed(alloc: Global, schedule: &str, outcomes: &str) -> Result<bool, Fail> {
    let bytes = schedule.as_bytes().to_vec(alloc)?;
    let mut source = MemSource::new(bytes, 512, Vec::new(alloc));
    let mut sink = MemSink::new(alloc, Vec::new(alloc));
    let status = run_alone(alloc, &["replay"], &mut source, &mut sink)?;
    Ok(status == 0 && sink.bytes() == outcomes.as_bytes())
}

#[test]
fn a_takeover_hears_the_last_record(rt: HostRuntime) -> Result<(), Fail> {
    assert!(rt; is_replayed(rt.alloc(), SCHEDULE, OUTCOMES)?);
    Ok(())
}
