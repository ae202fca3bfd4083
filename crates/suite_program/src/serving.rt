use disk_model::MemDisk;
use io_core::{MemLink, MemPort, MemSink, MemSource};
use std::alloc::Global;
use std::test::*;
use waltz_cli::run;

/// The frames of `Bye` and of `Done`.
const BYE: &[u8] = b"\0\0\0\x02\x07\x01";

const DONE: &[u8] = b"\0\0\0\x02\x07\x02";

// Whether the program on the words of this line, asked for its end over an empty disk of which this call fails, ends so,
// prints this and answers so often.
fn serves(alloc: Global, line: &str, call: u64, want: (u8, &str, usize)) -> Result<bool, Fail> {
    let mut words = Vec::new(alloc);
    for word in line.split(' ') {
        words.push(String::from_str(alloc, word)?)?;
    }
    let mut source = MemSource::new(Vec::new(alloc), 512, Vec::new(alloc));
    let mut sink = MemSink::new(alloc, Vec::new(alloc));
    let mut disk = MemDisk::failing(alloc, vec![in alloc; call]?);
    let requests = vec![in alloc; BYE.to_vec(alloc)?]?;
    let mut port = MemPort::new(alloc, requests, Vec::new(alloc));
    let mut link = MemLink::new(alloc, Vec::new(alloc), Vec::new(alloc));
    let status = run(
        alloc,
        &words,
        &mut source,
        &mut sink,
        &mut disk,
        &mut port,
        &mut link,
    );
    let answers = port.answers();
    let all_done = answers.iter().all(|bytes| bytes.as_slice() == DONE);
    let (due, text, count) = want;
    Ok(status == due && sink.bytes() == text.as_bytes() && answers.len() == count && all_done)
}

#[test]
fn a_command_serves_by_its_words(rt: HostRuntime) -> Result<(), Fail> {
    for (line, call, want) in [
        ("storage 7001", 0, (0, "listening 7001\nend bye\n", 1)),
        ("register 65535", 0, (0, "listening 65535\nend bye\n", 1)),
        ("storage 1", 1, (12, "! disk\n", 0)),
        ("register 1", 1, (12, "! disk\n", 0)),
        ("server 1 2 2 64 3 4 5", 0, (14, "! register\n", 0)),
    ] {
        assert!(rt; serves(rt.alloc(), line, call, want)?);
    }
    Ok(())
}
