use disk_model::MemDisk;
use io_core::{MemLink, MemPort, MemSink, MemSource};
use std::alloc::Global;
use std::test::*;
use waltz_cli::run;

/// Runs the program on these words, with devices in memory of which only the source and the sink have anything.
pub fn run_alone(
    alloc: Global,
    words: &[&str],
    source: &mut MemSource,
    sink: &mut MemSink,
) -> Result<u8, Fail> {
    let mut line = Vec::new(alloc);
    for word in words {
        line.push(String::from_str(alloc, word)?)?;
    }
    let mut disk = MemDisk::new(alloc);
    let mut port = MemPort::new(alloc, Vec::new(alloc), Vec::new(alloc));
    let mut link = MemLink::new(alloc, Vec::new(alloc), Vec::new(alloc));
    Ok(run(alloc, &line, source, sink, &mut disk, &mut port, &mut link))
}
