ghost use Rattle.std.specs.Prelude.{None};

use io_core::{Failed, Fault, Sink, Source};
use std::io::{ErrorKind, Read, Write};

/// A stream that is read, and how often that failed. It tells nothing of its content. A call that was interrupted is
/// made again.
#[derive(Drop)]
pub struct StreamSource<R: Read> {
    stream: R,
    faults: u64,
}

impl<R: Read> StreamSource<R> {
    pub fn new(stream: R) -> Self {
        StreamSource { stream, faults: 0 }
    }
}

impl<R: Read> Source for StreamSource<R> {
    ghost left = { λ s. None };

    ghost before = { λ s. None };

    ghost faults = { λ s. s.faults };

    fn read(&mut self, into: &mut [u8]) -> Result<usize, Failed> {
        for _ in 0..u64::MAX {
            match self.stream.read(into) {
                Ok(count) => return Ok(count),
                Err(error) if error.kind() == ErrorKind::Interrupted => {}
                Err(_) => break,
            }
        }
        self.faults = self.faults.saturating_add(1);
        Err(Failed)
    }
}

/// A stream that is written, and how often that failed. It tells nothing of its content. A call that was interrupted
/// is made again, and a write that took nothing is a fault.
#[derive(Drop)]
pub struct StreamSink<W: Write> {
    stream: W,
    faults: u64,
}

impl<W: Write> StreamSink<W> {
    pub fn new(stream: W) -> Self {
        StreamSink { stream, faults: 0 }
    }
}

impl<W: Write> Sink for StreamSink<W> {
    ghost contents = { λ s. None };

    ghost faults = { λ s. s.faults };

    ghost wants = { λ s. 0 };

    fn write(&mut self, bytes: &[u8]) -> Result<usize, Fault> {
        if bytes.is_empty() {
            return Ok(0);
        }
        for _ in 0..u64::MAX {
            match self.stream.write(bytes) {
                Ok(0) => break,
                Ok(count) => return Ok(count),
                Err(error) if error.kind() == ErrorKind::Interrupted => {}
                Err(_) => break,
            }
        }
        self.faults = self.faults.saturating_add(1);
        Err(Fault::Failed)
    }
}
