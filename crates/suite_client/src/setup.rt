use io_core::{MemLink, MemSink, MemSource};
use std::alloc::Global;

// The replies that a link gives, in hexadecimal, and the numbers of the calls that fail: of the source, the link and
// the sink.
#[derive(Clone, Copy)]
pub struct Outside<'a> {
    pub replies: &'a [&'a str],
    pub reads: &'a [u64],
    pub exchanges: &'a [u64],
    pub writes: &'a [u64],
}

// These replies, and no call that fails.
pub fn replying<'a>(replies: &'a [&'a str]) -> Outside<'a> {
    Outside {
        replies,
        reads: &[],
        exchanges: &[],
        writes: &[],
    }
}

// What a command did: its status, what it printed, and the bytes that it sent one after another.
#[derive(Drop)]
pub struct Seen {
    pub status: u8,
    pub printed: Vec<u8>,
    pub sent: Vec<u8>,
}

// The bytes of a hexadecimal text, in which spaces mean nothing.
fn bytes_of(alloc: Global, text: &str) -> Option<Vec<u8>> {
    let mut digits = Vec::new(alloc);
    for digit in text.as_bytes() {
        if *digit != b' ' {
            digits.push(*digit).ok()?;
        }
    }
    hex::decode(alloc, digits.as_slice()).ok()
}

pub fn link_of(alloc: Global, outside: &Outside<'_>) -> Option<MemLink> {
    let mut replies = Vec::new(alloc);
    for reply in outside.replies {
        let bytes = bytes_of(alloc, reply)?;
        replies.push(bytes).ok()?;
    }
    let fails = Vec::from_slice(alloc, outside.exchanges).ok()?;
    Some(MemLink::new(alloc, replies, fails))
}

pub fn sink_of(alloc: Global, outside: &Outside<'_>) -> Option<MemSink> {
    let fails = Vec::from_slice(alloc, outside.writes).ok()?;
    Some(MemSink::new(alloc, fails))
}

pub fn source_of(alloc: Global, script: &str, outside: &Outside<'_>) -> Option<MemSource> {
    let bytes = Vec::from_slice(alloc, script.as_bytes()).ok()?;
    let fails = Vec::from_slice(alloc, outside.reads).ok()?;
    Some(MemSource::new(bytes, 7, fails))
}

pub fn observe(alloc: Global, status: u8, link: &MemLink, sink: &MemSink) -> Option<Seen> {
    let mut sent = Vec::new(alloc);
    for bytes in link.sent() {
        sent.extend_from_slice(bytes).ok()?;
    }
    let printed = Vec::from_slice(alloc, sink.bytes()).ok()?;
    Some(Seen {
        status,
        printed,
        sent,
    })
}

// Whether this status, this text and these frames were seen.
pub fn is(alloc: Global, seen: Option<Seen>, status: u8, printed: &str, sent: &str) -> bool {
    match (seen, bytes_of(alloc, sent)) {
        (Some(seen), Some(bytes)) => {
            seen.status == status
                && seen.printed.as_slice() == printed.as_bytes()
                && seen.sent == bytes
        }
        _ => false,
    }
}
