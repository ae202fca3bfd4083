//! Ports and links in memory.
use io_core::{Back, Failed, Fault, Link, MemLink, MemPort, Port, Turn};
use std::alloc::Global;
use std::test::Fail;

// A list of these texts.
fn texts(alloc: Global, from: &[&[u8]]) -> Result<Vec<Vec<u8>>, Fail> {
    let mut texts = Vec::new(alloc);
    for text in from {
        texts.push(text.to_vec(alloc)?)?;
    }
    Ok(texts)
}

// Each text with a comma behind it.
fn listed(found: &mut Vec<u8>, texts: &[Vec<u8>]) -> Result<(), Fail> {
    for text in texts {
        found.extend_from_slice(text)?;
        found.push(b',')?;
    }
    Ok(())
}

// How a call failed: `!` by a fault, `?` without memory.
fn mark_of(fault: Fault) -> u8 {
    match fault {
        Fault::Failed => b'!',
        Fault::Memory => b'?',
    }
}

// What a call of `listen` answers: `l`, or how it failed.
fn heard<P: Port>(port: &mut P) -> u8 {
    match port.listen(7000) {
        Ok(()) => b'l',
        Err(Failed) => b'!',
    }
}

// Answers the next request by itself: `|` where it fits four bytes, `>` where it is too long, `.` at the end.
fn echoed<P: Port>(port: &mut P) -> Result<u8, Fault> {
    let mut into = [0; 4];
    match port.next(&mut into)? {
        Turn::Got(count) => port.answer(&into[..count])?,
        Turn::TooLong => return Ok(b'>'),
        Turn::End => return Ok(b'.'),
    }
    Ok(b'|')
}

// What a call of `listen` and six turns find, through the bound, and then the answers.
fn served(alloc: Global, fails: &[u64]) -> Result<Vec<u8>, Fail> {
    let requests = texts(alloc, &[b"ab", b"", b"abcde", b"abcd"])?;
    let mut port = MemPort::new(alloc, requests, fails.to_vec(alloc)?);
    let mut found = Vec::new(alloc);
    found.push(heard(&mut &mut port))?;
    for _ in 0..6 {
        found.push(echoed(&mut &mut port).unwrap_or_else(mark_of))?;
    }
    found.push(b' ')?;
    listed(&mut found, port.answers())?;
    Ok(found)
}

#[test]
fn a_port_gives_its_requests_and_fails_at_the_chosen_calls(rt: HostRuntime) -> Result<(), Fail> {
    let cases = [
        // Call 1 is `listen`. Then `next` and `answer` take turns, but after a turn that gave no request.
        (&[] as &[u64], "l||>|.. ab,,abcd,"),
        (&[1], "!||>|.. ab,,abcd,"),
        (&[2], "l!||>|. ab,,abcd,"),
        (&[3], "l!|>|.. ,abcd,"),
        (&[6, 9], "l||!>!. ab,,"),
    ];
    for (fails, want) in cases {
        let found = served(rt.alloc(), fails)?;
        assert!(rt; found.as_slice() == want.as_bytes(), "at {want}");
    }
    Ok(())
}

// Sends a text where there is room for four bytes, and adds what came: the reply and `|`, or `>` where it is too long.
fn asked<L: Link>(link: &mut L, text: &[u8], found: &mut Vec<u8>) -> Result<u8, Fault> {
    let mut into = [0; 4];
    match link.exchange(7000, text, &mut into)? {
        Back::Got(count) => found.extend_from_slice(&into[..count])?,
        Back::TooLong => return Ok(b'>'),
    }
    Ok(b'|')
}

// What five exchanges find, through the bound, and then what was sent.
fn exchanged(alloc: Global, fails: &[u64]) -> Result<Vec<u8>, Fail> {
    let replies = texts(alloc, &[b"ab", b"abcde", b"", b"abcd"])?;
    let mut link = MemLink::new(alloc, replies, fails.to_vec(alloc)?);
    let mut found = Vec::new(alloc);
    for text in ["a", "b", "", "d", "e"] {
        let mark = asked(&mut &mut link, text.as_bytes(), &mut found).unwrap_or_else(mark_of);
        found.push(mark)?;
    }
    found.push(b' ')?;
    listed(&mut found, link.sent())?;
    Ok(found)
}

#[test]
fn a_link_gives_its_replies_and_fails_at_the_chosen_calls(rt: HostRuntime) -> Result<(), Fail> {
    let cases = [
        (&[] as &[u64], "ab|>|abcd|! a,b,,d,"),
        (&[1], "!ab|>|abcd| b,,d,e,"),
        (&[2, 3], "ab|!!>| a,d,e,"),
        (&[6], "ab|>|abcd|! a,b,,d,"),
    ];
    for (fails, want) in cases {
        let found = exchanged(rt.alloc(), fails)?;
        assert!(rt; found.as_slice() == want.as_bytes(), "at {want}");
    }
    Ok(())
}
