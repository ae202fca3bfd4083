ghost use Rattle.std.specs.Prelude.{◌≤◌};

use io_core::*;
use std::alloc::Global;
use std::test::*;

// What eight calls of `next_line` find: each line and `|`, `>` for one that is too long, `!` for a fault, and `.` once
// no byte is left.
fn found_in(alloc: Global, text: &[u8], piece: usize, fails: &[u64]) -> Result<Vec<u8>, Fail>
    requires { 1 ≤ piece }
{
    let mut source = MemSource::new(text.to_vec(alloc)?, piece, fails.to_vec(alloc)?);
    let mut pending = Pending::new();
    let mut line = Vec::new(alloc);
    let mut found = Vec::new(alloc);
    for _ in 0..8 {
        let mark = match next_line(&mut source, &mut pending, &mut line) {
            Ok(ReadLine::Line) => b'|',
            Ok(ReadLine::TooLong) => b'>',
            Ok(ReadLine::End) => return end_of(found),
            Err(_) => b'!',
        };
        if mark == b'|' {
            found.extend_from_slice(&line)?;
        }
        found.push(mark)?;
    }
    Ok(found)
}

fn end_of(mut found: Vec<u8>) -> Result<Vec<u8>, Fail> {
    found.push(b'.')?;
    Ok(found)
}

// A line of so many bytes, and another.
fn long_line(alloc: Global, count: usize) -> Result<Vec<u8>, Fail> {
    let mut text = Vec::new(alloc);
    for _ in 0..count {
        text.push(b'x')?;
    }
    text.extend_from_slice(b"\ny\n")?;
    Ok(text)
}

#[test]
fn lines_come_without_their_line_feed(rt: HostRuntime) -> Result<(), Fail> {
    for (text, want) in [
        ("", "."),
        ("\n", "|."),
        ("first\n\nlast", "first||last|."),
        ("first\n\nlast\n", "first||last|."),
    ] {
        for piece in 1..8 {
            let found = found_in(rt.alloc(), text.as_bytes(), piece, &[])?;
            assert!(rt; found.as_slice() == want.as_bytes());
        }
    }
    Ok(())
}

#[test]
fn a_read_that_fails_in_mid_line_ends_the_call_alone(rt: HostRuntime) -> Result<(), Fail> {
    let found = found_in(rt.alloc(), b"abc\nd\n", 1, &[3])?;
    assert!(rt; found.as_slice() == b"!c|d|.".as_slice());
    Ok(())
}

#[test]
fn a_line_has_at_most_512_bytes(rt: HostRuntime) -> Result<(), Fail> {
    let text = long_line(rt.alloc(), 512)?;
    let found = found_in(rt.alloc(), &text, 100, &[])?;
    assert!(rt; found.len() == 516 && found.ends_with(b"x|y|."));
    Ok(())
}

#[test]
fn what_follows_513_bytes_is_not_lost(rt: HostRuntime) -> Result<(), Fail> {
    let text = long_line(rt.alloc(), 514)?;
    let found = found_in(rt.alloc(), &text, 100, &[])?;
    assert!(rt; found.as_slice() == b">x|y|.".as_slice());
    Ok(())
}

#[test]
fn bytes_come_one_by_one(rt: HostRuntime) -> Result<(), Fail> {
    let bytes = Vec::from_slice(rt.alloc(), b"four")?;
    let mut source = MemSource::new(bytes, 3, vec![in rt.alloc(); 2]?);
    let mut pending = Pending::new();
    for want in [
        Ok(Some(b'f')),
        Ok(Some(b'o')),
        Ok(Some(b'u')),
        Err(Failed),
        Ok(Some(b'r')),
        Ok(None),
    ] {
        assert!(rt; next_byte(&mut source, &mut pending) == want);
    }
    Ok(())
}
