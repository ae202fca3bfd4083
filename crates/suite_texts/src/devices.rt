use io_core::*;
use std::test::*;

// Moves one piece of at most eight bytes from a source to a sink.
fn pass_on<S: Source, W: Sink>(source: &mut S, sink: &mut W) -> Result<usize, Fault> {
    let mut piece = [0; 8];
    let count = source.read(&mut piece)?;
    write_all(sink, &piece[..count])?;
    Ok(count)
}

#[test]
fn a_source_gives_pieces_and_fails_at_the_chosen_calls(rt: HostRuntime) -> Result<(), Fail> {
    let fails = vec![in rt.alloc(); 2, 5]?;
    let mut source = MemSource::new(vec![in rt.alloc(); 1, 2, 3, 4, 5]?, 2, fails);
    let cases = [
        (3, Ok(2), [1, 2, 0]),
        (3, Err(Failed), [1, 2, 0]),
        (1, Ok(1), [3, 2, 0]),
        (3, Ok(2), [4, 5, 0]),
        (3, Err(Failed), [4, 5, 0]),
        (3, Ok(0), [4, 5, 0]),
    ];
    let mut into = [0; 3];
    for (room, count, bytes) in cases {
        let found = source.read(&mut into[..room]);
        assert!(rt; found == count && into == bytes);
    }
    Ok(())
}

#[test]
fn a_sink_keeps_what_was_written_and_nothing_of_a_failed_call(rt: HostRuntime) -> Result<(), Fail> {
    let mut sink = MemSink::new(rt.alloc(), vec![in rt.alloc(); 2, 4]?);
    let cases = [
        ("ab", Ok(()), "ab"),
        ("lost", Err(Fault::Failed), "ab"),
        ("", Ok(()), "ab"),
        ("cd", Ok(()), "abcd"),
        ("lost", Err(Fault::Failed), "abcd"),
    ];
    for (text, want, held) in cases {
        let written = write_all(&mut sink, text.as_bytes());
        assert!(rt; written == want && sink.bytes() == held.as_bytes());
    }
    Ok(())
}

#[test]
fn devices_work_through_a_mutable_reference(rt: HostRuntime) -> Result<(), Fail> {
    let bytes = Vec::from_slice(rt.alloc(), b"text")?;
    let mut source = MemSource::new(bytes, 3, Vec::new(rt.alloc()));
    let mut sink = MemSink::new(rt.alloc(), Vec::new(rt.alloc()));
    for want in [3, 1, 0] {
        assert!(rt; pass_on(&mut &mut source, &mut &mut sink) == Ok(want));
    }
    assert!(rt; sink.bytes() == b"text".as_slice());
    Ok(())
}
