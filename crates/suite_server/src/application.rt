use kv_app::*;
use std::alloc::{AllocError, Global};
use std::test::Fail;

// The text of an application of any kind after these payloads.
fn text_after<A: App>(app: &mut A, payloads: &[&[u8]]) -> Result<Vec<u8>, AllocError> {
    for payload in payloads {
        app.apply(payload)?;
    }
    app.text()
}

// The text of a fresh application after these payloads.
fn shown(alloc: Global, payloads: &[&[u8]]) -> Result<Vec<u8>, AllocError> {
    text_after(&mut KvApp::new(alloc), payloads)
}

// Where a payload stops to begin an op text, or 0 where it is one.
fn place(alloc: Global, payload: &[u8]) -> Result<u64, AllocError> {
    match read_ops(alloc, payload) {
        Ok(_) => Ok(0),
        Err(OpsFault::Bad(at)) => Ok(at),
        Err(OpsFault::Memory) => Err(AllocError),
    }
}

// The keys that a payload's operations name, each with a space behind it.
fn keys(alloc: Global, payload: &[u8]) -> Result<Vec<u8>, AllocError> {
    let mut text = Vec::new(alloc);
    let Ok(ops) = read_ops(alloc, payload) else {
        return Ok(text);
    };
    for key in &touches(alloc, &ops)? {
        text.extend_from_slice(key.bytes())?;
        text.push(b' ')?;
    }
    Ok(text)
}

#[test]
fn payloads_change_the_application(rt: HostRuntime) -> Result<(), Fail> {
    let transfer = b"add a -30;add b 30".as_slice();
    let cases = [
        (
            b"set a 100;set b 50".as_slice(),
            b"set x 1".as_slice(),
            transfer,
            b" a=70 b=80 x=1".as_slice(),
        ),
        (b"set a 5", b"", b"", b" a=5"),
        (b"set a 5", b"", b"add a 0;add b -7", b" a=5 b=-7"),
        (b"set a 5", b"", b"set b 1;del a;del c", b" b=1"),
        (b"set a 5", b"", b"del a;add a 2;set a 3;add a 4", b" a=7"),
        (b"set a 5", b"", b"set a 6;put", b" a=5"),
        (b"set a 5", b"", b"set a 07", b" a=5"),
        (b"set a 5", b"del a", b"add a 2", b" a=2"),
        (b"set a 5", b"del a", b"", b""),
    ];
    for (first, second, third, text) in cases {
        let found = shown(rt.alloc(), &[first, second, third])?;
        assert!(rt; found.as_slice() == text);
    }
    Ok(())
}

#[test]
fn a_key_has_its_number(rt: HostRuntime) -> Result<(), Fail> {
    let mut app = KvApp::new(rt.alloc());
    app.apply(b"set a 100;set b 50;del b")?;
    let numbers = [app.get(b"a"), app.get(b"b"), app.get(b"c")];
    assert!(rt; numbers == [Some(100), None, None]);
    Ok(())
}

#[test]
fn bad_texts_have_a_place(rt: HostRuntime) -> Result<(), Fail> {
    let mut long = [b'k'; 69];
    long[..4].copy_from_slice(b"del ");
    let cases = [
        (b"".as_slice(), 0),
        (b"set a 1000000000;add z_9 -1000000000;del 0", 0),
        (b"set a 1;put", 9),
        (b"put a 5", 1),
        (b"set a 1000000001", 16),
        (b"set a 00", 8),
        (b"set a -0", 8),
        (b"set a", 6),
        (b"set a ", 7),
        (b"set a 1;", 9),
        (b"del a 1", 6),
        (b"set A 1", 5),
        (b"add  1", 5),
        (long.as_slice(), 69),
        (&long[..68], 0),
    ];
    for (payload, at) in cases {
        let found = place(rt.alloc(), payload)?;
        assert!(rt; found == at && bad_place(payload).unwrap_or(0) == at);
    }
    Ok(())
}

#[test]
fn keys_are_touched_once_and_in_order(rt: HostRuntime) -> Result<(), Fail> {
    let found = keys(rt.alloc(), b"set b 1;del ab;add b 2;set a 3;set aa 4")?;
    assert!(rt; found.as_slice() == b"a aa ab b ".as_slice());
    Ok(())
}
