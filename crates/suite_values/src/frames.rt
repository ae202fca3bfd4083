//! Records and meta entries as frames of bytes.
ghost use Rattle.std.specs.Prelude.{IfOk};
ghost use Rattle.tx_model.specs.Records.{IsRecord};

use record_frame::{
    FrameFault, META_FRAME, check_record, decode_meta, decode_record, encode_meta, encode_record,
    meta_frames_stand_alone, metas_have_one_spelling, metas_stand_alone, record_frames_stand_alone,
    records_have_one_spelling, records_stand_alone,
};
use sha2::{Digest, Sha256};
use std::alloc::Global;
use std::test::Fail;
use tx_model::{Lock, MAX_PLACE, Meta, Record, Tx};

// The frame of the record with id 1, session 1, client 1, request 1, mark 0, write lock `a` and payload `set a 5`. The
// check is the front of what sha256sum says of the first 60 bytes.
const SET_A: [u8; 68] = [
    0, 0, 0, 56, 1, 0, 0, 0, 0, 0, 0, 0, 1, 0, 0, 0, 0, 0, 0, 0, 1, 0, 0, 0, 0, 0, 0, 0, 1, 0, 0,
    0, 0, 0, 0, 0, 1, 0, 0, 0, 0, 0, 0, 0, 0, 0, 1, 1, b'a', 0, 0, 0, 7, b's', b'e', b't', b' ',
    b'a', b' ', b'5', 0xa2, 0x93, 0x65, 0x8e, 0x1d, 0xd4, 0x62, 0x46,
];

// The frame of the promise of session 1.
const PROMISE: &[u8] =
    b"\x00\x00\x00\x09\x01\x00\x00\x00\x00\x00\x00\x00\x01\x0e\x74\x90\xf0\x04\x8d\x03\x87";

// A record with session 1, client 1, request 1, mark 0 and id 1.
fn first_record(
    alloc: Global,
    reads: Vec<Lock>,
    writes: Vec<Lock>,
    payload: &[u8],
) -> Result<Record, Fail>
    ensures { IfOk result IsRecord }
{
    let tx = Tx::new(alloc, 1, 1, 0, reads, writes, payload.to_vec(alloc)?)?;
    let _payload = tx.payload();
    Ok(Record {
        id: 1,
        session: 1,
        tx,
    })
}

// The record of the frame above.
fn set_a(alloc: Global) -> Result<Record, Fail>
    ensures { IfOk result IsRecord }
{
    let mut writes = Vec::new(alloc);
    writes.push(Lock::new(alloc, b"a")?)?;
    first_record(alloc, Vec::new(alloc), writes, b"set a 5")
}

// Whether two records say the same.
fn are_same(entry: &Record, other: &Record) -> bool {
    let (tx, other_tx) = (&entry.tx, &other.tx);
    (entry.id, entry.session) == (other.id, other.session)
        && (tx.client(), tx.request(), tx.mark())
            == (other_tx.client(), other_tx.request(), other_tx.mark())
        && tx.reads() == other_tx.reads()
        && tx.writes() == other_tx.writes()
        && tx.payload() == other_tx.payload()
}

// What stands behind two bytes once the record is added to them, with more behind it.
fn added(alloc: Global) -> Result<Vec<u8>, Fail> {
    let mut bytes = vec![in alloc; 9u8; 2]?;
    encode_record(alloc, &set_a(alloc)?, &mut bytes)?;
    bytes.extend_from_slice(b"more")?;
    Ok(bytes)
}

// The length that is read off bytes, if the record is that of the frame above.
fn length_read(alloc: Global, bytes: &[u8]) -> Result<Option<usize>, Fail> {
    let (entry, len) = decode_record(alloc, bytes)?;
    Ok(are_same(&entry, &set_a(alloc)?).then_some(len))
}

#[test]
fn a_record_has_this_frame(rt: HostRuntime) -> Result<(), Fail> {
    let bytes = added(rt.alloc())?;
    assert!(rt; bytes.starts_with(&[9, 9]) && bytes.ends_with(b"more"));
    let (_, frame) = bytes.split_at(bytes.len().min(2));
    assert!(rt; frame.starts_with(&SET_A) && check_record(frame) == Ok(68));
    assert!(rt; length_read(rt.alloc(), frame)? == Some(68));
    Ok(())
}

#[test]
fn a_part_of_a_frame_is_short(rt: HostRuntime) {
    for n in 0..68 {
        assert!(rt; check_record(&SET_A[..n]) == Err(FrameFault::Short));
    }
    for n in 0..21 {
        assert!(rt; decode_meta(&PROMISE[..n]) == Err(FrameFault::Short));
    }
}

// What is read where one byte of the frame is another.
fn read_with(at: usize, byte: u8) -> Result<usize, FrameFault> {
    let mut frame = SET_A;
    if let Some(changed) = frame.get_mut(at) {
        *changed = byte;
    }
    check_record(&frame)
}

#[test]
fn faults_have_places(rt: HostRuntime) {
    // The last byte of the check, the session's last byte, and a length that is too small.
    for (at, byte, place) in [(67, 0x47, 60), (20, 2, 60), (3, 46, 0)] {
        assert!(rt;
            read_with(at, byte) == Err(FrameFault::Bad(place)),
            "at {at}"
        );
    }
    // One more than the greatest length, and the greatest.
    assert!(rt; check_record(&[0, 1, 0x10, 0x70]) == Err(FrameFault::Bad(0)));
    assert!(rt; check_record(&[0, 1, 0x10, 0x6f]) == Err(FrameFault::Short));
}

// The length of a body, the body, and a right check.
fn framed(alloc: Global, body: &[u8]) -> Result<Vec<u8>, Fail> {
    let mut bytes = Vec::new(alloc);
    let len = u32::try_from(body.len())?;
    bytes.extend_from_slice(&len.to_be_bytes())?;
    bytes.extend_from_slice(body)?;
    let digest = Sha256::digest(&bytes);
    bytes.extend_from_slice(&digest[..8])?;
    Ok(bytes)
}

// What is read off the frame of a body like that of the frame above, with these bytes from the counts of locks on: by
// the check, and by the decoder.
type BothRead = (Result<usize, FrameFault>, Result<usize, FrameFault>);

fn read_of(alloc: Global, rest: &[u8]) -> Result<BothRead, Fail> {
    let mut body = Vec::new(alloc);
    body.extend_from_slice(&SET_A[4..45])?;
    body.extend_from_slice(rest)?;
    let bytes = framed(alloc, &body)?;
    Ok((
        check_record(&bytes),
        decode_record(alloc, &bytes).map(|read| read.1),
    ))
}

#[test]
fn bodies_that_are_none(rt: HostRuntime) -> Result<(), Fail> {
    let bad = Err(FrameFault::Bad(4));
    let cases = [
        // The locks b and a as two write locks, in order, and as a read lock and a write lock.
        (b"\x00\x02\x01b\x01a\x00\x00\x00\x00".as_slice(), bad),
        (b"\x00\x02\x01a\x01b\x00\x00\x00\x00", Ok(63)),
        (b"\x01\x01\x01b\x01a\x00\x00\x00\x00", Ok(63)),
        // One lock twice.
        (b"\x00\x02\x01a\x01a\x00\x00\x00\x00", bad),
        (b"\x01\x01\x01a\x01a\x00\x00\x00\x00", bad),
        // The locks a and c, and then b, c and d.
        (b"\x02\x03\x01a\x01c\x01b\x01c\x01d\x00\x00\x00\x00", bad),
        // A lock without a name, and one that goes past the end.
        (b"\x00\x01\x00\x00\x00\x00\x00", bad),
        (b"\x00\x01\x40a\x00\x00\x00\x00", bad),
        // A byte after the payload, and a payload that lacks one.
        (b"\x00\x00\x00\x00\x00\x01xy", bad),
        (b"\x00\x00\x00\x00\x00\x02x", bad),
        (b"\x00\x00\x00\x00\x00\x02xy", Ok(61)),
    ];
    for (rest, read) in cases {
        assert!(rt; read_of(rt.alloc(), rest)? == (read, read));
    }
    Ok(())
}

// The largest record: 64 locks of 64 bytes, half of them read locks, and 65,536 bytes.
fn largest(alloc: Global) -> Result<Record, Fail>
    ensures { IfOk result IsRecord }
{
    let mut reads = Vec::new(alloc);
    let mut writes = Vec::new(alloc);
    for k in 0..64u8 {
        let mut name = [b'n'; 64];
        name[63] = k;
        let lock = Lock::new(alloc, &name)?;
        if k % 2 == 0 {
            reads.push(lock)?;
        } else {
            writes.push(lock)?;
        }
    }
    let payload = vec![in alloc; 7u8; 65536]?;
    first_record(alloc, reads, writes, &payload)
}

// The lengths that are written and read, and whether what is read is what was written.
fn passed_on(alloc: Global, entry: &Record) -> Result<(usize, usize, bool), Fail>
    requires { IsRecord entry.now }
{
    let mut bytes = Vec::new(alloc);
    encode_record(alloc, entry, &mut bytes)?;
    let (copy, len) = decode_record(alloc, &bytes)?;
    Ok((bytes.len(), len, are_same(&copy, entry)))
}

#[test]
fn the_largest_record(rt: HostRuntime) -> Result<(), Fail> {
    let entry = largest(rt.alloc())?;
    assert!(rt; passed_on(rt.alloc(), &entry)? == (69755, 69755, true));
    Ok(())
}

#[test]
fn entries_come_back(rt: HostRuntime) {
    let cases = [
        (Meta::Promise(1), 21),
        (
            Meta::Adopt(MAX_PLACE, MAX_PLACE + 1, u32::MAX, MAX_PLACE),
            41,
        ),
        (Meta::Low(0), 21),
        (Meta::Roll(2, 1), 25),
        (Meta::Value(MAX_PLACE), 21),
    ];
    for (entry, wanted) in cases {
        let mut bytes = [9; META_FRAME];
        let len = encode_meta(&entry, &mut bytes);
        assert!(rt; len == wanted && decode_meta(&bytes) == Ok((entry, wanted)));
        assert!(rt; bytes.iter().skip(wanted).all(|b| *b == 9));
    }
    let mut bytes = [0; META_FRAME];
    let len = encode_meta(&Meta::Promise(1), &mut bytes);
    let (front, _) = bytes.split_at(len);
    assert!(rt; front == PROMISE);
}

fn entry_read(alloc: Global, body: &[u8]) -> Result<Result<(Meta, usize), FrameFault>, Fail> {
    Ok(decode_meta(&framed(alloc, body)?))
}

#[test]
fn entries_out_of_range(rt: HostRuntime) -> Result<(), Fail> {
    let cases = [
        // The sessions 0 and 2^48, the low mark 2^48, and an entry of no kind.
        (b"\x01\x00\x00\x00\x00\x00\x00\x00\x00".as_slice(), 4),
        (b"\x01\x00\x01\x00\x00\x00\x00\x00\x00", 4),
        (b"\x03\x00\x01\x00\x00\x00\x00\x00\x00", 4),
        (b"\x02\x00\x00\x00\x00\x00\x00\x00\x01", 4),
        // The first id 0, and a promise that goes on.
        (b"\x04\x00\x00\x00\x02\x00\x00\x00\x00\x00\x00\x00\x00", 4),
        (b"\x01\x00\x00\x00\x00\x00\x00\x00\x01\x00\x00\x00\x00", 4),
        // A length that no entry has.
        (&[0; 10], 0),
    ];
    for (body, place) in cases {
        assert!(rt; entry_read(rt.alloc(), body)? == Err(FrameFault::Bad(place)));
    }
    Ok(())
}

#[test]
fn the_check_of_an_entry_is_read(rt: HostRuntime) -> Result<(), Fail> {
    let mut bytes = framed(rt.alloc(), b"\x03\x00\x00\x00\x00\x00\x00\x00\x01")?;
    if let Some(last) = bytes.last_mut() {
        *last ^= 1;
    }
    assert!(rt; decode_meta(&bytes) == Err(FrameFault::Bad(13)));
    Ok(())
}

#[test]
fn the_laws_of_frames_are_called(_rt: HostRuntime) {
    records_have_one_spelling();
    records_stand_alone();
    record_frames_stand_alone();
    metas_have_one_spelling();
    metas_stand_alone();
    meta_frames_stand_alone();
}
