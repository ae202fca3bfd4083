//! Every kind of message with its frame, written by hand from the table of formats.
ghost use Rattle.std.specs.Prelude.{◌≡◌, ◌≤◌, ◌<◌, ◌^◌, IfOk};
ghost use Rattle.tx_model.specs.Transactions.{IsTransaction};
ghost use Rattle.tx_model.specs.Records.{IsRecord, IsBatch};
ghost use Rattle.proto_model.specs.Validity.{IsHead, AreHeads, IsValidFromNode};
ghost use Rattle.wire_codec.specs.Spelling.{IsValidMessage};

use proto_model::{
    FromNode, FromServer, Phase, ReadRefusal, Refusal, ToNode, ToServer, every_receive_is_sane,
    every_step_is_sane, messages_are_valid, replies_are_valid,
};
use record_frame::FrameFault;
use std::alloc::Global;
use std::test::Fail;
use tx_model::{Batch, Head, Heads, Lock, Record, Tx};
use wire_codec::{
    Control, FromRegister, MAX_FRAME, Message, ToRegister, check, decode, encode, frames_are_short,
    messages_have_one_spelling,
};

// Client 7, request 3, mark 8, read lock `b`, write lock `a`, payload `set a 5`.
const TRANSACTION: &str = "0000000000000007 0000000000000003 0000000000000008 01 01 01 62 01 61 \
    00000007 73 65 74 20 61 20 35";

// The records 9 and 10 of session 4, up to that transaction: the length of the body, the version, the id, the session.
const FRONT_9: &str = "0000003a 01 0000000000000009 0000000000000004";

const FRONT_10: &str = "0000003a 01 000000000000000a 0000000000000004";

// The heads of these two records.
const HEADS: &str = "0000000000000009 0000000000000004 0000000000000008 01 01 01 62 01 61 \
    000000000000000a 0000000000000004 0000000000000008 01 01 01 62 01 61";

// ---- bytes

// The bytes of hexadecimal texts, in which spaces mean nothing.
fn bytes_of(alloc: Global, texts: &[&str]) -> Option<Vec<u8>> {
    let mut digits = Vec::new(alloc);
    for text in texts {
        for digit in text.as_bytes() {
            if *digit != b' ' {
                digits.push(*digit).ok()?;
            }
        }
    }
    hex::decode(alloc, digits.as_slice()).ok()
}

// The frame of a message.
fn frame_of(alloc: Global, m: &Message) -> Option<Vec<u8>>
    requires { IsValidMessage m.now }
{
    let mut bytes = Vec::new(alloc);
    encode(alloc, m, &mut bytes).ok()?;
    Some(bytes)
}

// The frame of the message that is read, and how many bytes were read of it.
fn rewritten(alloc: Global, bytes: &[u8]) -> Option<(Vec<u8>, usize)> {
    let (m, len) = decode(alloc, bytes).ok()?;
    let frame = frame_of(alloc, &m)?;
    Some((frame, len))
}

// Whether the bytes are the frame of one message.
fn are_one_frame(alloc: Global, bytes: &[u8]) -> bool {
    match rewritten(alloc, bytes) {
        Some((frame, len)) => {
            len == bytes.len() && check(bytes) == Ok(len) && frame.as_slice() == bytes
        }
        None => false,
    }
}

// Whether the message has this frame, and whether what is read of the frame has this frame.
fn agree(alloc: Global, m: &Message, texts: &[&str]) -> Option<bool>
    requires { IsValidMessage m.now }
{
    let bytes = bytes_of(alloc, texts)?;
    let frame = frame_of(alloc, m)?;
    Some(frame == bytes && are_one_frame(alloc, &bytes))
}

fn has_frame(alloc: Global, m: Message, texts: &[&str]) -> bool
    requires { IsValidMessage m }
{
    agree(alloc, &m, texts) == Some(true)
}

// ---- parts of messages

fn locks(alloc: Global, name: &[u8]) -> Result<Vec<Lock>, Fail> {
    let lock = Lock::new(alloc, name)?;
    Ok(vec![in alloc; lock]?)
}

fn tx(alloc: Global) -> Result<Tx, Fail>
    ensures { IfOk result IsTransaction }
{
    let reads = locks(alloc, b"b")?;
    let writes = locks(alloc, b"a")?;
    let payload = Vec::from_slice(alloc, b"set a 5")?;
    let tx = Tx::new(alloc, 7, 3, 8, reads, writes, payload)?;
    let _payload = tx.payload();
    Ok(tx)
}

fn entry(alloc: Global, id: u64) -> Result<Record, Fail>
    requires some { 1 ≤ id }
    requires below { id < 2 ^ 48 }
    ensures { IfOk result (λ r. IsRecord r × (r.id ≡ id)) }
{
    let tx = tx(alloc)?;
    Ok(Record { id, session: 4, tx })
}

fn head(alloc: Global, id: u64) -> Result<Head, Fail>
    requires some { 1 ≤ id }
    requires below { id < 2 ^ 48 }
    ensures { IfOk result (λ h. IsHead h × (h.id ≡ id)) }
{
    let entry = entry(alloc, id)?;
    Ok(entry.head(alloc)?)
}

// The records 9 and 10.
fn batch(alloc: Global) -> Result<Batch, Fail>
    ensures { IfOk result IsBatch }
{
    let mut records = Vec::new(alloc);
    records.push(entry(alloc, 9)?)?;
    records.push(entry(alloc, 10)?)?;
    let batch = Batch::new(records)?;
    let _records = batch.records();
    Ok(batch)
}

// The heads of these records.
#[tactic(auto, unfolding(proto_model::specs::Validity::HeadsRise))]
fn heads(alloc: Global) -> Result<Heads, Fail>
    ensures { IfOk result (λ heads. AreHeads 9 heads) }
{
    let mut heads = Vec::new(alloc);
    heads.push(head(alloc, 9)?)?;
    heads.push(head(alloc, 10)?)?;
    Ok(Heads::new(heads))
}

// ---- each kind

#[test]
fn messages_to_a_node(rt: HostRuntime) {
    let alloc = rt.alloc();
    let found = [
        has_frame(
            alloc,
            Message::ToNode(ToNode::Open(5)),
            &["0000000a 01 01 0000000000000005"],
        ),
        has_frame(
            alloc,
            Message::ToNode(ToNode::Fetch(5, 9, 8)),
            &["00000013 01 02 0000000000000005 0000000000000009 08"],
        ),
        has_frame(
            alloc,
            Message::ToNode(ToNode::Adopt(5, 9)),
            &["00000012 01 04 0000000000000005 0000000000000009"],
        ),
        has_frame(
            alloc,
            Message::ToNode(ToNode::Low(5, 8)),
            &["00000012 01 06 0000000000000005 0000000000000008"],
        ),
    ];
    assert!(rt; found == [true; 4]);
}

fn is_reply(alloc: Global, m: FromNode, text: &str) -> bool
    requires { IsValidFromNode m }
{
    has_frame(alloc, Message::FromNode(m), &[text])
}

#[test]
fn replies_until_a_log_is_adopted(rt: HostRuntime) {
    let found = [
        is_reply(
            rt.alloc(),
            FromNode::Opened(5, 4, 8, 9),
            "00000022 02 01 0000000000000005 0000000000000004 0000000000000008 0000000000000009",
        ),
        is_reply(
            rt.alloc(),
            FromNode::Stale(5, 6),
            "00000012 02 02 0000000000000005 0000000000000006",
        ),
        is_reply(
            rt.alloc(),
            FromNode::Unopened(5, 4),
            "00000012 02 03 0000000000000005 0000000000000004",
        ),
        is_reply(
            rt.alloc(),
            FromNode::Staged(5, 10),
            "00000012 02 05 0000000000000005 000000000000000a",
        ),
        is_reply(
            rt.alloc(),
            FromNode::StageAt(5, 11),
            "00000012 02 06 0000000000000005 000000000000000b",
        ),
        is_reply(
            rt.alloc(),
            FromNode::Adopted(5, 10),
            "00000012 02 07 0000000000000005 000000000000000a",
        ),
    ];
    assert!(rt; found == [true; 6]);
}

#[test]
fn replies_about_the_adopted_log(rt: HostRuntime) {
    let found = [
        is_reply(
            rt.alloc(),
            FromNode::Acked(5, 10),
            "00000012 02 08 0000000000000005 000000000000000a",
        ),
        is_reply(
            rt.alloc(),
            FromNode::Gap(5, 9),
            "00000012 02 09 0000000000000005 0000000000000009",
        ),
        is_reply(
            rt.alloc(),
            FromNode::NotAdopted(5, 4),
            "00000012 02 0a 0000000000000005 0000000000000004",
        ),
        is_reply(
            rt.alloc(),
            FromNode::LowSet(5, 8),
            "00000012 02 0b 0000000000000005 0000000000000008",
        ),
    ];
    assert!(rt; found == [true; 4]);
}

#[test]
fn requests_to_a_server(rt: HostRuntime) {
    let alloc = rt.alloc();
    let found = [
        has_frame(
            alloc,
            Message::ToServer(ToServer::Feed(9, 16)),
            &["0000000b 03 02 0000000000000009 10"],
        ),
        has_frame(
            alloc,
            Message::ToServer(ToServer::Get(9)),
            &["0000000a 03 03 0000000000000009"],
        ),
        has_frame(
            alloc,
            Message::ToServer(ToServer::Flush),
            &["00000002 03 04"],
        ),
    ];
    assert!(rt; found == [true; 3]);
}

#[test]
fn answers_of_a_server(rt: HostRuntime) {
    let alloc = rt.alloc();
    let found = [
        has_frame(
            alloc,
            Message::FromServer(FromServer::Committed(3, 9)),
            &["00000012 04 01 0000000000000003 0000000000000009"],
        ),
        has_frame(
            alloc,
            Message::FromServer(FromServer::Pending(3, 9)),
            &["00000012 04 02 0000000000000003 0000000000000009"],
        ),
        has_frame(
            alloc,
            Message::FromServer(FromServer::Flushed(8)),
            &["0000000a 04 06 0000000000000008"],
        ),
    ];
    assert!(rt; found == [true; 3]);
}

// A refusal of the request 3.
fn refused(reason: Refusal) -> Message
    ensures { result ≡ Message.FromServer (FromServer.Refused 3 reason) }
{
    Message::FromServer(FromServer::Refused(3, reason))
}

#[test]
fn reasons_of_a_refusal(rt: HostRuntime) {
    let alloc = rt.alloc();
    let found = [
        has_frame(
            alloc,
            refused(Refusal::NotRunning(Phase::Idle)),
            &["0000000c 04 03 0000000000000003 01 00"],
        ),
        has_frame(
            alloc,
            refused(Refusal::NotRunning(Phase::Opening)),
            &["0000000c 04 03 0000000000000003 01 01"],
        ),
        has_frame(
            alloc,
            refused(Refusal::NotRunning(Phase::Fetching)),
            &["0000000c 04 03 0000000000000003 01 02"],
        ),
        has_frame(
            alloc,
            refused(Refusal::NotRunning(Phase::Repairing)),
            &["0000000c 04 03 0000000000000003 01 03"],
        ),
        has_frame(
            alloc,
            refused(Refusal::Closed(6)),
            &["00000013 04 03 0000000000000003 02 0000000000000006"],
        ),
        has_frame(
            alloc,
            refused(Refusal::MarkAhead(8)),
            &["00000013 04 03 0000000000000003 03 0000000000000008"],
        ),
        has_frame(
            alloc,
            refused(Refusal::WindowFull),
            &["0000000b 04 03 0000000000000003 05"],
        ),
        has_frame(
            alloc,
            refused(Refusal::LogFull),
            &["0000000b 04 03 0000000000000003 06"],
        ),
    ];
    assert!(rt; found == [true; 8]);
}

#[test]
fn reasons_to_show_nothing(rt: HostRuntime) {
    let alloc = rt.alloc();
    let found = [
        has_frame(
            alloc,
            Message::FromServer(FromServer::Unserved(ReadRefusal::NotRunning(Phase::Idle))),
            &["00000004 04 07 01 00"],
        ),
        has_frame(
            alloc,
            Message::FromServer(FromServer::Unserved(ReadRefusal::BadId)),
            &["00000003 04 07 07"],
        ),
        has_frame(
            alloc,
            Message::FromServer(FromServer::Unserved(ReadRefusal::NotYet(8))),
            &["0000000b 04 07 08 0000000000000008"],
        ),
    ];
    assert!(rt; found == [true; 3]);
}

#[test]
fn messages_to_and_from_the_register(rt: HostRuntime) {
    let alloc = rt.alloc();
    let found = [
        has_frame(
            alloc,
            Message::ToRegister(ToRegister::Read),
            &["00000002 05 01"],
        ),
        has_frame(
            alloc,
            Message::ToRegister(ToRegister::Cas(6)),
            &["0000000a 05 02 0000000000000006"],
        ),
        has_frame(
            alloc,
            Message::FromRegister(FromRegister::Value(6)),
            &["0000000a 06 01 0000000000000006"],
        ),
        has_frame(
            alloc,
            Message::FromRegister(FromRegister::Won(7)),
            &["0000000a 06 02 0000000000000007"],
        ),
        has_frame(
            alloc,
            Message::FromRegister(FromRegister::Lost(8)),
            &["0000000a 06 03 0000000000000008"],
        ),
        has_frame(
            alloc,
            Message::FromRegister(FromRegister::Exhausted),
            &["00000002 06 04"],
        ),
    ];
    assert!(rt; found == [true; 6]);
}

#[test]
fn messages_about_serving(rt: HostRuntime) {
    let alloc = rt.alloc();
    let found = [
        has_frame(alloc, Message::Control(Control::Bye), &["00000002 07 01"]),
        has_frame(alloc, Message::Control(Control::Done), &["00000002 07 02"]),
        has_frame(alloc, Message::Control(Control::No), &["00000002 07 03"]),
    ];
    assert!(rt; found == [true; 3]);
}

// ---- kinds that hold records

#[test]
fn a_batch_is_staged(rt: HostRuntime) -> Result<(), Fail> {
    let alloc = rt.alloc();
    let m = Message::ToNode(ToNode::Stage(5, batch(alloc)?));
    let front = "00000087 01 03 0000000000000005 02";
    let texts = [front, FRONT_9, TRANSACTION, FRONT_10, TRANSACTION];
    assert!(rt; has_frame(alloc, m, &texts));
    Ok(())
}

#[test]
fn a_batch_is_appended(rt: HostRuntime) -> Result<(), Fail> {
    let alloc = rt.alloc();
    let m = Message::ToNode(ToNode::Append(5, batch(alloc)?));
    let front = "00000087 01 05 0000000000000005 02";
    let texts = [front, FRONT_9, TRANSACTION, FRONT_10, TRANSACTION];
    assert!(rt; has_frame(alloc, m, &texts));
    Ok(())
}

#[test]
fn a_node_gives_records(rt: HostRuntime) -> Result<(), Fail> {
    let alloc = rt.alloc();
    let reply = FromNode::Records(5, batch(alloc)?);
    let copy = reply.copy(alloc)?;
    let front = "00000087 02 04 0000000000000005 02";
    let texts = [front, FRONT_9, TRANSACTION, FRONT_10, TRANSACTION];
    assert!(rt; has_frame(alloc, Message::FromNode(reply), &texts));
    assert!(rt; has_frame(alloc, Message::FromNode(copy), &texts));
    Ok(())
}

#[test]
fn a_transaction_is_appended(rt: HostRuntime) -> Result<(), Fail> {
    let alloc = rt.alloc();
    let m = Message::ToServer(ToServer::Append(tx(alloc)?));
    assert!(rt; has_frame(alloc, m, &["0000002b 03 01", TRANSACTION]));
    Ok(())
}

#[test]
fn a_server_shows_a_record(rt: HostRuntime) -> Result<(), Fail> {
    let alloc = rt.alloc();
    let m = Message::FromServer(FromServer::Entry(entry(alloc, 9)?));
    assert!(rt; has_frame(alloc, m, &["00000040 04 05", FRONT_9, TRANSACTION]));
    Ok(())
}

#[tactic(auto, unfolding(proto_model::specs::Validity::HeadsRise))]
fn no_heads(alloc: Global) -> Heads
    ensures { AreHeads 9 result }
{
    Heads::new(Vec::new(alloc))
}

#[test]
fn a_server_shows_heads(rt: HostRuntime) -> Result<(), Fail> {
    let alloc = rt.alloc();
    let some = Message::FromServer(FromServer::Heads(9, 10, heads(alloc)?));
    let none = Message::FromServer(FromServer::Heads(9, 8, no_heads(alloc)));
    let front = "0000004f 04 04 0000000000000009 000000000000000a 02";
    let empty = "00000013 04 04 0000000000000009 0000000000000008 00";
    assert!(rt; has_frame(alloc, some, &[front, HEADS]));
    assert!(rt; has_frame(alloc, none, &[empty]));
    Ok(())
}

#[test]
fn a_lock_refuses(rt: HostRuntime) -> Result<(), Fail> {
    let alloc = rt.alloc();
    let reason = Refusal::Locked(Lock::new(alloc, b"a")?, 9);
    let copy = reason.copy(alloc)?;
    let text = "00000015 04 03 0000000000000003 04 01 61 0000000000000009";
    assert!(rt; has_frame(alloc, refused(reason), &[text]));
    assert!(rt; has_frame(alloc, refused(copy), &[text]));
    Ok(())
}

// ---- what is no message

// How the bytes are refused, by both calls alike.
fn fault_of(alloc: Global, bytes: &[u8]) -> Option<FrameFault> {
    let fault = check(bytes).err();
    let same = decode(alloc, bytes).err() == fault;
    if same { fault } else { None }
}

fn refusal_of(alloc: Global, texts: &[&str]) -> Option<FrameFault> {
    let bytes = bytes_of(alloc, texts)?;
    fault_of(alloc, &bytes)
}

// Whether each proper prefix of the bytes may become a frame.
fn are_prefixes_short(alloc: Global, bytes: &[u8]) -> bool {
    for len in 0..bytes.len() {
        if fault_of(alloc, &bytes[..len]) != Some(FrameFault::Short) {
            return false;
        }
    }
    true
}

#[test]
fn a_part_of_a_frame_is_short(rt: HostRuntime) -> Result<(), Fail> {
    let alloc = rt.alloc();
    let texts = ["00000040 04 05", FRONT_9, TRANSACTION];
    let bytes = bytes_of(alloc, &texts).ok_or("memory")?;
    assert!(rt; bytes.len() == 68 && are_prefixes_short(alloc, &bytes));
    Ok(())
}

#[test]
fn bodies_have_2_to_600000_bytes(rt: HostRuntime) {
    let cases = [
        ("00000001 03", FrameFault::Bad(0)),
        ("000927c1 01 01", FrameFault::Bad(0)),
        ("000927c0 01 01", FrameFault::Short),
        ("ffffffff", FrameFault::Bad(0)),
    ];
    for (text, fault) in cases {
        assert!(rt; refusal_of(rt.alloc(), &[text]) == Some(fault), "at {text}");
    }
    assert!(rt; MAX_FRAME == 600_004);
}

#[test]
fn bodies_in_no_form(rt: HostRuntime) {
    let cases = [
        // Families and kinds that are none.
        "00000002 00 01",
        "00000002 08 01",
        "00000002 01 07",
        "00000002 07 00",
        // No field where there is one, and a field where there is none.
        "00000002 01 02",
        "00000003 03 04 00",
        // Session 0, and session 2^48.
        "0000000a 01 01 0000000000000000",
        "0000000a 01 01 0001000000000000",
        // A feed of 17 heads, of none, and from 2^48 + 1.
        "0000000b 03 02 0000000000000009 11",
        "0000000b 03 02 0000000000000009 00",
        "0000000b 03 02 0001000000000001 10",
        // A phase that is no reason.
        "00000004 04 07 01 04",
    ];
    for text in cases {
        let fault = refusal_of(rt.alloc(), &[text]);
        assert!(rt; fault == Some(FrameFault::Bad(4)), "at {text}");
    }
}

#[test]
fn lists_in_no_form(rt: HostRuntime) {
    let append = "00000049 01 05 0000000000000005";
    let heads = "00000031 04 04 0000000000000009 000000000000000a";
    let cases: [&[&str]; 7] = [
        // A count of nine records, one of none, and one of one with two records behind it.
        &[append, "09", FRONT_9, TRANSACTION],
        &["0000000b 01 05 0000000000000005 00"],
        &[
            "00000087 01 05 0000000000000005 01",
            FRONT_9,
            TRANSACTION,
            FRONT_10,
            TRANSACTION,
        ],
        // Ids that don't rise by one.
        &[
            "00000087 01 05 0000000000000005 02",
            FRONT_10,
            TRANSACTION,
            FRONT_9,
            TRANSACTION,
        ],
        // Heads from 9 on that begin with another id, and fewer heads than their count.
        &[
            heads,
            "01 000000000000000a 0000000000000004 0000000000000008 01 01 01 62 01 61",
        ],
        &[
            heads,
            "11 0000000000000009 0000000000000004 0000000000000008 01 01 01 62 01 61",
        ],
        // Write locks that don't rise.
        &[
            "00000024 03 01",
            "0000000000000007 0000000000000003 0000000000000008 00 02 01 62 01 61 00000000",
        ],
    ];
    for texts in cases {
        assert!(rt; refusal_of(rt.alloc(), texts) == Some(FrameFault::Bad(4)));
    }
}

// ---- laws

#[test]
fn laws_hold(_rt: HostRuntime) {
    every_step_is_sane();
    replies_are_valid();
    messages_are_valid();
    every_receive_is_sane();
    messages_have_one_spelling();
    frames_are_short();
}
