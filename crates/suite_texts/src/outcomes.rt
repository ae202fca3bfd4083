use net_model::*;
use proto_model::{BuildFault, Phase, ReadRefusal, Refusal};
use schedule_text::*;
use std::alloc::{AllocError, Global};
use std::test::Fail;
use tx_model::Lock;

// The line of an outcome.
fn line(alloc: Global, outcome: &Outcome) -> Result<Vec<u8>, AllocError> {
    let mut text = Vec::new(alloc);
    print_outcome(alloc, outcome, &mut text)?;
    Ok(text)
}

#[test]
fn numbers_stand_behind_their_words(rt: HostRuntime) -> Result<(), Fail> {
    let cases = [
        (Outcome::Read(0), "read 0"),
        (Outcome::Won(1), "won 1"),
        (Outcome::Lost(281474976710655), "lost 281474976710655"),
        (Outcome::Exhausted, "exhausted"),
        (Outcome::Unread, "unread"),
        (Outcome::Wasted(3), "wasted 3"),
        (Outcome::Quiet, "quiet"),
        (Outcome::NoEnvelope, "none"),
        (Outcome::Skipped(4294967295), "skipped 4294967295"),
        (Outcome::Client(1, 0), "client 1 mark 0"),
    ];
    for (outcome, text) in &cases {
        let found = line(rt.alloc(), outcome)?;
        assert!(rt; found.as_slice() == text.as_bytes());
    }
    Ok(())
}

#[test]
fn states_are_told_by_their_fields(rt: HostRuntime) -> Result<(), Fail> {
    let cases = [
        (Outcome::Node(3, 5, 4, 2, 9), "n3 p=5 a=4 w=2 len=9"),
        (Outcome::Torn(1, 6, 0, 0, 7), "torn n1 p=6 a=0 w=0 len=7"),
        (Outcome::Idle(2), "s2 idle"),
        (
            Outcome::Server(1, Phase::Running, 2, 7, 6),
            "s1 running session=2 last=7 committed=6",
        ),
        (
            Outcome::Server(9, Phase::Closed(3), 2, 7, 6),
            "s9 closed by=3 session=2 last=7 committed=6",
        ),
        (
            Outcome::Server(2, Phase::Opening, 5, 0, 0),
            "s2 opening session=5 last=0 committed=0",
        ),
    ];
    for (outcome, text) in &cases {
        let found = line(rt.alloc(), outcome)?;
        assert!(rt; found.as_slice() == text.as_bytes());
    }
    Ok(())
}

fn app_line(alloc: Global, text: &[u8]) -> Result<Vec<u8>, AllocError> {
    let text = AppText::new(Vec::from_slice(alloc, text)?);
    line(alloc, &Outcome::App(1, 2, text))
}

fn log_line(alloc: Global, length: u64, entries: &[Entry]) -> Result<Vec<u8>, AllocError> {
    let entries = Entries::new(Vec::from_slice(alloc, entries)?);
    line(alloc, &Outcome::Log(length, entries))
}

fn dump_line(alloc: Global, length: u64, bytes: &[u8]) -> Result<Vec<u8>, AllocError> {
    let bytes = Bytes::new(Vec::from_slice(alloc, bytes)?);
    line(alloc, &Outcome::Dump(length, bytes))
}

fn entry(id: u64, request: u64) -> Entry {
    Entry {
        id,
        session: 2,
        client: 3,
        request,
    }
}

#[test]
fn applications_stand_as_they_are(rt: HostRuntime) -> Result<(), Fail> {
    assert!(rt;
        app_line(rt.alloc(), b" a=5 b=-1")?.as_slice() == b"app 1 mark=2 a=5 b=-1".as_slice()
    );
    assert!(rt; app_line(rt.alloc(), b"")?.as_slice() == b"app 1 mark=2".as_slice());
    Ok(())
}

#[test]
fn logs_are_told_record_by_record(rt: HostRuntime) -> Result<(), Fail> {
    let two = log_line(rt.alloc(), 8, &[entry(7, 4), entry(8, 5)])?;
    assert!(rt; two.as_slice() == b"log len=8 7/2/3.4 8/2/3.5".as_slice());
    assert!(rt; log_line(rt.alloc(), 0, &[])?.as_slice() == b"log len=0".as_slice());
    Ok(())
}

#[test]
fn bytes_are_told_in_hexadecimal(rt: HostRuntime) -> Result<(), Fail> {
    let four = dump_line(rt.alloc(), 300, &[0, 10, 171, 255])?;
    assert!(rt; four.as_slice() == b"dump len=300 000aabff".as_slice());
    assert!(rt; dump_line(rt.alloc(), 3, &[])?.as_slice() == b"dump len=3 -".as_slice());
    Ok(())
}

// What is told of a message on its way.
fn told(alloc: Global, brief: Brief) -> Result<Vec<u8>, AllocError> {
    let item = Item {
        number: 15,
        from: Party::Server(1),
        to: Party::Client(2),
        brief,
    };
    let items = vec![in alloc; item]?;
    let sent = line(alloc, &Outcome::Sent(Items::new(items)))?;
    match sent.as_slice().strip_prefix(b"sent 15 s1>c2 ") {
        Some(text) => Vec::from_slice(alloc, text),
        None => Ok(sent),
    }
}

#[test]
fn a_servers_requests_have_their_numbers(rt: HostRuntime) -> Result<(), Fail> {
    let cases = [
        (ToNodeBrief::Open(1), "open 1"),
        (ToNodeBrief::Fetch(1, 2, 8), "fetch 1 2 8"),
        (ToNodeBrief::Stage(2, 1, 8), "stage 2 1 8"),
        (ToNodeBrief::Adopt(2, 9), "adopt 2 9"),
        (ToNodeBrief::Append(1, 5, 3), "append 1 5 3"),
        (ToNodeBrief::Low(1, 4), "low 1 4"),
    ];
    for (brief, text) in cases {
        let found = told(rt.alloc(), Brief::ToNode(brief))?;
        assert!(rt; found.as_slice() == text.as_bytes());
    }
    Ok(())
}

#[test]
fn a_nodes_replies_have_their_numbers(rt: HostRuntime) -> Result<(), Fail> {
    let cases = [
        (FromNodeBrief::Opened(4, 3, 2, 1), "opened 4 3 2 1"),
        (FromNodeBrief::Stale(1, 2), "stale 1 2"),
        (FromNodeBrief::Unopened(3, 2), "unopened 3 2"),
        (FromNodeBrief::Records(3, 1, 8), "records 3 1 8"),
        (FromNodeBrief::Staged(3, 8), "staged 3 8"),
        (FromNodeBrief::StageAt(3, 9), "stageat 3 9"),
        (FromNodeBrief::Adopted(3, 9), "adopted 3 9"),
        (FromNodeBrief::Acked(3, 10), "acked 3 10"),
        (FromNodeBrief::Gap(3, 7), "gap 3 7"),
        (FromNodeBrief::NotAdopted(3, 2), "notadopted 3 2"),
        (FromNodeBrief::LowSet(3, 6), "lowset 3 6"),
    ];
    for (brief, text) in cases {
        let found = told(rt.alloc(), Brief::FromNode(brief))?;
        assert!(rt; found.as_slice() == text.as_bytes());
    }
    Ok(())
}

#[test]
fn clients_and_servers_are_told_by_their_numbers(rt: HostRuntime) -> Result<(), Fail> {
    let cases = [
        (Brief::ToServer(ToServerBrief::Append(7)), "append 7"),
        (Brief::ToServer(ToServerBrief::Feed(1, 16)), "feed 1 16"),
        (Brief::ToServer(ToServerBrief::Get(3)), "get 3"),
        (Brief::ToServer(ToServerBrief::Flush), "flush"),
        (
            Brief::FromServer(FromServerBrief::Committed(7, 3)),
            "committed 7 3",
        ),
        (
            Brief::FromServer(FromServerBrief::Pending(7, 4)),
            "pending 7 4",
        ),
        (
            Brief::FromServer(FromServerBrief::Heads(1, 2, 7)),
            "heads 1 2 7",
        ),
        (Brief::FromServer(FromServerBrief::Entry(3)), "entry 3"),
        (Brief::FromServer(FromServerBrief::Flushed(6)), "flushed 6"),
    ];
    for (brief, text) in cases {
        let found = told(rt.alloc(), brief)?;
        assert!(rt; found.as_slice() == text.as_bytes());
    }
    Ok(())
}

fn refused(alloc: Global, refusal: Refusal) -> Result<Vec<u8>, AllocError> {
    told(
        alloc,
        Brief::FromServer(FromServerBrief::Refused(8, refusal)),
    )
}

fn locked(alloc: Global, name: &[u8]) -> Result<Vec<u8>, Fail> {
    Ok(refused(alloc, Refusal::Locked(Lock::new(alloc, name)?, 2))?)
}

#[test]
fn a_refused_append_has_its_reason(rt: HostRuntime) -> Result<(), Fail> {
    let cases = [
        (
            Refusal::NotRunning(Phase::Fetching),
            "refused 8 notrunning fetching",
        ),
        (Refusal::Closed(4), "refused 8 closed 4"),
        (Refusal::MarkAhead(9), "refused 8 markahead 9"),
        (Refusal::WindowFull, "refused 8 windowfull"),
        (Refusal::LogFull, "refused 8 logfull"),
    ];
    for (refusal, text) in cases {
        let found = refused(rt.alloc(), refusal)?;
        assert!(rt; found.as_slice() == text.as_bytes());
    }
    Ok(())
}

#[test]
fn a_lock_that_is_no_key_is_told_in_hexadecimal(rt: HostRuntime) -> Result<(), Fail> {
    assert!(rt; locked(rt.alloc(), b"b_1")?.as_slice() == b"refused 8 locked b_1 2".as_slice());
    assert!(rt;
        locked(rt.alloc(), b"A\xff")?.as_slice() == b"refused 8 locked 0x41ff 2".as_slice()
    );
    Ok(())
}

#[test]
fn a_refused_read_has_its_reason(rt: HostRuntime) -> Result<(), Fail> {
    let cases = [
        (
            ReadRefusal::NotRunning(Phase::Idle),
            "unserved notrunning idle",
        ),
        (ReadRefusal::BadId, "unserved badid"),
        (ReadRefusal::NotYet(1), "unserved notyet 1"),
    ];
    for (refusal, text) in cases {
        let found = told(
            rt.alloc(),
            Brief::FromServer(FromServerBrief::Unserved(refusal)),
        )?;
        assert!(rt; found.as_slice() == text.as_bytes());
    }
    Ok(())
}

fn unbuilt(alloc: Global, fault: BuildFault) -> Result<Vec<u8>, AllocError> {
    line(alloc, &Outcome::Refused(fault))
}

#[test]
fn what_is_not_built_has_its_reason(rt: HostRuntime) -> Result<(), Fail> {
    let cases = [
        (BuildFault::BadOps(9), "refused badops 9"),
        (BuildFault::TooManyLocks, "refused toomanylocks"),
        (BuildFault::DoubleLock, "refused doublelock"),
        (BuildFault::PayloadTooLong, "refused payloadtoolong"),
        (
            BuildFault::Unlocked(Lock::new(rt.alloc(), b"b")?),
            "refused unlocked b",
        ),
        (BuildFault::LastRequest, "refused lastrequest"),
    ];
    for (fault, text) in cases {
        let found = unbuilt(rt.alloc(), fault)?;
        assert!(rt; found.as_slice() == text.as_bytes());
    }
    Ok(())
}

// Two envelopes that were made, behind what was printed before.
fn two_envelopes(alloc: Global) -> Result<Vec<u8>, AllocError> {
    let opened = Item {
        number: 4,
        from: Party::Node(1),
        to: Party::Server(1),
        brief: Brief::FromNode(FromNodeBrief::Opened(1, 0, 0, 0)),
    };
    let staged = Item {
        number: 4294967295,
        from: Party::Server(1),
        to: Party::Node(3),
        brief: Brief::ToNode(ToNodeBrief::Stage(2, 1, 8)),
    };
    let sent = Outcome::Sent(Items::new(vec![in alloc; opened, staged]?));
    let mut text = vec![in alloc; b'>']?;
    print_outcome(alloc, &sent, &mut text)?;
    Ok(text)
}

#[test]
fn envelopes_have_a_comma_between_them(rt: HostRuntime) -> Result<(), Fail> {
    let line = b">sent 4 n1>s1 opened 1 0 0 0, 4294967295 s1>n3 stage 2 1 8".as_slice();
    assert!(rt; two_envelopes(rt.alloc())?.as_slice() == line);
    Ok(())
}

// The reasons alone, one behind the other.
fn reasons(alloc: Global) -> Result<Vec<u8>, AllocError> {
    let mut text = Vec::new(alloc);
    print_refusal(alloc, &Refusal::NotRunning(Phase::Repairing), &mut text)?;
    print_read_refusal(alloc, &ReadRefusal::BadId, &mut text)?;
    print_build_fault(alloc, &BuildFault::DoubleLock, &mut text)?;
    Ok(text)
}

#[test]
fn reasons_print_alone(rt: HostRuntime) -> Result<(), Fail> {
    assert!(rt;
        reasons(rt.alloc())?.as_slice() == b"notrunning repairingbadiddoublelock".as_slice()
    );
    Ok(())
}
