use crate::bytes::{BYE, DONE, NO, READ, all_bytes, are};
use disk_model::MemDisk;
use io_core::{MemPort, MemSink};
use node_loops::serve_register;
use session_register::{DiskRegister, MemRegister, Register};
use std::alloc::Global;
use std::test::Fail;

const CAS_0: &str = "0000000a 05 02 0000000000000000";

const VALUE_0: &str = "0000000a 06 01 0000000000000000";

const WON_1: &str = "0000000a 06 02 0000000000000001";

const LOST_1: &str = "0000000a 06 03 0000000000000001";

// The numbers of the calls that fail: of the disk, of the port and of the sink.
#[derive(Clone, Copy)]
struct Failing {
    disk: u64,
    port: u64,
    sink: u64,
}

const NONE: Failing = Failing {
    disk: 0,
    port: 0,
    sink: 0,
};

// Whether a register over an empty disk answers these requests so, ends with this status and prints this text, and holds
// this number when it is loaded again.
fn serves(
    alloc: Global,
    failing: Failing,
    requests: &[&str],
    want: (&[&str], u8, &str, u64),
) -> Result<bool, Fail> {
    let disk = MemDisk::failing(alloc, vec![in alloc; failing.disk]?);
    let mut register = DiskRegister::load(disk).map_err(|u| u.fault)?;
    let requests = all_bytes(alloc, requests)?;
    let mut port = MemPort::new(alloc, requests, vec![in alloc; failing.port]?);
    let mut sink = MemSink::new(alloc, vec![in alloc; failing.sink]?);
    let status = serve_register(alloc, &mut register, &mut port, 7000, &mut sink);
    let mut again = DiskRegister::load(register.into_disk()).map_err(|u| u.fault)?;
    let (answers, due, text, number) = want;
    Ok(
        are(alloc, port.answers(), answers)?
            && status == due
            && sink.bytes() == text.as_bytes()
            && again.read()? == number,
    )
}

#[test]
fn a_number_is_won_once(rt: HostRuntime) -> Result<(), Fail> {
    let requests = [READ, CAS_0, CAS_0, BYE];
    let answers = [VALUE_0, WON_1, LOST_1, DONE];
    let want = (answers.as_slice(), 0, "listening 7000\nend bye\n", 1);
    assert!(rt; serves(rt.alloc(), NONE, &requests, want)?);
    Ok(())
}

#[test]
fn a_failing_disk_ends_it_without_an_answer(rt: HostRuntime) -> Result<(), Fail> {
    // Loading an empty file asks for its length, cuts and syncs. Then comes the write of the entry, and its sync.
    let requests = [READ, CAS_0, CAS_0, BYE];
    for (call, number) in [(4, 0), (5, 1)] {
        let failing = Failing { disk: call, ..NONE };
        let want = ([VALUE_0].as_slice(), 12, "listening 7000\n! disk\n", number);
        assert!(rt; serves(rt.alloc(), failing, &requests, want)?);
    }
    Ok(())
}

#[test]
fn what_is_no_request_of_its_family_is_refused(rt: HostRuntime) -> Result<(), Fail> {
    let requests = [
        "",
        "00",
        "00000002 05 01 00",
        "00000003 05 01 00",
        "0000000a 01 01 0000000000000001",
        "00000002 03 04",
        VALUE_0,
        DONE,
        NO,
        CAS_0,
    ];
    let answers = [NO, NO, NO, NO, NO, NO, NO, NO, NO, WON_1];
    let want = (answers.as_slice(), 0, "listening 7000\nend port\n", 1);
    assert!(rt; serves(rt.alloc(), NONE, &requests, want)?);
    Ok(())
}

#[test]
fn a_failed_answer_changes_nothing(rt: HostRuntime) -> Result<(), Fail> {
    // It listens, and each request is awaited and answered.
    let requests = [CAS_0, CAS_0, BYE];
    for (call, answers) in [
        (3, [LOST_1, DONE]),
        (5, [WON_1, DONE]),
        (7, [WON_1, LOST_1]),
    ] {
        let failing = Failing { port: call, ..NONE };
        let want = (answers.as_slice(), 0, "listening 7000\nend bye\n", 1);
        assert!(rt; serves(rt.alloc(), failing, &requests, want)?);
    }
    Ok(())
}

#[test]
fn a_failing_port_ends_it(rt: HostRuntime) -> Result<(), Fail> {
    let none = [""; 0];
    let cases = [
        (1, none.as_slice(), "! peer\n"),
        (2, &none, "listening 7000\n! peer\n"),
        (4, &[VALUE_0], "listening 7000\n! peer\n"),
    ];
    for (call, answers, text) in cases {
        let failing = Failing { port: call, ..NONE };
        assert!(rt; serves(rt.alloc(), failing, &[READ, CAS_0], (answers, 13, text, 0))?);
    }
    Ok(())
}

#[test]
fn a_failing_sink_ends_it(rt: HostRuntime) -> Result<(), Fail> {
    let none = [""; 0];
    let cases = [
        (1, none.as_slice(), "", 0),
        (2, &[WON_1, DONE], "listening 7000\n", 1),
    ];
    for (call, answers, text, number) in cases {
        let failing = Failing { sink: call, ..NONE };
        assert!(rt;
            serves(
                rt.alloc(),
                failing,
                &[CAS_0, BYE],
                (answers, 11, text, number)
            )?
        );
    }
    Ok(())
}

// What a request of so many zeros is answered.
fn answered(alloc: Global, len: usize) -> Result<Vec<u8>, Fail> {
    let mut requests = Vec::new(alloc);
    requests.push(vec![in alloc; 0; len]?)?;
    let mut register = MemRegister::new(0);
    let mut port = MemPort::new(alloc, requests, Vec::new(alloc));
    let mut sink = MemSink::new(alloc, Vec::new(alloc));
    serve_register(alloc, &mut register, &mut port, 7000, &mut sink);
    match port.answers() {
        [answer] => Ok(answer.as_slice().to_vec(alloc)?),
        _ => Ok(Vec::new(alloc)),
    }
}

#[test]
fn a_request_that_is_too_long_is_refused(rt: HostRuntime) -> Result<(), Fail> {
    for len in [600004, 600005] {
        let answer = answered(rt.alloc(), len)?;
        assert!(rt; answer.as_slice() == b"\0\0\0\x02\x07\x03".as_slice());
    }
    Ok(())
}
