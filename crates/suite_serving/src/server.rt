use io_core::{MemLink, MemPort, MemSink};
use server_host::{Setting, serve_server};
use std::alloc::Global;
use std::test::Fail;

// What is sent and answered, by the table of formats: to the register and from it,
pub const READ: &str = "00000002 05 01";

pub const CAS_0: &str = "0000000a 05 02 0000000000000000";

pub const VALUE_0: &str = "0000000a 06 01 0000000000000000";

pub const WON_1: &str = "0000000a 06 02 0000000000000001";

pub const LOST_1: &str = "0000000a 06 03 0000000000000001";

// to the node and from it,
const OPEN_1: &str = "0000000a 01 01 0000000000000001";

const OPENED_1: &str =
    "00000022 02 01 0000000000000001 0000000000000000 0000000000000000 0000000000000000";

const ADOPT_0: &str = "00000012 01 04 0000000000000001 0000000000000000";

const ADOPTED_0: &str = "00000012 02 07 0000000000000001 0000000000000000";

// (session 1, one record of 56 bytes: its id, session, client, request and mark, its lock and its payload)
const APPEND_1: &str = "00000047 01 05 0000000000000001 01 00000038 01 0000000000000001 \
    0000000000000001 0000000000000001 0000000000000001 0000000000000000 00 01 01 61 \
    00000007 73 65 74 20 61 20 35";

const ACKED_1: &str = "00000012 02 08 0000000000000001 0000000000000001";

const LOW_1: &str = "00000012 01 06 0000000000000001 0000000000000001";

const LOW_SET_1: &str = "00000012 02 0b 0000000000000001 0000000000000001";

// and from the client and to it.
const APPEND: &str = "00000029 03 01 0000000000000001 0000000000000001 0000000000000000 00 01 \
    01 61 00000007 73 65 74 20 61 20 35";

const COMMITTED_1: &str = "00000012 04 01 0000000000000001 0000000000000001";

const BYE: &str = "00000002 07 01";

const DONE: &str = "00000002 07 02";

// The bytes of a hexadecimal text, in which spaces mean nothing.
fn bytes_of(alloc: Global, text: &str) -> Result<Vec<u8>, Fail> {
    let mut digits = Vec::new(alloc);
    for digit in text.as_bytes() {
        if *digit != b' ' {
            digits.push(*digit)?;
        }
    }
    Ok(hex::decode(alloc, digits.as_slice())?)
}

// The bytes of each text.
fn all_bytes(alloc: Global, texts: &[&str]) -> Result<Vec<Vec<u8>>, Fail> {
    let mut all = Vec::new(alloc);
    for text in texts {
        all.push(bytes_of(alloc, text)?)?;
    }
    Ok(all)
}

// Whether these are the bytes of the texts, in their order.
pub fn are(alloc: Global, found: &[Vec<u8>], texts: &[&str]) -> Result<bool, Fail> {
    let want = all_bytes(alloc, texts)?;
    Ok(found == want.as_slice())
}

// A server of one node over these devices, with 2 rows of 64 slots.
fn serve(
    alloc: Global,
    link: &mut MemLink,
    port: &mut MemPort,
    sink: &mut MemSink,
) -> Result<u8, Fail> {
    let mut nodes = Vec::new(alloc);
    nodes.push(7001)?;
    let setting = Setting {
        port: 7100,
        register: 7000,
        rows: 2,
        slots: 64,
        nodes,
    };
    Ok(serve_server(alloc, link, port, &setting, sink))
}

// A link with these replies, of which this call fails.
pub fn link_of(alloc: Global, replies: &[&str], call: u64) -> Result<MemLink, Fail> {
    let replies = all_bytes(alloc, replies)?;
    Ok(MemLink::new(alloc, replies, vec![in alloc; call]?))
}

// An append and then `Bye` come.
fn port_of(alloc: Global) -> Result<MemPort, Fail> {
    let requests = all_bytes(alloc, &[APPEND, BYE])?;
    Ok(MemPort::new(alloc, requests, Vec::new(alloc)))
}

// A run: its status, and the devices as it left them.
#[derive(Drop)]
struct Run {
    status: u8,
    link: MemLink,
    port: MemPort,
    sink: MemSink,
}

fn served(alloc: Global, replies: &[&str], call: u64) -> Result<Run, Fail> {
    let mut link = link_of(alloc, replies, call)?;
    let mut port = port_of(alloc)?;
    let mut sink = MemSink::new(alloc, Vec::new(alloc));
    let status = serve(alloc, &mut link, &mut port, &mut sink)?;
    Ok(Run {
        status,
        link,
        port,
        sink,
    })
}

// What the link was sent, what was answered, the status, and the lines.
type Want<'a> = (&'a [&'a str], &'a [&'a str], u8, &'a str);

// Whether a run with these replies of which this call fails is so.
fn serves(alloc: Global, replies: &[&str], call: u64, want: Want<'_>) -> Result<bool, Fail> {
    let run = served(alloc, replies, call)?;
    let (sent, answers, status, lines) = want;
    let are_sent = are(alloc, run.link.sent(), sent)?;
    let are_answers = are(alloc, run.port.answers(), answers)?;
    Ok(are_sent && are_answers && run.status == status && run.sink.bytes() == lines.as_bytes())
}

const REPLIES: [&str; 6] = [VALUE_0, WON_1, OPENED_1, ADOPTED_0, ACKED_1, LOW_SET_1];

#[test]
fn a_server_commits_and_parts(rt: HostRuntime) -> Result<(), Fail> {
    let sent = [READ, CAS_0, OPEN_1, ADOPT_0, APPEND_1, LOW_1];
    let lines = "session 1 recovered 0\nlistening 7100\nend bye\n";
    assert!(rt;
        serves(
            rt.alloc(),
            &REPLIES,
            0,
            (&sent, &[COMMITTED_1, DONE], 0, lines)
        )?
    );
    Ok(())
}

#[test]
fn a_failed_node_is_told(rt: HostRuntime) -> Result<(), Fail> {
    // What was sent is shown where a reply came.
    let sent = [READ, CAS_0];
    assert!(rt;
        serves(
            rt.alloc(),
            &REPLIES,
            3,
            (&sent, &[], 17, "! no quorum 1:failed\n")
        )?
    );
    Ok(())
}

#[test]
fn a_lost_draw_is_told(rt: HostRuntime) -> Result<(), Fail> {
    let replies = [VALUE_0, LOST_1];
    assert!(rt;
        serves(
            rt.alloc(),
            &replies,
            0,
            (&[READ, CAS_0], &[], 16, "! taken over by 1\n")
        )?
    );
    Ok(())
}
