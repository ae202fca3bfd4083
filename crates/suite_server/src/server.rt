ghost use Rattle.std.specs.Prelude.{◌≡◌, ◌≤◌, ◌<◌, IfOk};
ghost use Rattle.proto_model.specs.Validity.{IsValidFromNode};

use crate::sent::{ADOPT, APPEND, FETCH, LOW, NONE, OPEN, STAGE, Sent, brief};
use partition_server::{AppendFault, ReadFault, Server, append_uncounted};
use proto_model::{FromNode, FromServer, Phase, ReadRefusal, ToServer};
use std::alloc::{AllocError, Global};
use std::marker::Brand;
use std::sync::ledger::{Blank, Ledger};
use std::test::Fail;
use tx_model::{Batch, Lock, Record, Steps, Tx};

// ---- what is sent and seen

// A reply of a node. The records are one of the id 1.
#[derive(Clone, Copy)]
enum Reply {
    Opened(u8, u8, u8),
    Stale(u8),
    Records,
    Staged(u8),
    Adopted(u8),
    Acked(u8),
    LowSet(u8),
}

// The batch of one record, which has the id 1.
fn first_batch(alloc: Global) -> Result<Batch, Fail> {
    let tx = transaction(alloc, b"", 0)?;
    let entry = Record {
        id: 1,
        session: 1,
        tx,
    };
    Ok(Batch::new(vec![in alloc; entry]?)?)
}

fn message(alloc: Global, session: u8, reply: Reply) -> Result<FromNode, Fail>
    ensures { IfOk result IsValidFromNode }
{
    let session = u64::from(session.max(1));
    Ok(match reply {
        Reply::Opened(adopted, low, length) => FromNode::Opened(
            session,
            u64::from(adopted),
            u64::from(low),
            u64::from(length),
        ),
        Reply::Stale(promised) => FromNode::Stale(session, u64::from(promised)),
        Reply::Records => FromNode::Records(session, first_batch(alloc)?),
        Reply::Staged(upto) => FromNode::Staged(session, u64::from(upto)),
        Reply::Adopted(length) => FromNode::Adopted(session, u64::from(length)),
        Reply::Acked(length) => FromNode::Acked(session, u64::from(length)),
        Reply::LowSet(low) => FromNode::LowSet(session, u64::from(low)),
    })
}

// A node, a session and the node's reply in it, and then the server's phase and its next messages for the nodes 1 to 3.
type Turn = (u8, u8, Reply, Phase, [Sent; 3]);

// A server of three nodes in a session.
fn opening(alloc: Global, session: u8) -> Result<Server, Fail>
    ensures { IfOk result (λ server. server.known.nodes ≡ 3) }
{
    let mut server = Server::new(alloc, 3, 2, 64)?;
    server.drew(u64::from(session.max(1)));
    Ok(server)
}

// The next message for a node of three.
fn next(server: &Server, node: u8) -> Result<Sent, AllocError>
    requires nodes { server.now.known.nodes ≡ 3 }
    requires some { 1 ≤ node }
    requires within { node ≤ 3 }
{
    match server.next_for(node)? {
        Some(m) => Ok(brief(&m)),
        None => Ok(NONE),
    }
}

// How many requests a reply of a node answers.
fn answered(
    alloc: Global,
    server: &mut Server,
    node: u8,
    session: u8,
    reply: Reply,
) -> Result<usize, Fail>
    requires { server.old.known.nodes ≡ 3 }
    ensures { server.new.known.nodes ≡ 3 }
{
    let m = message(alloc, session, reply)?;
    Ok(server.receive(node.clamp(1, 3), m)?.len())
}

// Takes a turn. Whether it answers no request, and all is as told after it.
fn goes_as_told(alloc: Global, server: &mut Server, turn: &Turn) -> Result<bool, Fail>
    requires { server.old.known.nodes ≡ 3 }
    ensures { server.new.known.nodes ≡ 3 }
{
    let (node, session, reply, phase, wanted) = *turn;
    let count = answered(alloc, server, node, session, reply)?;
    let sent = [next(server, 1)?, next(server, 2)?, next(server, 3)?];
    Ok(count == 0 && server.phase() == phase && sent == wanted)
}

// The first turn that does not go as told.
fn first_other(alloc: Global, server: &mut Server, turns: &[Turn]) -> Result<Option<usize>, Fail>
    requires { server.old.known.nodes ≡ 3 }
    ensures { server.new.known.nodes ≡ 3 }
{
    for at in 0..turns.len() {
        if !goes_as_told(alloc, server, &turns[at])? {
            return Ok(Some(at));
        }
    }
    Ok(None)
}

// The session, the last id and the committed mark.
fn marks(server: &Server) -> (u64, u64, u64) {
    (server.session(), server.last(), server.committed())
}

// ---- sessions

// What comes of these turns of a server in a session: the first that does not go as told, its marks, what becomes of an
// append that locks `z`, and what is shown from the id 1 on.
fn after(
    alloc: Global,
    session: u8,
    turns: &[Turn],
) -> Result<(Option<usize>, (u64, u64, u64), Taking, Reads), Fail> {
    let mut server = opening(alloc, session)?;
    let other = first_other(alloc, &mut server, turns)?;
    let marks = marks(&server);
    let taking = append(alloc, &mut server, b"z", 0)?;
    Ok((other, marks, taking, all_reads(&server, 1)))
}

const OPEN_2: Sent = [OPEN, 2, 0, 0];

const FETCH_1: Sent = [FETCH, 2, 1, 1];

const STAGE_1: Sent = [STAGE, 2, 1, 1];

const ADOPT_1: Sent = [ADOPT, 2, 1, 0];

const LOW_1: Sent = [LOW, 2, 1, 0];

const REPAIRING: Phase = Phase::Repairing;

const KEEPING: [Turn; 9] = [
    (1, 1, Reply::Acked(1), Phase::Opening, [OPEN_2; 3]),
    (
        1,
        2,
        Reply::Opened(1, 0, 1),
        Phase::Opening,
        [NONE, OPEN_2, OPEN_2],
    ),
    (
        2,
        2,
        Reply::Opened(1, 0, 0),
        Phase::Fetching,
        [FETCH_1, NONE, OPEN_2],
    ),
    (1, 2, Reply::Records, REPAIRING, [STAGE_1, STAGE_1, OPEN_2]),
    (
        1,
        2,
        Reply::Staged(1),
        REPAIRING,
        [ADOPT_1, STAGE_1, OPEN_2],
    ),
    (
        2,
        2,
        Reply::Staged(1),
        REPAIRING,
        [ADOPT_1, ADOPT_1, OPEN_2],
    ),
    (1, 2, Reply::Adopted(1), REPAIRING, [NONE, ADOPT_1, OPEN_2]),
    (
        2,
        2,
        Reply::Adopted(1),
        Phase::Running,
        [LOW_1, LOW_1, OPEN_2],
    ),
    (
        2,
        2,
        Reply::LowSet(1),
        Phase::Running,
        [LOW_1, NONE, OPEN_2],
    ),
];

#[test]
fn takeover_keeps_a_heard_record(rt: HostRuntime) -> Result<(), Fail> {
    let shown = (Ok((1, 1)), Ok(1), Ok(1));
    let want = (None, (2, 1, 1), Taking::Locked(1), shown);
    assert!(rt; after(rt.alloc(), 2, &KEEPING)? == want);
    Ok(())
}

const ADOPT_0: Sent = [ADOPT, 2, 0, 0];

const DROPPING: [Turn; 5] = [
    (
        2,
        2,
        Reply::Opened(1, 0, 0),
        Phase::Opening,
        [OPEN_2, NONE, OPEN_2],
    ),
    (
        3,
        2,
        Reply::Opened(1, 0, 0),
        REPAIRING,
        [OPEN_2, ADOPT_0, ADOPT_0],
    ),
    (1, 2, Reply::Opened(1, 0, 1), REPAIRING, [ADOPT_0; 3]),
    (2, 2, Reply::Adopted(0), REPAIRING, [ADOPT_0, NONE, ADOPT_0]),
    (
        3,
        2,
        Reply::Adopted(0),
        Phase::Running,
        [ADOPT_0, NONE, NONE],
    ),
];

#[test]
fn takeover_drops_an_unheard_record(rt: HostRuntime) -> Result<(), Fail> {
    let shown = (Ok((0, 0)), Err(ReadFault::NotYet(0)), Ok(0));
    let want = (None, (2, 0, 0), Taking::Taken(1), shown);
    assert!(rt; after(rt.alloc(), 2, &DROPPING)? == want);
    Ok(())
}

const STALE: [Turn; 3] = [
    (1, 1, Reply::Stale(2), Phase::Closed(2), [NONE; 3]),
    (2, 1, Reply::Stale(3), Phase::Closed(2), [NONE; 3]),
    (1, 1, Reply::Opened(0, 0, 0), Phase::Closed(2), [NONE; 3]),
];

#[test]
fn a_stale_server_is_closed(rt: HostRuntime) -> Result<(), Fail> {
    let shown = (Ok((0, 0)), Err(ReadFault::NotYet(0)), Ok(0));
    let want = (None, (1, 0, 0), Taking::Closed(2), shown);
    assert!(rt; after(rt.alloc(), 1, &STALE)? == want);
    Ok(())
}

// ---- appends and reads

// What becomes of an append.
#[derive(Clone, Copy, PartialEq, Eq)]
enum Taking {
    Taken(u64),
    NotRunning(Phase),
    Closed(u64),
    MarkAhead(u64),
    Locked(u64),
    WindowFull,
    LogFull,
    Memory,
}

fn what_became(answer: &Result<u64, AppendFault>) -> Taking {
    match answer {
        Ok(id) => Taking::Taken(*id),
        Err(AppendFault::NotRunning(phase)) => Taking::NotRunning(*phase),
        Err(AppendFault::Closed(session)) => Taking::Closed(*session),
        Err(AppendFault::MarkAhead(last)) => Taking::MarkAhead(*last),
        Err(AppendFault::Locked(_, mark)) => Taking::Locked(*mark),
        Err(AppendFault::WindowFull) => Taking::WindowFull,
        Err(AppendFault::LogFull) => Taking::LogFull,
        Err(AppendFault::Memory) => Taking::Memory,
    }
}

// A transaction of client 7 with its request 1, and with a write lock unless the name is empty.
fn transaction(alloc: Global, name: &[u8], mark: u64) -> Result<Tx, Fail> {
    let mut writes = Vec::new(alloc);
    if !name.is_empty() {
        writes.push(Lock::new(alloc, name)?)?;
    }
    Ok(Tx::new(alloc, 7, 1, mark, Vec::new(alloc), writes, Vec::new(alloc))?)
}

fn append(alloc: Global, server: &mut Server, name: &[u8], mark: u64) -> Result<Taking, Fail>
    ensures { server.new.known.nodes ≡ server.old.known.nodes }
{
    let tx = transaction(alloc, name, mark)?;
    Ok(what_became(&append_uncounted(server, tx)))
}

fn append_with<L: Ledger>(server: &mut Server, tx: Tx, blank: Blank) -> Taking
    requires name { blank.name ≡ L.name }
    requires parts { blank.parts ≡ L.parts }
    requires some { 0 < blank.parts }
{
    let mut steps = Steps::<L>::new(blank);
    what_became(&server.append(tx, &mut steps))
}

// The same with its steps counted.
fn append_counted(
    alloc: Global,
    server: &mut Server,
    name: &[u8],
    mark: u64,
) -> Result<Taking, Fail> {
    let tx = transaction(alloc, name, mark)?;
    Ok(append_with::<Brand>(server, tx, Blank::new(1)))
}

// Of the heads how many, with the committed mark; of a record its id; and the committed mark.
type Reads = (
    Result<(usize, u64), ReadFault>,
    Result<u64, ReadFault>,
    Result<u64, ReadFault>,
);

// What is shown from an id on.
fn all_reads(server: &Server, id: u64) -> Reads {
    let feed = match server.feed(id, 16) {
        Ok((heads, committed)) => Ok((heads.len(), committed)),
        Err(fault) => Err(fault),
    };
    let entry = match server.entry(id) {
        Ok(entry) => Ok(entry.id),
        Err(fault) => Err(fault),
    };
    (feed, entry, server.flush())
}

// A running server of three nodes, of which 1 and 2 adopted the empty log.
fn running(alloc: Global) -> Result<Server, Fail>
    ensures { IfOk result (λ server. server.known.nodes ≡ 3) }
{
    let mut server = opening(alloc, 1)?;
    for (node, reply) in [
        (1, Reply::Opened(0, 0, 0)),
        (2, Reply::Opened(0, 0, 0)),
        (1, Reply::Adopted(0)),
        (2, Reply::Adopted(0)),
    ] {
        answered(alloc, &mut server, node, 1, reply)?;
    }
    Ok(server)
}

// What is sent to node 2, of how many messages in all.
fn sent_at_once(server: &Server) -> Result<(usize, Sent), Fail>
    requires { server.now.known.nodes ≡ 3 }
{
    let sent = server.tick()?;
    Ok((sent.len(), next(server, 2)?))
}

// The client's number, the request and the id of the answer that an acknowledgement of a node makes due.
fn committed_by(server: &mut Server, node: u8) -> Result<Option<(u64, u64, u64)>, Fail>
    requires { server.old.known.nodes ≡ 3 }
    ensures { server.new.known.nodes ≡ 3 }
{
    let answers = server.receive(node.clamp(1, 3), FromNode::Acked(1, 1))?;
    Ok(match answers.first() {
        Some((client, FromServer::Committed(request, id))) => Some((*client, *request, *id)),
        _ => None,
    })
}

// A running server that has sent a record of a client's request to its nodes.
fn having_one_record(alloc: Global) -> Result<Server, Fail>
    ensures { IfOk result (λ server. server.known.nodes ≡ 3) }
{
    let mut server = running(alloc)?;
    let m = ToServer::Append(transaction(alloc, b"a", 0)?);
    let _ = server.serve(&m)?;
    Ok(server)
}

// The same of node 1, then of node 2 and of node 2 once more.
fn committed_by_each(server: &mut Server) -> Result<[Option<(u64, u64, u64)>; 3], Fail>
    requires { server.old.known.nodes ≡ 3 }
{
    Ok([
        committed_by(server, 1)?,
        committed_by(server, 2)?,
        committed_by(server, 2)?,
    ])
}

// What is sent of a record, whose answer each acknowledgement makes due, and the marks then.
type Committing = ((usize, Sent), [Option<(u64, u64, u64)>; 3], (u64, u64, u64));

fn committing(alloc: Global) -> Result<Committing, Fail> {
    let mut server = having_one_record(alloc)?;
    let sent = sent_at_once(&server)?;
    let due = committed_by_each(&mut server)?;
    Ok((sent, due, marks(&server)))
}

#[test]
fn a_record_is_committed_once_a_quorum_has_it(rt: HostRuntime) -> Result<(), Fail> {
    let sent = (3, [APPEND, 1, 1, 1]);
    let due = [None, Some((7, 1, 1)), None];
    assert!(rt; committing(rt.alloc())? == (sent, due, (1, 1, 1)));
    Ok(())
}

// What is shown from an id on of one record, that is committed or is not.
fn shown(alloc: Global, committed: bool, id: u64) -> Result<Reads, Fail> {
    let mut server = having_one_record(alloc)?;
    if committed {
        committed_by_each(&mut server)?;
    }
    Ok(all_reads(&server, id))
}

#[test]
fn what_is_committed_is_shown(rt: HostRuntime) -> Result<(), Fail> {
    for (committed, id, want) in [
        (false, 1, (Ok((0, 0)), Err(ReadFault::NotYet(0)), Ok(0))),
        (
            true,
            0,
            (Err(ReadFault::BadId), Err(ReadFault::BadId), Ok(1)),
        ),
        (true, 1, (Ok((1, 1)), Ok(1), Ok(1))),
        (true, 2, (Ok((0, 1)), Err(ReadFault::NotYet(1)), Ok(1))),
    ] {
        assert!(rt; shown(rt.alloc(), committed, id)? == want, "at {id}");
    }
    Ok(())
}

// What becomes of appends with these marks.
fn taken_with(alloc: Global, marks: [u64; 5]) -> Result<[Taking; 5], Fail> {
    let mut server = running(alloc)?;
    let mut found = [Taking::Memory; 5];
    for at in 0..5 {
        found[at] = append_counted(alloc, &mut server, b"a", marks[at])?;
    }
    Ok(found)
}

#[test]
fn a_mark_is_not_ahead(rt: HostRuntime) -> Result<(), Fail> {
    let ahead = Taking::MarkAhead(1);
    let want = [
        Taking::Taken(1),
        ahead,
        ahead,
        Taking::Locked(1),
        Taking::Taken(2),
    ];
    assert!(rt; taken_with(rt.alloc(), [0, 2, u64::MAX, 0, 1])? == want);
    Ok(())
}

// The first id up to 1,024 that is not given.
fn fill(alloc: Global, server: &mut Server) -> Result<Option<u64>, Fail>
    requires { server.old.known.nodes ≡ 3 }
    ensures { server.new.known.nodes ≡ 3 }
{
    for id in 1..1025 {
        if append(alloc, server, b"", 0)? != Taking::Taken(id) {
            return Ok(Some(id));
        }
    }
    Ok(None)
}

// The first id that is not given, what becomes of one append more, how many requests each of two acknowledgements of the
// first record answers, and what becomes of another append.
fn at_the_full_window(alloc: Global) -> Result<(Option<u64>, Taking, [usize; 2], Taking), Fail> {
    let mut server = running(alloc)?;
    let other = fill(alloc, &mut server)?;
    let full = append(alloc, &mut server, b"", 0)?;
    let counts = [
        answered(alloc, &mut server, 1, 1, Reply::Acked(1))?,
        answered(alloc, &mut server, 2, 1, Reply::Acked(1))?,
    ];
    Ok((other, full, counts, append(alloc, &mut server, b"", 0)?))
}

#[test]
fn a_full_window_takes_no_more(rt: HostRuntime) -> Result<(), Fail> {
    let want = (None, Taking::WindowFull, [0, 1], Taking::Taken(1025));
    assert!(rt; at_the_full_window(rt.alloc())? == want);
    Ok(())
}

// What becomes of an append to an idle server, what is shown, and whether a request to flush is refused since it is idle.
fn idle_answers(alloc: Global) -> Result<(Taking, Reads, bool), Fail> {
    let mut server = Server::new(alloc, 3, 2, 64)?;
    let taking = append(alloc, &mut server, b"a", 0)?;
    let reads = all_reads(&server, 2);
    let unserved = match server.serve(&ToServer::Flush)? {
        Some(FromServer::Unserved(reason)) => reason == ReadRefusal::NotRunning(Phase::Idle),
        _ => false,
    };
    Ok((taking, reads, unserved))
}

#[test]
fn an_idle_server_refuses_all(rt: HostRuntime) -> Result<(), Fail> {
    let fault = ReadFault::NotRunning(Phase::Idle);
    let reads = (Err(fault), Err(fault), Err(fault));
    let want = (Taking::NotRunning(Phase::Idle), reads, true);
    assert!(rt; idle_answers(rt.alloc())? == want);
    Ok(())
}
