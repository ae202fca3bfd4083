ghost use Rattle.std.specs.Prelude.{◌≡◌, ◌≤◌, IfOk};

use crate::sent::{ADOPT, FETCH, LOW, NONE, OPEN, STAGE, Sent, brief};
use proto_model::{Phase, Report};
use session_recovery::{Nodes, Recovery};
use std::alloc::{AllocError, Global};
use std::test::Fail;
use tx_model::{Batch, Record, Tx};

// A report of one of three nodes.
fn reported(recovery: &mut Recovery, node: u8, adopted: u8, low: u8, length: u8)
    requires { recovery.old.known.nodes ≡ 3 }
    ensures { recovery.new.known.nodes ≡ 3 }
{
    recovery.report(Report {
        node: node.clamp(1, 3),
        adopted: u64::from(adopted),
        low: u64::from(low),
        length: u64::from(length),
    });
}

// ---- the choice

// Node, adopted session and length.
type Told = (u8, u8, u8);

// The node that is chosen of two that reported to session 7, in this order, of three nodes.
fn chosen_of(alloc: Global, first: Told, second: Told) -> Option<u8> {
    let mut recovery = Recovery::new(alloc, 7, 3);
    reported(&mut recovery, first.0, first.1, 0, first.2);
    reported(&mut recovery, second.0, second.1, 0, second.2);
    match recovery.chosen() {
        Some(report) => Some(report.node),
        None => None,
    }
}

#[test]
fn the_later_session_is_chosen_then_the_longer_log_then_the_lesser_node(rt: HostRuntime) {
    for (first, second, chosen) in [
        ((1, 5, 10), (2, 6, 9), Some(2)),
        ((2, 6, 9), (1, 5, 10), Some(2)),
        ((3, 5, 9), (2, 5, 9), Some(2)),
        ((2, 5, 9), (3, 5, 9), Some(2)),
        ((2, 5, 9), (1, 5, 9), Some(1)),
        ((1, 5, 9), (3, 5, 10), Some(3)),
        // No second report counts: of the same node, or of one that adopted in the session.
        ((1, 5, 10), (1, 6, 9), None),
        ((1, 5, 10), (2, 7, 10), None),
    ] {
        assert!(rt; chosen_of(rt.alloc(), first, second) == chosen);
    }
}

// ---- a whole recovery

// The next message for a node of three.
fn next(recovery: &Recovery, node: u8) -> Result<Sent, AllocError>
    requires nodes { recovery.now.known.nodes ≡ 3 }
    requires some { 1 ≤ node }
    requires within { node ≤ 3 }
{
    match recovery.next_for(node)? {
        Some(m) => Ok(brief(&m)),
        None => Ok(NONE),
    }
}

// What a node told.
#[derive(Clone, Copy)]
enum Heard {
    // Adopted session, low-water mark and length.
    Report(u8, u8, u8),
    // A record of this id.
    Fetched(u8),
    Progress(u8),
    Adopted(u8),
}

// A node and what it told, and then the next messages for the nodes 1 to 3, and whether the recovery is done.
type Turn = (u8, Heard, [Sent; 3], bool);

// The batch of one record.
fn batch_of(alloc: Global, id: u8) -> Result<Batch, Fail> {
    let tx = Tx::new(
        alloc,
        7,
        1,
        0,
        Vec::new(alloc),
        Vec::new(alloc),
        Vec::new(alloc),
    )?;
    let entry = Record {
        id: u64::from(id.max(1)),
        session: 3,
        tx,
    };
    Ok(Batch::new(vec![in alloc; entry]?)?)
}

fn hear(alloc: Global, recovery: &mut Recovery, node: u8, heard: Heard) -> Result<(), Fail>
    requires { recovery.old.known.nodes ≡ 3 }
    ensures { recovery.new.known.nodes ≡ 3 }
{
    let node = node.clamp(1, 3);
    match heard {
        Heard::Report(adopted, low, length) => reported(recovery, node, adopted, low, length),
        Heard::Fetched(id) => recovery.fetched(node, batch_of(alloc, id)?)?,
        Heard::Progress(upto) => recovery.progress(node, u64::from(upto)),
        Heard::Adopted(length) => recovery.adopted(node, u64::from(length)),
    }
    Ok(())
}

// Takes a turn. Whether all is as told after it.
fn goes_as_told(alloc: Global, recovery: &mut Recovery, turn: &Turn) -> Result<bool, Fail>
    requires { recovery.old.known.nodes ≡ 3 }
    ensures { recovery.new.known.nodes ≡ 3 }
{
    let (node, heard, wanted, done) = *turn;
    hear(alloc, recovery, node, heard)?;
    let sent = [next(recovery, 1)?, next(recovery, 2)?, next(recovery, 3)?];
    Ok(sent == wanted && recovery.done() == done)
}

// The first turn of session 7 that does not go as told.
fn first_other(alloc: Global, turns: &[Turn]) -> Result<Option<usize>, Fail> {
    let mut recovery = Recovery::new(alloc, 7, 3);
    for at in 0..turns.len() {
        if !goes_as_told(alloc, &mut recovery, &turns[at])? {
            return Ok(Some(at));
        }
    }
    Ok(None)
}

const OPEN_7: Sent = [OPEN, 7, 0, 0];

const ADOPT_2: Sent = [ADOPT, 7, 2, 0];

const LOW_2: Sent = [LOW, 7, 2, 0];

const FIRST: Sent = [FETCH, 7, 1, 2];

const SECOND: Sent = [FETCH, 7, 2, 1];

const WHOLE: Sent = [STAGE, 7, 1, 2];

const LAST: Sent = [STAGE, 7, 2, 1];

// Node 2 is chosen with a log of two records, of which it knows that the first is committed. Node 3 comes late.
const CHOSEN: [Turn; 17] = [
    (1, Heard::Report(2, 0, 3), [NONE, OPEN_7, OPEN_7], false),
    (2, Heard::Report(3, 1, 2), [NONE, FIRST, OPEN_7], false),
    (1, Heard::Fetched(1), [NONE, FIRST, OPEN_7], false),
    (2, Heard::Fetched(2), [NONE, FIRST, OPEN_7], false),
    (2, Heard::Fetched(1), [NONE, SECOND, OPEN_7], false),
    (2, Heard::Fetched(2), [WHOLE, LAST, OPEN_7], false),
    (1, Heard::Progress(2), [ADOPT_2, LAST, OPEN_7], false),
    (1, Heard::Progress(1), [LAST, LAST, OPEN_7], false),
    (3, Heard::Progress(2), [LAST, LAST, OPEN_7], false),
    (1, Heard::Progress(2), [ADOPT_2, LAST, OPEN_7], false),
    (1, Heard::Adopted(1), [ADOPT_2, LAST, OPEN_7], false),
    (1, Heard::Adopted(2), [NONE, LAST, OPEN_7], false),
    (1, Heard::Progress(0), [NONE, LAST, OPEN_7], false),
    (3, Heard::Report(0, 0, 0), [NONE, LAST, WHOLE], false),
    (2, Heard::Progress(2), [NONE, ADOPT_2, WHOLE], false),
    (2, Heard::Adopted(2), [LOW_2, LOW_2, WHOLE], true),
    (3, Heard::Adopted(2), [LOW_2; 3], true),
];

const ADOPT_0: Sent = [ADOPT, 7, 0, 0];

// Nothing is fetched of an empty log, which is adopted at once.
const EMPTY: [Turn; 4] = [
    (3, Heard::Report(0, 0, 0), [OPEN_7, OPEN_7, NONE], false),
    (2, Heard::Report(0, 0, 0), [OPEN_7, ADOPT_0, ADOPT_0], false),
    (3, Heard::Adopted(0), [OPEN_7, ADOPT_0, NONE], false),
    (2, Heard::Adopted(0), [OPEN_7, NONE, NONE], true),
];

#[test]
fn the_chosen_log_is_fetched_staged_and_adopted(rt: HostRuntime) -> Result<(), Fail> {
    assert!(rt; first_other(rt.alloc(), &CHOSEN)? == None);
    assert!(rt; first_other(rt.alloc(), &EMPTY)? == None);
    Ok(())
}

// ---- the nodes as a server keeps them

// A low-water mark only rises, and a closed server is so for the session that closed it.
#[test]
fn a_server_keeps_what_it_knows_of_nodes(rt: HostRuntime) {
    let mut nodes = Nodes::idle(3);
    assert!(rt; (nodes.phase(), nodes.session(), nodes.low(2)) == (Phase::Idle, 0, 0));
    nodes.lower(2, 4);
    nodes.lower(2, 3);
    nodes.close(8);
    assert!(rt; (nodes.phase(), nodes.low(1), nodes.low(2)) == (Phase::Closed(8), 0, 4));
}
