ghost use Rattle.std.specs.Prelude.{◌≡◌, ◌≤◌, ◌<◌, ◌+◌, ◌||◌, ◌∷◌, [], true, ℕ, List, length, map, take, IfOk, OnOk};
ghost use Rattle.std.specs.List.{AllByRecursion};
ghost use Rattle.proto_model.specs.Replicas.{ReplicaState};
ghost use Rattle.proto_model.specs.Quorums.{is_within, reached};
ghost use Rattle.proto_model.specs.Servers.{has_fetched};
ghost use Rattle.partition_server.specs.Held.{state_of};
ghost use Rattle.quorum_append.specs.Kept.{has_kept};
ghost use Rattle.net_model.specs.declared.shown.Entry.{Entry as EntryValue};
ghost use Rattle.world_core.specs.Kept.{nodes_of};
ghost use Rattle.world_core.specs.Tallies.{IsRowOf, IsBounded, acks_of, entries_of, is_cast, IsLongestRow, shown_entries, rows_outcome};
ghost use Rattle.world_core.specs.Noted.{is_cast_by, AreTargets, AreFronts, AreNoted};

use crate::nodes::node_status;
use crate::tally::{Row, note_log, note_vote};
use net_model::{Entries, Entry, Outcome};
use partition_server::Server;
use proto_model::{Crashing, Phase};
use std::alloc::{AllocError, Global};

/// So many entries of the one log are shown at most.
const SHOWN: usize = 64;

/// Notes each node's vote. Only the one that took part in the last event has a new one.
pub(crate) fn note_nodes<R: Crashing>(rows: &mut Vec<Row>, count: u8, nodes: &Vec<R>)
    requires size { length nodes.now.items ≡ count }
    requires few { count ≤ 7 }
    requires rows { AllByRecursion (IsRowOf count) rows.old.items }
    requires faultless { AllByRecursion R.is_faultless nodes.now.items }
    ensures rows { AllByRecursion (IsRowOf count) rows.new.items }
    ensures size { length rows.new.items ≡ length rows.old.items }
    ensures votes { (s k i : ℕ) → is_within count i ≡ true → s ≤ length rows.old.items → has_kept (acks_of count rows.new.items s) k i ≡
        (has_kept (acks_of count rows.old.items s) k i || is_cast_by (nodes_of (map R.state nodes.now.items)) s k i) }
    ensures entries { entries_of rows.new.items ≡ entries_of rows.old.items }
{
    for i in 0..count {
        let status = node_status(nodes, i + 1);
        note_vote(rows, count, i + 1, status);
    }
}

// Whether a server in this phase has its session's log.
fn has_log(phase: Phase) -> bool
    ensures { result ≡ has_fetched phase }
{
    match phase {
        Phase::Repairing | Phase::Running => true,
        _ => false,
    }
}

// Notes the log of a server that repairs or runs.
fn note_server(rows: &mut Vec<Row>, server: &Server) -> Result<(), AllocError>
    ensures size { length rows.new.items ≡ length rows.old.items }
    ensures rows { (nodes : ℕ) → AllByRecursion (IsRowOf nodes) rows.old.items → AllByRecursion (IsRowOf nodes) rows.new.items }
    ensures acks { (nodes : ℕ) → acks_of nodes rows.new.items ≡ acks_of nodes rows.old.items }
    ensures entries { (target : ℕ → List EntryValue) → AreTargets target (length rows.old.items) (state_of server.now) → AreFronts target (entries_of rows.old.items) →
        OnOk result (AreNoted target (state_of server.now ∷ []) (entries_of rows.old.items) (entries_of rows.new.items)) }
{
    if !has_log(server.phase()) {
        return Ok(());
    }
    note_log(rows, server.session(), server)?;
    Ok(())
}

/// Notes the logs of all servers. Only the one that took part in the last event has a new one.
pub(crate) fn note_servers(rows: &mut Vec<Row>, servers: &Vec<Server>) -> Result<(), AllocError>
    ensures size { length rows.new.items ≡ length rows.old.items }
    ensures rows { (nodes : ℕ) → AllByRecursion (IsRowOf nodes) rows.old.items → AllByRecursion (IsRowOf nodes) rows.new.items }
    ensures acks { (nodes : ℕ) → acks_of nodes rows.new.items ≡ acks_of nodes rows.old.items }
    ensures entries { (target : ℕ → List EntryValue) → AllByRecursion (λ server. AreTargets target (length rows.old.items) (state_of server)) servers.now.items → AreFronts target (entries_of rows.old.items) →
        OnOk result (AreNoted target (map state_of servers.now.items) (entries_of rows.old.items) (entries_of rows.new.items)) }
{
    for server in servers {
        note_server(rows, server)?;
    }
    Ok(())
}

// How many records a quorum has voted for. No more are told than there are entries.
fn row_length(row: &Row) -> u64
    ensures fits { result ≤ length row.now.entries.items }
    ensures value { IsBounded row.now → result ≡ reached row.now.acks.nodes (has_kept row.now.acks) (length row.now.entries.items) }
{
    let mark = row.acks.mark();
    let len = row.entries.len() as u64;
    mark.min(len)
}

// Of two sessions with their lengths the one of greater length, and of the same length the first.
fn longer(session: u64, len: u64, next: u64, mark: u64) -> (u64, u64)
    ensures more { len < mark → (result.0 ≡ next) × (result.1 ≡ mark) }
    ensures same { mark ≤ len → (result.0 ≡ session) × (result.1 ≡ len) }
{
    if len < mark {
        return (next, mark);
    }
    (session, len)
}

// The session of the one log, 0 for none, and how many records it has.
fn longest(rows: &Vec<Row>, nodes: u8) -> (u64, u64)
    requires rows { AllByRecursion (IsRowOf nodes) rows.now.items }
    ensures within { result.0 ≤ length rows.now.items }
    ensures fits { result.1 ≤ length (entries_of rows.now.items result.0) }
    ensures found { AllByRecursion IsBounded rows.now.items → IsLongestRow nodes rows.now.items (length rows.now.items) result.0 result.1 }
{
    let _nodes = nodes;
    let mut session: u64 = 0;
    let mut len: u64 = 0;
    for i in 0..rows.len() {
        let row = &rows[i];
        let mark = row_length(row);
        let best = longer(session, len, i as u64 + 1, mark);
        session = best.0;
        len = best.1;
    }
    (session, len)
}

// Entries of a log of this length, from an id on.
fn shown(alloc: Global, entries: &[Entry], len: u64, from: u64) -> Result<Vec<Entry>, AllocError>
    requires within { len ≤ length entries.now }
    requires some { 1 ≤ from }
    ensures { IfOk result (λ shown. shown.items ≡ shown_entries entries.now len from) }
{
    let (front, _) = entries.split_at(len as usize);
    if from > len {
        return Ok(Vec::new(alloc));
    }
    let (_, rest) = front.split_at(from as usize - 1);
    let few = rest.len().min(SHOWN);
    let (few, _) = rest.split_at(few);
    let items = Vec::from_slice(alloc, few)?;
    Ok(items)
}

/// The one log from an id on.
pub(crate) fn show_log(
    alloc: Global,
    rows: &Vec<Row>,
    nodes: u8,
    from: u64,
) -> Result<Outcome, AllocError>
    requires rows { AllByRecursion (IsRowOf nodes) rows.now.items }
    requires some { 1 ≤ from }
    ensures { AllByRecursion IsBounded rows.now.items → IfOk result (λ outcome. outcome ≡ rows_outcome nodes rows.now.items from) }
{
    let (session, len) = longest(rows, nodes);
    if session == 0 {
        return Ok(Outcome::Log(0, Entries::new(Vec::new(alloc))));
    }
    let row = &rows[session as usize - 1];
    let items = shown(alloc, &row.entries, len, from)?;
    Ok(Outcome::Log(len, Entries::new(items)))
}
