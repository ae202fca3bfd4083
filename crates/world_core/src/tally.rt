ghost use Rattle.std.specs.Prelude.{◌≡◌, ◌≤◌, ◌<◌, ◌+◌, ◌||◌, ◌⊎◌, ◌++◌, ℕ, List, length, map, take, drop, IfOk, OnOk};
ghost use Rattle.std.specs.List.{AllByRecursion};
ghost use Rattle.tx_model.specs.Spelling.{IsCount};
ghost use Rattle.proto_model.specs.Tables.{put};
ghost use Rattle.proto_model.specs.Quorums.{is_within};
ghost use Rattle.quorum_append.specs.Kept.{has_kept};
ghost use Rattle.world_law.specs.Outcomes.{entry_of};
ghost use Rattle.world_core.specs.Tallies.{IsRowOf, acks_of, entries_of, is_cast, continued};

use net_model::Entry;
use partition_server::Server;
use proto_model::Status;
use quorum_append::Acks;
use std::alloc::{AllocError, Global};
use tx_model::Record;

/// What is kept of a session that was won: the greatest length that each node voted for, and the entries of its book.
#[derive(Drop)]
pub struct Row {
    pub acks: Acks,
    pub entries: Vec<Entry>,
}

/// A row for a session that was won by the last event, where one was.
pub(crate) fn grow(
    alloc: Global,
    rows: &mut Vec<Row>,
    nodes: u8,
    number: u64,
) -> Result<(), AllocError>
    requires nodes { (1 ≤ nodes) × (nodes ≤ 7) }
    requires rows { AllByRecursion (IsRowOf nodes) rows.old.items }
    ensures rows { AllByRecursion (IsRowOf nodes) rows.new.items }
    ensures size { OnOk result (length rows.old.items ≤ number → number ≤ length rows.old.items + 1 → length rows.new.items ≡ number) }
    ensures acks { acks_of nodes rows.new.items ≡ acks_of nodes rows.old.items }
    ensures entries { entries_of rows.new.items ≡ entries_of rows.old.items }
{
    if (rows.len() as u64) < number {
        rows.push(Row {
            acks: Acks::new(nodes),
            entries: Vec::new(alloc),
        })?;
    }
    Ok(())
}

/// Notes the vote that a node with this status has cast.
pub(crate) fn note_vote(rows: &mut Vec<Row>, nodes: u8, node: u8, status: Status)
    requires node { (1 ≤ node) × (node ≤ nodes) }
    requires few { nodes ≤ 7 }
    requires rows { AllByRecursion (IsRowOf nodes) rows.old.items }
    ensures rows { AllByRecursion (IsRowOf nodes) rows.new.items }
    ensures size { length rows.new.items ≡ length rows.old.items }
    ensures votes { (s k i : ℕ) → s ≤ length rows.old.items → has_kept (acks_of nodes rows.new.items s) k i ≡
        (has_kept (acks_of nodes rows.old.items s) k i || is_cast status.adopted status.length node s k i) }
    ensures entries { entries_of rows.new.items ≡ entries_of rows.old.items }
{
    if status.adopted == 0 {
        return;
    }
    if status.adopted > rows.len() as u64 {
        return;
    }
    let row = &mut rows[status.adopted as usize - 1];
    row.acks.ack(node, status.length);
}

// What an entry tells of a record.
fn entry_of(r: &Record) -> Entry
    ensures { result ≡ entry_of r.now }
{
    Entry {
        id: r.id,
        session: r.session,
        client: r.tx.client(),
        request: r.tx.request(),
    }
}

// Adds entries of the next records of a server's log that have none, eight at most.
#[tactic(auto, using(crate::proofs::Casting::entries_more))]
fn add_batch(entries: &mut Vec<Entry>, server: &Server) -> Result<(), AllocError>
    requires { length entries.old.items < length server.now.log }
    ensures { OnOk result (entries.new.items ≡ entries.old.items ++ map entry_of (take 8 (drop (length entries.old.items) server.now.log))) }
{
    let batch = server.batch_after(entries.len() as u64)?;
    let fresh = batch.records();
    for r in fresh {
        entries.push(entry_of(r))?;
    }
    Ok(())
}

// Adds entries of those records of a server's log that have none.
#[tactic(auto, using(crate::proofs::Casting::continued_batch, crate::proofs::Casting::continued_all, crate::proofs::Casting::fewer_left))]
fn add_entries(entries: &mut Vec<Entry>, server: &Server) -> Result<(), AllocError>
    ensures { OnOk result (entries.new.items ≡ continued entries.old.items server.now.log) }
{
    while (entries.len() as u64) < server.last() {
        add_batch(entries, server)?;
    }
    Ok(())
}

/// Notes the log of a session's server.
pub(crate) fn note_log(rows: &mut Vec<Row>, session: u64, server: &Server) -> Result<(), AllocError>
    ensures size { length rows.new.items ≡ length rows.old.items }
    ensures rows { (nodes : ℕ) → AllByRecursion (IsRowOf nodes) rows.old.items → AllByRecursion (IsRowOf nodes) rows.new.items }
    ensures acks { (nodes : ℕ) → acks_of nodes rows.new.items ≡ acks_of nodes rows.old.items }
    ensures entries { 1 ≤ session → session ≤ length rows.old.items → OnOk result (entries_of rows.new.items ≡
        put (entries_of rows.old.items) session (continued (entries_of rows.old.items session) server.now.log)) }
{
    if session == 0 {
        return Ok(());
    }
    if session > rows.len() as u64 {
        return Ok(());
    }
    let row = &mut rows[session as usize - 1];
    add_entries(&mut row.entries, server)?;
    Ok(())
}
