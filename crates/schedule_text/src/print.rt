//! The lines of outcomes.
ghost use Rattle.std.specs.Prelude.{◌≡◌, ◌++◌, ◌∷◌, [], codes, Err, OnOk, OnErr, IfOk};
ghost use Rattle.std.specs.List.{flat_map};
ghost use Rattle.schedule_text.specs.Outcomes.{party_text, state_text, refusal_text, read_refusal_text, build_fault_text, item_text, next_item, items_text, node_text, server_text, entry_text, bytes_text, outcome_text};

use crate::message::{add_brief, add_build_fault, add_read_refusal, add_refusal, phase_word};
use crate::words::add_named;
use net_model::{Entry, Item, Outcome, Party};
use proto_model::{BuildFault, Phase, ReadRefusal, Refusal};
use std::alloc::{AllocError, Global};

/// Room for the text of most outcomes.
const ROOM: usize = 96;

// Adds a party: a letter and its number.
fn add_party(before: &[u8], party: Party, line: &mut Vec<u8>) -> Result<(), AllocError>
    ensures { OnOk result (line.new.items ≡ line.old.items ++ (before.now ++ party_text party)) }
{
    line.extend_from_slice(before)?;
    match party {
        Party::Node(i) => add_named(b"n", u64::from(i), line),
        Party::Server(v) => add_named(b"s", u64::from(v), line),
        Party::Client(c) => add_named(b"c", u64::from(c), line),
    }
}

fn add_item(alloc: Global, item: &Item, line: &mut Vec<u8>) -> Result<(), AllocError>
    ensures { OnOk result (line.new.items ≡ line.old.items ++ item_text item.now) }
{
    add_named(b"", u64::from(item.number), line)?;
    add_party(b" ", item.from, line)?;
    add_party(b">", item.to, line)?;
    line.push(b' ')?;
    add_brief(alloc, &item.brief, line)
}

// Adds items with a comma and a space before each.
fn add_more(alloc: Global, items: &[Item], line: &mut Vec<u8>) -> Result<(), AllocError>
    ensures { OnOk result (line.new.items ≡ line.old.items ++ flat_map next_item items.now) }
{
    for item in items {
        line.extend_from_slice(b", ")?;
        add_item(alloc, item, line)?;
    }
    Ok(())
}

fn add_items(alloc: Global, items: &[Item], line: &mut Vec<u8>) -> Result<(), AllocError>
    ensures { OnOk result (line.new.items ≡ line.old.items ++ (codes "sent " ++ items_text items.now)) }
{
    line.extend_from_slice(b"sent ")?;
    match items.split_first() {
        Some((first, rest)) => {
            add_item(alloc, first, line)?;
            add_more(alloc, rest, line)
        }
        None => Ok(()),
    }
}

// Adds a node: its number, its promised and adopted session, its low-water mark and its length.
fn add_node(
    node: u8,
    promised: u64,
    adopted: u64,
    low: u64,
    length: u64,
    line: &mut Vec<u8>,
) -> Result<(), AllocError>
    ensures { OnOk result (line.new.items ≡ line.old.items ++ node_text node promised adopted low length) }
{
    add_named(b"n", u64::from(node), line)?;
    add_named(b" p=", promised, line)?;
    add_named(b" a=", adopted, line)?;
    add_named(b" w=", low, line)?;
    add_named(b" len=", length, line)
}

// Adds a phase, and the session that closed the server.
fn add_phase(phase: &Phase, line: &mut Vec<u8>) -> Result<(), AllocError>
    ensures { OnOk result (line.new.items ≡ line.old.items ++ state_text phase.now) }
{
    match phase {
        Phase::Closed(session) => add_named(b" closed by=", *session, line),
        _ => {
            line.push(b' ')?;
            line.extend_from_slice(phase_word(phase))
        }
    }
}

// Adds a server that is not idle: its number, phase, session, last id and committed mark.
fn add_server(
    server: u8,
    phase: &Phase,
    session: u64,
    last: u64,
    committed: u64,
    line: &mut Vec<u8>,
) -> Result<(), AllocError>
    ensures { OnOk result (line.new.items ≡ line.old.items ++ server_text server phase.now session last committed) }
{
    add_named(b"s", u64::from(server), line)?;
    add_phase(phase, line)?;
    add_named(b" session=", session, line)?;
    add_named(b" last=", last, line)?;
    add_named(b" committed=", committed, line)
}

fn add_entry(entry: &Entry, line: &mut Vec<u8>) -> Result<(), AllocError>
    ensures { OnOk result (line.new.items ≡ line.old.items ++ entry_text entry.now) }
{
    add_named(b" ", entry.id, line)?;
    add_named(b"/", entry.session, line)?;
    add_named(b"/", entry.client, line)?;
    add_named(b".", entry.request, line)
}

fn add_entries(length: u64, entries: &[Entry], line: &mut Vec<u8>) -> Result<(), AllocError>
    ensures { OnOk result (line.new.items ≡ line.old.items ++ outcome_text (Outcome.Log length entries.now)) }
{
    add_named(b"log len=", length, line)?;
    for entry in entries {
        add_entry(entry, line)?;
    }
    Ok(())
}

// Adds bytes in hexadecimal, or a hyphen for none.
fn add_bytes(alloc: Global, length: u64, bytes: &[u8], line: &mut Vec<u8>) -> Result<(), AllocError>
    ensures { OnOk result (line.new.items ≡ line.old.items ++ outcome_text (Outcome.Dump length bytes.now)) }
{
    add_named(b"dump len=", length, line)?;
    if bytes.is_empty() {
        return line.extend_from_slice(b" -");
    }
    let digits = hex::encode(alloc, bytes)?;
    line.push(b' ')?;
    line.extend_from_slice(digits.as_bytes())
}

fn add_app(client: u8, mark: u64, text: &[u8], line: &mut Vec<u8>) -> Result<(), AllocError>
    ensures { OnOk result (line.new.items ≡ line.old.items ++ outcome_text (Outcome.App client mark text.now)) }
{
    add_named(b"app ", u64::from(client), line)?;
    add_named(b" mark=", mark, line)?;
    line.extend_from_slice(text)
}

fn add_client(client: u8, mark: u64, line: &mut Vec<u8>) -> Result<(), AllocError>
    ensures { OnOk result (line.new.items ≡ line.old.items ++ outcome_text (Outcome.Client client mark)) }
{
    add_named(b"client ", u64::from(client), line)?;
    add_named(b" mark ", mark, line)
}

fn add_torn(
    node: u8,
    promised: u64,
    adopted: u64,
    low: u64,
    length: u64,
    line: &mut Vec<u8>,
) -> Result<(), AllocError>
    ensures { OnOk result (line.new.items ≡ line.old.items ++ outcome_text (Outcome.Torn node promised adopted low length)) }
{
    line.extend_from_slice(b"torn ")?;
    add_node(node, promised, adopted, low, length, line)
}

fn add_idle(server: u8, line: &mut Vec<u8>) -> Result<(), AllocError>
    ensures { OnOk result (line.new.items ≡ line.old.items ++ outcome_text (Outcome.Idle server)) }
{
    add_named(b"s", u64::from(server), line)?;
    line.extend_from_slice(b" idle")
}

fn add_refused(alloc: Global, fault: &BuildFault, line: &mut Vec<u8>) -> Result<(), AllocError>
    ensures { OnOk result (line.new.items ≡ line.old.items ++ outcome_text (Outcome.Refused fault.now)) }
{
    line.extend_from_slice(b"refused ")?;
    add_build_fault(alloc, fault, line)
}

fn add_outcome(alloc: Global, o: &Outcome, line: &mut Vec<u8>) -> Result<(), AllocError>
    ensures { OnOk result (line.new.items ≡ line.old.items ++ outcome_text o.now) }
{
    match o {
        Outcome::Read(number) => add_named(b"read ", *number, line),
        Outcome::Won(session) => add_named(b"won ", *session, line),
        Outcome::Lost(number) => add_named(b"lost ", *number, line),
        Outcome::Exhausted => line.extend_from_slice(b"exhausted"),
        Outcome::Unread => line.extend_from_slice(b"unread"),
        Outcome::Wasted(number) => add_named(b"wasted ", *number, line),
        Outcome::Sent(items) => add_items(alloc, items.items(), line),
        Outcome::Quiet => line.extend_from_slice(b"quiet"),
        Outcome::NoEnvelope => line.extend_from_slice(b"none"),
        Outcome::Skipped(envelope) => add_named(b"skipped ", u64::from(*envelope), line),
        Outcome::Torn(i, p, a, w, len) => add_torn(*i, *p, *a, *w, *len, line),
        Outcome::Node(i, p, a, w, len) => add_node(*i, *p, *a, *w, *len, line),
        Outcome::Idle(v) => add_idle(*v, line),
        Outcome::Server(v, phase, session, last, committed) => {
            add_server(*v, phase, *session, *last, *committed, line)
        }
        Outcome::Client(client, mark) => add_client(*client, *mark, line),
        Outcome::Refused(fault) => add_refused(alloc, fault, line),
        Outcome::App(client, mark, text) => add_app(*client, *mark, text.items(), line),
        Outcome::Log(len, entries) => add_entries(*len, entries.items(), line),
        Outcome::Dump(len, bytes) => add_bytes(alloc, *len, bytes.items(), line),
    }
}

/// Adds the line of an outcome, without its line feed.
pub fn print_outcome(alloc: Global, o: &Outcome, into: &mut Vec<u8>) -> Result<(), AllocError>
    ensures ok { OnOk result (into.new.items ≡ into.old.items ++ outcome_text o.now) }
    ensures err { OnErr result (into.new.items ≡ into.old.items) }
{
    let mut line = Vec::with_capacity(alloc, ROOM)?;
    add_outcome(alloc, o, &mut line)?;
    into.extend_from_slice(&line)
}

/// Adds a server's reason to refuse an append.
pub fn print_refusal(alloc: Global, r: &Refusal, into: &mut Vec<u8>) -> Result<(), AllocError>
    ensures ok { OnOk result (into.new.items ≡ into.old.items ++ refusal_text r.now) }
    ensures err { OnErr result (into.new.items ≡ into.old.items) }
{
    let mut text = Vec::with_capacity(alloc, ROOM)?;
    add_refusal(alloc, r, &mut text)?;
    into.extend_from_slice(&text)
}

/// Adds a server's reason to show no part of its log.
pub fn print_read_refusal(
    alloc: Global,
    r: &ReadRefusal,
    into: &mut Vec<u8>,
) -> Result<(), AllocError>
    ensures ok { OnOk result (into.new.items ≡ into.old.items ++ read_refusal_text r.now) }
    ensures err { OnErr result (into.new.items ≡ into.old.items) }
{
    let mut text = Vec::with_capacity(alloc, ROOM)?;
    add_read_refusal(r, &mut text)?;
    into.extend_from_slice(&text)
}

/// Adds a client's reason to build no transaction. Running out of memory has no text.
pub fn print_build_fault(
    alloc: Global,
    f: &BuildFault,
    into: &mut Vec<u8>,
) -> Result<(), AllocError>
    ensures ok { OnOk result (into.new.items ≡ into.old.items ++ build_fault_text f.now) }
    ensures err { OnErr result (into.new.items ≡ into.old.items) }
{
    let mut text = Vec::with_capacity(alloc, ROOM)?;
    add_build_fault(alloc, f, &mut text)?;
    into.extend_from_slice(&text)
}
