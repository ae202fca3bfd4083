//! The values of a line in form and range.
ghost use Rattle.std.specs.Prelude.{◌≡◌, ◌<◌, ◌^◌, List, ℕ, IfOk, Some, None};
ghost use Rattle.net_model.specs.declared.cluster.Cluster.{Cluster as ClusterValue};
ghost use Rattle.schedule_text.specs.Spellings.{parts_of, first_parts, script_parts};
ghost use Rattle.schedule_text.specs.Found.{AreWords, IsFound, IsFoundInRange, IsCounts, SayFound, SpellsLists, parts_from};

use super::ScriptLine;
use super::form::{EVENTS, FIRST, Form, SCRIPT};
use super::found::{Found, Tail, Words};
use super::lists::{keys_of, ops_of};
use net_model::{Cluster, Event};
use std::alloc::{AllocError, Global};
use tx_model::{Locks, OpText};

// A number of a node, a server or a client.
fn party(number: u64) -> u8
    requires { number < 2 ^ 8 }
    ensures { result ≡ number }
{
    number as u8
}

// A number of 32 bits.
fn wide(number: u64) -> u32
    requires { number < 2 ^ 32 }
    ensures { result ≡ number }
{
    number as u32
}

/// The cluster of a first line.
pub(crate) fn cluster_of(found: &Found<'_>) -> Cluster
    requires found { (line : List ℕ) × IsFound FIRST line found.now }
    requires in_range { (cluster : ClusterValue) × IsFoundInRange cluster found.now }
    ensures { first_parts result ≡ parts_from found.now None }
{
    let n = &found.numbers.values;
    Cluster {
        nodes: party(n[0]),
        servers: party(n[1]),
        clients: party(n[2]),
        rows: party(n[3]),
        slots: wide(n[4]),
    }
}

// The write locks, the read locks and the ops that words are.
fn lists_of(alloc: Global, words: Words<'_>) -> Result<(Locks, Locks, OpText), AllocError>
    requires { (text : List ℕ) × AreWords text words.writes.now words.reads.now words.ops.now }
    ensures { IfOk result (λ lists. SpellsLists (Tail.Lists words.entry)
        (Some (record { writes = lists.0; reads = lists.1; ops = lists.2 }))) }
{
    let writes = keys_of(alloc, words.writes)?;
    let reads = keys_of(alloc, words.reads)?;
    let ops = ops_of(alloc, words.ops)?;
    Ok((writes, reads, ops))
}

// The event of an append's line.
fn append_of(alloc: Global, found: &Found<'_>, words: Words<'_>) -> Result<Event, AllocError>
    requires lists { found.now.tail ≡ Tail.Lists words }
    requires found { (line : List ℕ) × IsFound EVENTS line found.now }
    requires in_range { (cluster : ClusterValue) × IsCounts cluster
        × IsFoundInRange cluster found.now }
    ensures { IfOk result (λ event. SayFound found.now (parts_of event)) }
{
    let n = &found.numbers.values;
    let client = party(n[0]);
    let server = party(n[1]);
    let (writes, reads, ops) = lists_of(alloc, words)?;
    Ok(Event::Append(client, server, writes, reads, ops))
}

// The event of a line that has numbers alone.
fn plain_of(found: &Found<'_>) -> Event
    requires plain { found.now.tail ≡ Tail.End }
    requires found { (line : List ℕ) × IsFound EVENTS line found.now }
    requires in_range { (cluster : ClusterValue) × IsCounts cluster
        × IsFoundInRange cluster found.now }
    ensures { SayFound found.now (parts_of result) }
{
    let n = &found.numbers.values;
    match found.form {
        Form::Read => Event::Read(party(n[0])),
        Form::Cas => Event::Cas(party(n[0])),
        Form::Waste => Event::Waste(party(n[0])),
        Form::Tick => Event::Tick(party(n[0])),
        Form::Next => Event::Next,
        Form::Skip => Event::Skip,
        Form::Deliver => Event::Deliver(wide(n[0])),
        Form::Tear => Event::Tear(wide(n[0]), wide(n[1])),
        Form::Crash => Event::Crash(party(n[0])),
        Form::Restart => Event::Restart(party(n[0])),
        Form::Reboot => Event::Reboot(party(n[0])),
        Form::Ask => Event::Ask(party(n[0]), party(n[1])),
        Form::Flush => Event::Flush(party(n[0]), party(n[1])),
        Form::Show => Event::Show(party(n[0])),
        Form::Server => Event::Server(party(n[0])),
        Form::App => Event::App(party(n[0])),
        Form::Log => Event::Log(n[0]),
        Form::Dump => Event::Dump(party(n[0]), wide(n[1]), wide(n[2])),
        // the first two have no such tail, or are no event; the others are lines of a script
        Form::Append | Form::Cluster => unreachable!(),
        Form::ScriptAppend | Form::ScriptSync | Form::ScriptApp | Form::ScriptFlush => {
            unreachable!()
        }
    }
}

/// The event of a further line.
pub(crate) fn event_of(alloc: Global, found: &Found<'_>) -> Result<Event, AllocError>
    requires found { (line : List ℕ) × IsFound EVENTS line found.now }
    requires in_range { (cluster : ClusterValue) × IsCounts cluster
        × IsFoundInRange cluster found.now }
    ensures { IfOk result (λ event. SayFound found.now (parts_of event)) }
{
    match found.tail {
        Tail::Lists(words) => append_of(alloc, found, words),
        Tail::End => Ok(plain_of(found)),
    }
}

// The append of a script's line.
fn script_append(
    alloc: Global,
    found: &Found<'_>,
    words: Words<'_>,
) -> Result<ScriptLine, AllocError>
    requires lists { found.now.tail ≡ Tail.Lists words }
    requires found { (line : List ℕ) × IsFound SCRIPT line found.now }
    ensures { IfOk result (λ line. SayFound found.now (script_parts line)) }
{
    let (writes, reads, ops) = lists_of(alloc, words)?;
    Ok(ScriptLine::Append(writes, reads, ops))
}

// The line of a script that is a word alone.
fn script_word(found: &Found<'_>) -> ScriptLine
    requires plain { found.now.tail ≡ Tail.End }
    requires found { (line : List ℕ) × IsFound SCRIPT line found.now }
    ensures { SayFound found.now (script_parts result) }
{
    match found.form {
        Form::ScriptSync => ScriptLine::Sync,
        Form::ScriptApp => ScriptLine::App,
        Form::ScriptFlush => ScriptLine::Flush,
        _ => unreachable!(),
    }
}

/// The line of a script.
pub(crate) fn script_of(alloc: Global, found: &Found<'_>) -> Result<ScriptLine, AllocError>
    requires { (line : List ℕ) × IsFound SCRIPT line found.now }
    ensures { IfOk result (λ line. SayFound found.now (script_parts line)) }
{
    match found.tail {
        Tail::Lists(words) => script_append(alloc, found, words),
        Tail::End => Ok(script_word(found)),
    }
}
