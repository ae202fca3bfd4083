//! The texts of messages and of reasons.
ghost use Rattle.std.specs.Prelude.{◌≡◌, ◌++◌, codes, OnOk};
ghost use Rattle.tx_model.specs.Applications.{is_key};
ghost use Rattle.schedule_text.specs.Outcomes.{phase_text, lock_text, refusal_text, read_refusal_text, build_fault_text, to_node_text, from_node_text, to_server_text, from_server_text, brief_text};

use crate::key::is_key;
use crate::words::{add_named, add_words};
use net_model::{Brief, FromNodeBrief, FromServerBrief, ToNodeBrief, ToServerBrief};
use proto_model::{BuildFault, Phase, ReadRefusal, Refusal};
use std::alloc::{AllocError, Global};
use tx_model::Lock;

/// The word of a server's phase.
pub(crate) fn phase_word(phase: &Phase) -> &'static [u8]
    ensures { result.now ≡ phase_text phase.now }
{
    match phase {
        Phase::Idle => b"idle",
        Phase::Opening => b"opening",
        Phase::Fetching => b"fetching",
        Phase::Repairing => b"repairing",
        Phase::Running => b"running",
        Phase::Closed(_) => b"closed",
    }
}

// Adds a lock: a key as it stands, and another name in hexadecimal.
fn add_lock(alloc: Global, lock: &Lock, line: &mut Vec<u8>) -> Result<(), AllocError>
    ensures { OnOk result (line.new.items ≡ line.old.items ++ lock_text lock.now) }
{
    let name = lock.bytes();
    if is_key(name) {
        return line.extend_from_slice(name);
    }
    let digits = hex::encode(alloc, name)?;
    line.extend_from_slice(b"0x")?;
    line.extend_from_slice(digits.as_bytes())
}

fn add_not_running(phase: &Phase, line: &mut Vec<u8>) -> Result<(), AllocError>
    ensures { OnOk result (line.new.items ≡ line.old.items ++ (codes "notrunning " ++ phase_text phase.now)) }
{
    line.extend_from_slice(b"notrunning ")?;
    line.extend_from_slice(phase_word(phase))
}

/// Adds a server's reason to refuse an append.
pub(crate) fn add_refusal(
    alloc: Global,
    refusal: &Refusal,
    line: &mut Vec<u8>,
) -> Result<(), AllocError>
    ensures { OnOk result (line.new.items ≡ line.old.items ++ refusal_text refusal.now) }
{
    match refusal {
        Refusal::NotRunning(phase) => add_not_running(phase, line),
        Refusal::Closed(session) => add_named(b"closed ", *session, line),
        Refusal::MarkAhead(last) => add_named(b"markahead ", *last, line),
        Refusal::Locked(lock, mark) => {
            line.extend_from_slice(b"locked ")?;
            add_lock(alloc, lock, line)?;
            add_named(b" ", *mark, line)
        }
        Refusal::WindowFull => line.extend_from_slice(b"windowfull"),
        Refusal::LogFull => line.extend_from_slice(b"logfull"),
    }
}

/// Adds a server's reason to show no part of its log.
pub(crate) fn add_read_refusal(refusal: &ReadRefusal, line: &mut Vec<u8>) -> Result<(), AllocError>
    ensures { OnOk result (line.new.items ≡ line.old.items ++ read_refusal_text refusal.now) }
{
    match refusal {
        ReadRefusal::NotRunning(phase) => add_not_running(phase, line),
        ReadRefusal::BadId => line.extend_from_slice(b"badid"),
        ReadRefusal::NotYet(committed) => add_named(b"notyet ", *committed, line),
    }
}

/// Adds a client's reason to build no transaction. Running out of memory has no text.
pub(crate) fn add_build_fault(
    alloc: Global,
    fault: &BuildFault,
    line: &mut Vec<u8>,
) -> Result<(), AllocError>
    ensures { OnOk result (line.new.items ≡ line.old.items ++ build_fault_text fault.now) }
{
    match fault {
        BuildFault::BadOps(at) => add_named(b"badops ", *at, line),
        BuildFault::TooManyLocks => line.extend_from_slice(b"toomanylocks"),
        BuildFault::DoubleLock => line.extend_from_slice(b"doublelock"),
        BuildFault::PayloadTooLong => line.extend_from_slice(b"payloadtoolong"),
        BuildFault::Unlocked(key) => {
            line.extend_from_slice(b"unlocked ")?;
            add_lock(alloc, key, line)
        }
        BuildFault::LastRequest => line.extend_from_slice(b"lastrequest"),
        BuildFault::Memory => Ok(()),
    }
}

fn add_to_node(brief: ToNodeBrief, line: &mut Vec<u8>) -> Result<(), AllocError>
    ensures { OnOk result (line.new.items ≡ line.old.items ++ to_node_text brief) }
{
    match brief {
        ToNodeBrief::Open(s) => add_words(b"open", &[s], line),
        ToNodeBrief::Fetch(s, from, max) => add_words(b"fetch", &[s, from, u64::from(max)], line),
        ToNodeBrief::Stage(s, first, count) => {
            add_words(b"stage", &[s, first, u64::from(count)], line)
        }
        ToNodeBrief::Adopt(s, length) => add_words(b"adopt", &[s, length], line),
        ToNodeBrief::Append(s, first, count) => {
            add_words(b"append", &[s, first, u64::from(count)], line)
        }
        ToNodeBrief::Low(s, k) => add_words(b"low", &[s, k], line),
    }
}

fn add_from_node(brief: FromNodeBrief, line: &mut Vec<u8>) -> Result<(), AllocError>
    ensures { OnOk result (line.new.items ≡ line.old.items ++ from_node_text brief) }
{
    match brief {
        FromNodeBrief::Opened(s, adopted, low, length) => {
            add_words(b"opened", &[s, adopted, low, length], line)
        }
        FromNodeBrief::Stale(s, p) => add_words(b"stale", &[s, p], line),
        FromNodeBrief::Unopened(s, p) => add_words(b"unopened", &[s, p], line),
        FromNodeBrief::Records(s, first, count) => {
            add_words(b"records", &[s, first, u64::from(count)], line)
        }
        FromNodeBrief::Staged(s, upto) => add_words(b"staged", &[s, upto], line),
        FromNodeBrief::StageAt(s, next) => add_words(b"stageat", &[s, next], line),
        FromNodeBrief::Adopted(s, length) => add_words(b"adopted", &[s, length], line),
        FromNodeBrief::Acked(s, length) => add_words(b"acked", &[s, length], line),
        FromNodeBrief::Gap(s, length) => add_words(b"gap", &[s, length], line),
        FromNodeBrief::NotAdopted(s, adopted) => add_words(b"notadopted", &[s, adopted], line),
        FromNodeBrief::LowSet(s, low) => add_words(b"lowset", &[s, low], line),
    }
}

fn add_to_server(brief: ToServerBrief, line: &mut Vec<u8>) -> Result<(), AllocError>
    ensures { OnOk result (line.new.items ≡ line.old.items ++ to_server_text brief) }
{
    match brief {
        ToServerBrief::Append(request) => add_words(b"append", &[request], line),
        ToServerBrief::Feed(from, max) => add_words(b"feed", &[from, u64::from(max)], line),
        ToServerBrief::Get(id) => add_words(b"get", &[id], line),
        ToServerBrief::Flush => add_words(b"flush", &[], line),
    }
}

fn add_from_server(
    alloc: Global,
    brief: &FromServerBrief,
    line: &mut Vec<u8>,
) -> Result<(), AllocError>
    ensures { OnOk result (line.new.items ≡ line.old.items ++ from_server_text brief.now) }
{
    match brief {
        FromServerBrief::Committed(request, id) => add_words(b"committed", &[*request, *id], line),
        FromServerBrief::Pending(request, id) => add_words(b"pending", &[*request, *id], line),
        FromServerBrief::Refused(request, refusal) => {
            add_words(b"refused", &[*request], line)?;
            line.push(b' ')?;
            add_refusal(alloc, refusal, line)
        }
        FromServerBrief::Heads(from, count, mark) => {
            add_words(b"heads", &[*from, *count, *mark], line)
        }
        FromServerBrief::Entry(id) => add_words(b"entry", &[*id], line),
        FromServerBrief::Flushed(committed) => add_words(b"flushed", &[*committed], line),
        FromServerBrief::Unserved(refusal) => {
            line.extend_from_slice(b"unserved ")?;
            add_read_refusal(refusal, line)
        }
    }
}

/// Adds a message: its word and its numbers, and the reason of a refusal.
pub(crate) fn add_brief(alloc: Global, brief: &Brief, line: &mut Vec<u8>) -> Result<(), AllocError>
    ensures { OnOk result (line.new.items ≡ line.old.items ++ brief_text brief.now) }
{
    match brief {
        Brief::ToNode(m) => add_to_node(*m, line),
        Brief::FromNode(m) => add_from_node(*m, line),
        Brief::ToServer(m) => add_to_server(*m, line),
        Brief::FromServer(m) => add_from_server(alloc, m, line),
    }
}
