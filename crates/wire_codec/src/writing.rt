//! Messages as frames.
ghost use Rattle.std.specs.Prelude.{◌≡◌, ◌+◌, ◌≤◌, [], ◌∷◌, ◌++◌, length, All, OnOk, OnErr};
ghost use Rattle.std.specs.List.{flat_map};
ghost use Rattle.std.specs.Int.{w64, to_be_bytes};
ghost use Rattle.proto_model.specs.Validity.{IsValidFromServer, AreHeads};
ghost use Rattle.record_frame.specs.Adding.{Keeps};
ghost use Rattle.wire_codec.specs.Spelling.{two, spelled_entry, spelled_batch, spelled_head, spelled_heads, phase_byte, spelled_refusal, spelled_read_refusal, spelled_to_node, spelled_from_node, spelled_to_server, spelled_from_server, spelled_to_register, spelled_from_register, spelled_control, message_body, message_frame, IsValidMessage};

use crate::kinds::{
    control, family, from_node, from_register, from_server, phase, reason, to_node, to_register,
    to_server,
};
use crate::measuring::{LENGTH, message_len};
use crate::message::{Control, FromRegister, Message, ToRegister};
use proto_model::{FromNode, FromServer, Phase, ReadRefusal, Refusal, ToNode, ToServer};
use record_frame::{body_len, put_locks, put_name, put_record, put_transaction};
use std::alloc::{AllocError, Global};
use tx_model::{Batch, Head, Heads, Lock, Record, Tx};

// Each writer adds to the end. On an error some of what it was to add may stand behind what stood there.

/// Adds bytes and then numbers.
#[tactic(auto, using(record_frame::proofs::Puts::keeps_after))]
fn put_fields(into: &mut Vec<u8>, front: &[u8], numbers: &[u64]) -> Result<(), AllocError>
    ensures ok { OnOk result (into.new.items ≡
        into.old.items ++ (front.now ++ flat_map (to_be_bytes w64) numbers.now)) }
    ensures kept { Keeps into.old.items into.new.items }
{
    into.extend_from_slice(front)?;
    for n in numbers {
        into.extend_from_slice(&n.to_be_bytes())?;
    }
    Ok(())
}

/// Adds a record's body behind its length.
#[tactic(auto, using(record_frame::proofs::Puts::keeps_after))]
fn put_entry(into: &mut Vec<u8>, entry: &Record) -> Result<(), AllocError>
    ensures ok { OnOk result (into.new.items ≡ into.old.items ++ spelled_entry entry.now) }
    ensures kept { Keeps into.old.items into.new.items }
{
    let len = body_len(entry) as u32;
    into.extend_from_slice(&len.to_be_bytes())?;
    put_record(into, entry)?;
    Ok(())
}

#[tactic(auto, using(record_frame::proofs::Puts::keeps_after))]
fn put_entries(into: &mut Vec<u8>, entries: &[Record]) -> Result<(), AllocError>
    ensures ok { OnOk result (into.new.items ≡
        into.old.items ++ flat_map spelled_entry entries.now) }
    ensures kept { Keeps into.old.items into.new.items }
{
    for entry in entries {
        put_entry(into, entry)?;
    }
    Ok(())
}

#[tactic(auto, using(record_frame::proofs::Puts::keeps_after))]
fn put_batch(into: &mut Vec<u8>, batch: &Batch) -> Result<(), AllocError>
    ensures ok { OnOk result (into.new.items ≡ into.old.items ++ spelled_batch batch.now) }
    ensures kept { Keeps into.old.items into.new.items }
{
    into.push(batch.len())?;
    put_entries(into, batch.records())?;
    Ok(())
}

#[tactic(auto, using(record_frame::proofs::Puts::keeps_after), unfolding(crate::specs::Spelling::spelled_head))]
fn put_head(into: &mut Vec<u8>, head: &Head) -> Result<(), AllocError>
    requires { length head.now.reads + length head.now.writes ≤ 64 }
    ensures ok { OnOk result (into.new.items ≡ into.old.items ++ spelled_head head.now) }
    ensures kept { Keeps into.old.items into.new.items }
{
    into.extend_from_slice(&head.id.to_be_bytes())?;
    into.extend_from_slice(&head.session.to_be_bytes())?;
    into.extend_from_slice(&head.mark.to_be_bytes())?;
    put_locks(into, head.reads.items(), head.writes.items())?;
    Ok(())
}

#[tactic(auto, using(record_frame::proofs::Puts::keeps_after))]
fn put_some_heads(into: &mut Vec<u8>, heads: &[Head]) -> Result<(), AllocError>
    requires { All (λ h. length h.reads + length h.writes ≤ 64) heads.now }
    ensures ok { OnOk result (into.new.items ≡ into.old.items ++ flat_map spelled_head heads.now) }
    ensures kept { Keeps into.old.items into.new.items }
{
    for head in heads {
        put_head(into, head)?;
    }
    Ok(())
}

#[tactic(auto, using(record_frame::proofs::Puts::keeps_after))]
fn put_heads(into: &mut Vec<u8>, from: u64, heads: &Heads) -> Result<(), AllocError>
    requires { AreHeads from heads.now }
    ensures ok { OnOk result (into.new.items ≡ into.old.items ++ spelled_heads heads.now) }
    ensures kept { Keeps into.old.items into.new.items }
{
    let heads = heads.items();
    into.push(heads.len() as u8)?;
    put_some_heads(into, heads)?;
    Ok(())
}

/// The byte of a phase. No refusal names the last two.
fn phase_byte(phase: Phase) -> u8
    ensures { result ≡ phase_byte phase }
{
    match phase {
        Phase::Idle => phase::IDLE,
        Phase::Opening => phase::OPENING,
        Phase::Fetching => phase::FETCHING,
        Phase::Repairing => phase::REPAIRING,
        Phase::Running => phase::RUNNING,
        Phase::Closed(_) => phase::CLOSED,
    }
}

/// Adds a lock and its probed mark.
#[tactic(auto, using(record_frame::proofs::Puts::keeps_after))]
fn put_locked(into: &mut Vec<u8>, lock: &Lock, mark: u64) -> Result<(), AllocError>
    ensures ok { OnOk result (into.new.items ≡
        into.old.items ++ spelled_refusal (Refusal.Locked lock.now mark)) }
    ensures kept { Keeps into.old.items into.new.items }
{
    into.push(reason::LOCKED)?;
    put_name(into, lock)?;
    into.extend_from_slice(&mark.to_be_bytes())
}

fn put_refusal(into: &mut Vec<u8>, why: &Refusal) -> Result<(), AllocError>
    ensures ok { OnOk result (into.new.items ≡ into.old.items ++ spelled_refusal why.now) }
    ensures kept { Keeps into.old.items into.new.items }
{
    match why {
        Refusal::NotRunning(phase) => {
            put_fields(into, &[reason::NOT_RUNNING, phase_byte(*phase)], &[])
        }
        Refusal::Closed(session) => put_fields(into, &[reason::CLOSED], &[*session]),
        Refusal::MarkAhead(last) => put_fields(into, &[reason::MARK_AHEAD], &[*last]),
        Refusal::Locked(lock, mark) => put_locked(into, lock, *mark),
        Refusal::WindowFull => put_fields(into, &[reason::WINDOW_FULL], &[]),
        Refusal::LogFull => put_fields(into, &[reason::LOG_FULL], &[]),
    }
}

fn put_read_refusal(into: &mut Vec<u8>, why: ReadRefusal) -> Result<(), AllocError>
    ensures ok { OnOk result (into.new.items ≡ into.old.items ++ spelled_read_refusal why) }
    ensures kept { Keeps into.old.items into.new.items }
{
    match why {
        ReadRefusal::NotRunning(phase) => {
            put_fields(into, &[reason::NOT_RUNNING, phase_byte(phase)], &[])
        }
        ReadRefusal::BadId => put_fields(into, &[reason::BAD_ID], &[]),
        ReadRefusal::NotYet(committed) => put_fields(into, &[reason::NOT_YET], &[committed]),
    }
}

/// Adds a front, a session and a batch.
#[tactic(auto, using(record_frame::proofs::Puts::keeps_after))]
fn put_session_and_batch(
    into: &mut Vec<u8>,
    front: &[u8],
    session: u64,
    batch: &Batch,
) -> Result<(), AllocError>
    ensures ok { OnOk result (into.new.items ≡
        into.old.items ++ (front.now ++ (to_be_bytes w64 session ++ spelled_batch batch.now))) }
    ensures kept { Keeps into.old.items into.new.items }
{
    put_fields(into, front, &[session])?;
    put_batch(into, batch)
}

/// Adds a front, numbers, and how many items are asked for.
#[tactic(auto, using(record_frame::proofs::Puts::keeps_after))]
fn put_asked(into: &mut Vec<u8>, front: &[u8], numbers: &[u64], most: u8) -> Result<(), AllocError>
    ensures ok { OnOk result (into.new.items ≡
        into.old.items ++ (front.now ++ (flat_map (to_be_bytes w64) numbers.now ++ most ∷ []))) }
    ensures kept { Keeps into.old.items into.new.items }
{
    put_fields(into, front, numbers)?;
    into.extend_from_slice(&[most])
}

fn put_to_node(into: &mut Vec<u8>, m: &ToNode) -> Result<(), AllocError>
    ensures ok { OnOk result (into.new.items ≡ into.old.items ++ spelled_to_node m.now) }
    ensures kept { Keeps into.old.items into.new.items }
{
    match m {
        ToNode::Open(session) => put_fields(into, &[family::TO_NODE, to_node::OPEN], &[*session]),
        ToNode::Fetch(session, from, max) => {
            put_asked(
                into,
                &[family::TO_NODE, to_node::FETCH],
                &[*session, *from],
                *max,
            )
        }
        ToNode::Stage(session, batch) => {
            put_session_and_batch(into, &[family::TO_NODE, to_node::STAGE], *session, batch)
        }
        ToNode::Adopt(session, len) => {
            put_fields(into, &[family::TO_NODE, to_node::ADOPT], &[*session, *len])
        }
        ToNode::Append(session, batch) => {
            put_session_and_batch(into, &[family::TO_NODE, to_node::APPEND], *session, batch)
        }
        ToNode::Low(session, low) => {
            put_fields(into, &[family::TO_NODE, to_node::LOW], &[*session, *low])
        }
    }
}

/// Adds a reply that is a session and one more number.
fn put_pair(into: &mut Vec<u8>, kind: u8, session: u64, n: u64) -> Result<(), AllocError>
    ensures ok { OnOk result (into.new.items ≡ into.old.items ++ (2 ∷ kind ∷ two session n)) }
    ensures kept { Keeps into.old.items into.new.items }
{
    put_fields(into, &[family::FROM_NODE, kind], &[session, n])
}

fn put_from_node(into: &mut Vec<u8>, m: &FromNode) -> Result<(), AllocError>
    ensures ok { OnOk result (into.new.items ≡ into.old.items ++ spelled_from_node m.now) }
    ensures kept { Keeps into.old.items into.new.items }
{
    match m {
        FromNode::Opened(session, adopted, low, len) => {
            let numbers = [*session, *adopted, *low, *len];
            put_fields(into, &[family::FROM_NODE, from_node::OPENED], &numbers)
        }
        FromNode::Records(session, batch) => {
            put_session_and_batch(
                into,
                &[family::FROM_NODE, from_node::RECORDS],
                *session,
                batch,
            )
        }
        FromNode::Stale(session, n) => put_pair(into, from_node::STALE, *session, *n),
        FromNode::Unopened(session, n) => put_pair(into, from_node::UNOPENED, *session, *n),
        FromNode::Staged(session, n) => put_pair(into, from_node::STAGED, *session, *n),
        FromNode::StageAt(session, n) => put_pair(into, from_node::STAGE_AT, *session, *n),
        FromNode::Adopted(session, n) => put_pair(into, from_node::ADOPTED, *session, *n),
        FromNode::Acked(session, n) => put_pair(into, from_node::ACKED, *session, *n),
        FromNode::Gap(session, n) => put_pair(into, from_node::GAP, *session, *n),
        FromNode::NotAdopted(session, n) => put_pair(into, from_node::NOT_ADOPTED, *session, *n),
        FromNode::LowSet(session, n) => put_pair(into, from_node::LOW_SET, *session, *n),
    }
}

#[tactic(auto, using(record_frame::proofs::Puts::keeps_after))]
fn put_append(into: &mut Vec<u8>, tx: &Tx) -> Result<(), AllocError>
    ensures ok { OnOk result (into.new.items ≡
        into.old.items ++ spelled_to_server (ToServer.Append tx.now)) }
    ensures kept { Keeps into.old.items into.new.items }
{
    put_fields(into, &[family::TO_SERVER, to_server::APPEND], &[])?;
    put_transaction(into, tx)
}

fn put_to_server(into: &mut Vec<u8>, m: &ToServer) -> Result<(), AllocError>
    ensures ok { OnOk result (into.new.items ≡ into.old.items ++ spelled_to_server m.now) }
    ensures kept { Keeps into.old.items into.new.items }
{
    match m {
        ToServer::Append(tx) => put_append(into, tx),
        ToServer::Feed(from, max) => {
            put_asked(into, &[family::TO_SERVER, to_server::FEED], &[*from], *max)
        }
        ToServer::Get(id) => put_fields(into, &[family::TO_SERVER, to_server::GET], &[*id]),
        ToServer::Flush => put_fields(into, &[family::TO_SERVER, to_server::FLUSH], &[]),
    }
}

/// Adds the front of a server's answer, and numbers.
fn put_answer(into: &mut Vec<u8>, kind: u8, numbers: &[u64]) -> Result<(), AllocError>
    ensures ok { OnOk result (into.new.items ≡
        into.old.items ++ (4 ∷ kind ∷ flat_map (to_be_bytes w64) numbers.now)) }
    ensures kept { Keeps into.old.items into.new.items }
{
    put_fields(into, &[family::FROM_SERVER, kind], numbers)
}

#[tactic(auto, using(record_frame::proofs::Puts::keeps_after))]
fn put_refused(into: &mut Vec<u8>, request: u64, why: &Refusal) -> Result<(), AllocError>
    ensures ok { OnOk result (into.new.items ≡
        into.old.items ++ spelled_from_server (FromServer.Refused request why.now)) }
    ensures kept { Keeps into.old.items into.new.items }
{
    put_answer(into, from_server::REFUSED, &[request])?;
    put_refusal(into, why)
}

#[tactic(auto, using(record_frame::proofs::Puts::keeps_after))]
fn put_heads_from(
    into: &mut Vec<u8>,
    from: u64,
    committed: u64,
    heads: &Heads,
) -> Result<(), AllocError>
    requires { AreHeads from heads.now }
    ensures ok { OnOk result (into.new.items ≡
        into.old.items ++ spelled_from_server (FromServer.Heads from committed heads.now)) }
    ensures kept { Keeps into.old.items into.new.items }
{
    put_answer(into, from_server::HEADS, &[from, committed])?;
    put_heads(into, from, heads)
}

#[tactic(auto, using(record_frame::proofs::Puts::keeps_after))]
fn put_whole_entry(into: &mut Vec<u8>, entry: &Record) -> Result<(), AllocError>
    ensures ok { OnOk result (into.new.items ≡
        into.old.items ++ spelled_from_server (FromServer.Entry entry.now)) }
    ensures kept { Keeps into.old.items into.new.items }
{
    put_answer(into, from_server::ENTRY, &[])?;
    put_entry(into, entry)
}

#[tactic(auto, using(record_frame::proofs::Puts::keeps_after))]
fn put_unserved(into: &mut Vec<u8>, why: ReadRefusal) -> Result<(), AllocError>
    ensures ok { OnOk result (into.new.items ≡
        into.old.items ++ spelled_from_server (FromServer.Unserved why)) }
    ensures kept { Keeps into.old.items into.new.items }
{
    put_answer(into, from_server::UNSERVED, &[])?;
    put_read_refusal(into, why)
}

fn put_from_server(into: &mut Vec<u8>, m: &FromServer) -> Result<(), AllocError>
    requires { IsValidFromServer m.now }
    ensures ok { OnOk result (into.new.items ≡ into.old.items ++ spelled_from_server m.now) }
    ensures kept { Keeps into.old.items into.new.items }
{
    match m {
        FromServer::Committed(request, id) => {
            put_answer(into, from_server::COMMITTED, &[*request, *id])
        }
        FromServer::Pending(request, id) => {
            put_answer(into, from_server::PENDING, &[*request, *id])
        }
        FromServer::Refused(request, why) => put_refused(into, *request, why),
        FromServer::Heads(from, committed, heads) => {
            put_heads_from(into, *from, *committed, heads)
        }
        FromServer::Entry(entry) => put_whole_entry(into, entry),
        FromServer::Flushed(committed) => { put_answer(into, from_server::FLUSHED, &[*committed]) }
        FromServer::Unserved(why) => put_unserved(into, *why),
    }
}

fn put_to_register(into: &mut Vec<u8>, m: ToRegister) -> Result<(), AllocError>
    ensures ok { OnOk result (into.new.items ≡ into.old.items ++ spelled_to_register m) }
    ensures kept { Keeps into.old.items into.new.items }
{
    match m {
        ToRegister::Read => put_fields(into, &[family::TO_REGISTER, to_register::READ], &[]),
        ToRegister::Cas(from) => {
            put_fields(into, &[family::TO_REGISTER, to_register::CAS], &[from])
        }
    }
}

fn put_from_register(into: &mut Vec<u8>, m: FromRegister) -> Result<(), AllocError>
    ensures ok { OnOk result (into.new.items ≡ into.old.items ++ spelled_from_register m) }
    ensures kept { Keeps into.old.items into.new.items }
{
    match m {
        FromRegister::Value(number) => {
            put_fields(
                into,
                &[family::FROM_REGISTER, from_register::VALUE],
                &[number],
            )
        }
        FromRegister::Won(number) => {
            put_fields(
                into,
                &[family::FROM_REGISTER, from_register::WON],
                &[number],
            )
        }
        FromRegister::Lost(number) => {
            put_fields(
                into,
                &[family::FROM_REGISTER, from_register::LOST],
                &[number],
            )
        }
        FromRegister::Exhausted => {
            put_fields(
                into,
                &[family::FROM_REGISTER, from_register::EXHAUSTED],
                &[],
            )
        }
    }
}

fn put_control(into: &mut Vec<u8>, m: Control) -> Result<(), AllocError>
    ensures ok { OnOk result (into.new.items ≡ into.old.items ++ spelled_control m) }
    ensures kept { Keeps into.old.items into.new.items }
{
    let kind = match m {
        Control::Bye => control::BYE,
        Control::Done => control::DONE,
        Control::No => control::NO,
    };
    put_fields(into, &[family::CONTROL, kind], &[])
}

/// Adds the body of a message.
fn put_message(into: &mut Vec<u8>, m: &Message) -> Result<(), AllocError>
    requires { IsValidMessage m.now }
    ensures ok { OnOk result (into.new.items ≡ into.old.items ++ message_body m.now) }
    ensures kept { Keeps into.old.items into.new.items }
{
    match m {
        Message::ToNode(m) => put_to_node(into, m),
        Message::FromNode(m) => put_from_node(into, m),
        Message::ToServer(m) => put_to_server(into, m),
        Message::FromServer(m) => put_from_server(into, m),
        Message::ToRegister(m) => put_to_register(into, *m),
        Message::FromRegister(m) => put_from_register(into, *m),
        Message::Control(m) => put_control(into, *m),
    }
}

/// Adds the frame of a message with a body of this length.
#[tactic(auto, using(record_frame::proofs::Puts::keeps_after))]
fn put_frame(into: &mut Vec<u8>, m: &Message, len: usize) -> Result<(), AllocError>
    requires valid { IsValidMessage m.now }
    requires len { len ≡ length (message_body m.now) }
    requires short { len ≤ 600000 }
    ensures ok { OnOk result (into.new.items ≡ into.old.items ++ message_frame m.now) }
    ensures kept { Keeps into.old.items into.new.items }
{
    into.extend_from_slice(&(len as u32).to_be_bytes())?;
    put_message(into, m)
}

/// Adds the one frame of a message, in memory that is taken once.
pub fn encode(_alloc: Global, m: &Message, into: &mut Vec<u8>) -> Result<(), AllocError>
    requires { IsValidMessage m.now }
    ensures ok { OnOk result (into.new.items ≡ into.old.items ++ message_frame m.now) }
    ensures err { OnErr result (into.new.items ≡ into.old.items) }
{
    let start = into.len();
    let len = message_len(m);
    into.reserve(LENGTH + len)?;
    let written = put_frame(into, m, len);
    if written.is_err() {
        into.truncate(start);
    }
    written
}
