//! The families of messages: by the kind, what stands behind it.
ghost use Rattle.wire_codec.specs.Reading.{to_node_in, counted_in, from_node_in, to_server_in, from_server_in, to_register_in, from_register_in, control_in, message_in};
ghost use Rattle.wire_codec.specs.Layouts.{Sees};

use crate::fields::{
    asked_id_in, count_in, request_and_id_in, session_and_count_in, session_and_next_in, session_in,
};
use crate::kinds::{
    control, family, from_node, from_register, from_server, to_node, to_register, to_server,
};
use crate::layout::{
    Layout, append_in, entry_in, feed_in, fetch_in, heads_in, opened_in, refused_in,
    session_and_batch_in, unserved_in,
};
use crate::message::{Control, FromRegister, Message, ToRegister};
use proto_model::{FromNode, FromServer, ToNode, ToServer};

#[tactic(auto, unfolding(crate::specs::Reading::to_node_in))]
fn to_node_in(kind: u8, fields: &[u8]) -> Option<Layout<'_>>
    ensures { Sees result (to_node_in kind fields.now) }
{
    match kind {
        to_node::OPEN => {
            let session = session_in(fields)?;
            Some(Layout::Whole(Message::ToNode(ToNode::Open(session))))
        }
        to_node::FETCH => fetch_in(fields),
        to_node::STAGE => {
            let (session, batch) = session_and_batch_in(fields)?;
            Some(Layout::Stage(session, batch))
        }
        to_node::ADOPT => {
            let (session, len) = session_and_count_in(fields)?;
            Some(Layout::Whole(Message::ToNode(ToNode::Adopt(session, len))))
        }
        to_node::APPEND => {
            let (session, batch) = session_and_batch_in(fields)?;
            Some(Layout::AppendBatch(session, batch))
        }
        to_node::LOW => {
            let (session, low) = session_and_count_in(fields)?;
            Some(Layout::Whole(Message::ToNode(ToNode::Low(session, low))))
        }
        _ => None,
    }
}

/// The replies that are a session and a count.
#[tactic(auto, unfolding(crate::specs::Reading::counted_in))]
fn counted_in(kind: u8, fields: &[u8]) -> Option<Layout<'_>>
    ensures { Sees result (counted_in kind fields.now) }
{
    let (session, n) = session_and_count_in(fields)?;
    let m = match kind {
        from_node::STALE => FromNode::Stale(session, n),
        from_node::UNOPENED => FromNode::Unopened(session, n),
        from_node::STAGED => FromNode::Staged(session, n),
        from_node::ADOPTED => FromNode::Adopted(session, n),
        from_node::ACKED => FromNode::Acked(session, n),
        from_node::GAP => FromNode::Gap(session, n),
        from_node::NOT_ADOPTED => FromNode::NotAdopted(session, n),
        from_node::LOW_SET => FromNode::LowSet(session, n),
        _ => return None,
    };
    Some(Layout::Whole(Message::FromNode(m)))
}

#[tactic(auto, unfolding(crate::specs::Reading::from_node_in))]
fn from_node_in(kind: u8, fields: &[u8]) -> Option<Layout<'_>>
    ensures { Sees result (from_node_in kind fields.now) }
{
    match kind {
        from_node::OPENED => opened_in(fields),
        from_node::RECORDS => {
            let (session, batch) = session_and_batch_in(fields)?;
            Some(Layout::Records(session, batch))
        }
        from_node::STAGE_AT => {
            let (session, next) = session_and_next_in(fields)?;
            Some(Layout::Whole(Message::FromNode(FromNode::StageAt(session, next))))
        }
        _ => counted_in(kind, fields),
    }
}

#[tactic(auto, unfolding(crate::specs::Reading::to_server_in))]
fn to_server_in(kind: u8, fields: &[u8]) -> Option<Layout<'_>>
    ensures { Sees result (to_server_in kind fields.now) }
{
    match kind {
        to_server::APPEND => append_in(fields),
        to_server::FEED => feed_in(fields),
        to_server::GET => {
            let id = asked_id_in(fields)?;
            Some(Layout::Whole(Message::ToServer(ToServer::Get(id))))
        }
        to_server::FLUSH if fields.is_empty() => Some(Layout::Whole(Message::ToServer(
            ToServer::Flush,
        ))),
        _ => None,
    }
}

#[tactic(auto, unfolding(crate::specs::Reading::from_server_in))]
fn from_server_in(kind: u8, fields: &[u8]) -> Option<Layout<'_>>
    ensures { Sees result (from_server_in kind fields.now) }
{
    match kind {
        from_server::COMMITTED => {
            let (request, id) = request_and_id_in(fields)?;
            Some(Layout::Whole(Message::FromServer(FromServer::Committed(request, id))))
        }
        from_server::PENDING => {
            let (request, id) = request_and_id_in(fields)?;
            Some(Layout::Whole(Message::FromServer(FromServer::Pending(request, id))))
        }
        from_server::REFUSED => refused_in(fields),
        from_server::HEADS => heads_in(fields),
        from_server::ENTRY => entry_in(fields),
        from_server::FLUSHED => {
            let committed = count_in(fields)?;
            Some(Layout::Whole(Message::FromServer(FromServer::Flushed(committed))))
        }
        from_server::UNSERVED => unserved_in(fields),
        _ => None,
    }
}

#[tactic(auto, unfolding(crate::specs::Reading::to_register_in))]
fn to_register_in(kind: u8, fields: &[u8]) -> Option<Layout<'_>>
    ensures { Sees result (to_register_in kind fields.now) }
{
    match kind {
        to_register::READ if fields.is_empty() => Some(Layout::Whole(Message::ToRegister(
            ToRegister::Read,
        ))),
        to_register::CAS => {
            let from = count_in(fields)?;
            Some(Layout::Whole(Message::ToRegister(ToRegister::Cas(from))))
        }
        _ => None,
    }
}

#[tactic(auto, unfolding(crate::specs::Reading::from_register_in))]
fn from_register_in(kind: u8, fields: &[u8]) -> Option<Layout<'_>>
    ensures { Sees result (from_register_in kind fields.now) }
{
    match kind {
        from_register::VALUE => {
            let number = count_in(fields)?;
            Some(Layout::Whole(Message::FromRegister(FromRegister::Value(number))))
        }
        from_register::WON => {
            let number = count_in(fields)?;
            Some(Layout::Whole(Message::FromRegister(FromRegister::Won(number))))
        }
        from_register::LOST => {
            let number = count_in(fields)?;
            Some(Layout::Whole(Message::FromRegister(FromRegister::Lost(number))))
        }
        from_register::EXHAUSTED if fields.is_empty() => Some(Layout::Whole(Message::FromRegister(
            FromRegister::Exhausted,
        ))),
        _ => None,
    }
}

#[tactic(auto, unfolding(crate::specs::Reading::control_in))]
fn control_in(kind: u8, fields: &[u8]) -> Option<Layout<'_>>
    ensures { Sees result (control_in kind fields.now) }
{
    match kind {
        control::BYE if fields.is_empty() => Some(Layout::Whole(Message::Control(Control::Bye))),
        control::DONE if fields.is_empty() => Some(Layout::Whole(Message::Control(Control::Done))),
        control::NO if fields.is_empty() => Some(Layout::Whole(Message::Control(Control::No))),
        _ => None,
    }
}

/// The layout of the message that is the whole body.
#[tactic(auto, unfolding(crate::specs::Reading::message_in))]
pub(crate) fn layout_of(body: &[u8]) -> Option<Layout<'_>>
    ensures { Sees result (message_in body.now) }
{
    if body.len() < 2 {
        return None;
    }
    let (_, fields) = body.split_at(2);
    let kind = body[1];
    match body[0] {
        family::TO_NODE => to_node_in(kind, fields),
        family::FROM_NODE => from_node_in(kind, fields),
        family::TO_SERVER => to_server_in(kind, fields),
        family::FROM_SERVER => from_server_in(kind, fields),
        family::TO_REGISTER => to_register_in(kind, fields),
        family::FROM_REGISTER => from_register_in(kind, fields),
        family::CONTROL => control_in(kind, fields),
        _ => None,
    }
}
