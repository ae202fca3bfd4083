ghost use Rattle.std.specs.Prelude.{◌≡◌, ◌≤◌, ◌<◌, ◌++◌, [], ◌∷◌, Bool, IfOk, IfErr, IfSome, OnOk, OnErr, Err, length};
ghost use Rattle.io_core.specs.Causes.{Rose};
ghost use Rattle.io_core.specs.Ports.{Answered};
ghost use Rattle.wire_codec.specs.Spelling.{IsValidMessage, message_frame};
ghost use Rattle.server_loop.specs.Requests.{Reads, is_bye};
ghost use Rattle.proto_model.specs.Validity.{IsWord};
ghost use Rattle.server_loop.specs.Serving.{request_number};
ghost use Rattle.server_loop.specs.Asking.{IsAskedSo};
ghost use Rattle.server_loop.specs.Ends.{IsServingEnd};
ghost use Rattle.server_loop.specs.Taking.{Takes, IsUntaken};

use crate::End;
use io_core::{Fault, Port, Turn};
use proto_model::ToServer;
use record_frame::FrameFault;
use std::alloc::{AllocError, Global};
use wire_codec::{Control, MAX_FRAME, Message, decode, encode, frames_are_short};

/// What a server is asked.
#[derive(Drop)]
pub enum Asked {
    /// A client's request.
    Server(ToServer),
    /// To serve no longer.
    Bye,
    /// Nothing that it answers.
    Other,
}

/// What is asked by what was read.
pub fn asked_of(message: Option<Message>) -> Asked
    ensures { IsAskedSo message result }
{
    let Some(message) = message else {
        return Asked::Other;
    };
    match message {
        Message::ToServer(m) => Asked::Server(m),
        Message::Control(Control::Bye) => Asked::Bye,
        Message::Control(Control::Done) => Asked::Other,
        Message::Control(Control::No) => Asked::Other,
        Message::ToNode(_) => Asked::Other,
        Message::FromNode(_) => Asked::Other,
        Message::FromServer(_) => Asked::Other,
        Message::ToRegister(_) => Asked::Other,
        Message::FromRegister(_) => Asked::Other,
    }
}

/// Whether a command is asked to serve no longer.
pub fn is_bye(asked: &Option<Message>) -> bool
    ensures { result ≡ is_bye asked.now }
{
    let Some(message) = asked else {
        return false;
    };
    match message {
        Message::Control(Control::Bye) => true,
        Message::Control(Control::Done) => false,
        Message::Control(Control::No) => false,
        Message::ToServer(_) => false,
        Message::ToNode(_) => false,
        Message::FromNode(_) => false,
        Message::FromServer(_) => false,
        Message::ToRegister(_) => false,
        Message::FromRegister(_) => false,
    }
}

/// The number of an append's request, under which it is answered.
pub fn request_number(m: &ToServer) -> u64
    ensures value { result ≡ request_number m.now }
    ensures word { IsWord result }
{
    match m {
        ToServer::Append(tx) => tx.request(),
        ToServer::Feed(_, _) => 0,
        ToServer::Get(_) => 0,
        ToServer::Flush => 0,
    }
}

/// The message that all of the bytes spell.
pub fn whole_message(alloc: Global, bytes: &[u8]) -> Result<Option<Message>, AllocError>
    ensures read { IfOk result (λ asked. Reads bytes.now asked) }
    ensures valid { IfOk result (λ asked. IfSome asked IsValidMessage) }
{
    match decode(alloc, bytes) {
        Ok((message, len)) => {
            if len == bytes.len() {
                return Ok(Some(message));
            }
            Ok(None)
        }
        Err(FrameFault::Memory) => Err(AllocError),
        Err(FrameFault::Short) => Ok(None),
        Err(FrameFault::Bad(_)) => Ok(None),
    }
}

// What the bytes of a request are read as.
fn read_request(alloc: Global, bytes: &[u8]) -> Result<Option<Message>, End>
    ensures read { IfOk result (λ asked. Reads bytes.now asked) }
    ensures valid { IfOk result (λ asked. IfSome asked IsValidMessage) }
    ensures memory { IfErr result (λ end. end ≡ End.Memory) }
{
    match whole_message(alloc, bytes) {
        Ok(asked) => Ok(asked),
        Err(_) => Err(End::Memory),
    }
}

/// Waits for the next request, and reads it. The room has as many bytes as the longest frame.
pub fn next_request<P: Port>(
    alloc: Global,
    port: &mut P,
    room: &mut [u8],
) -> Result<Option<Message>, End>
    requires room { length room.old ≡ MAX_FRAME }
    ensures taken { IfOk result (λ asked. P.tells → Takes (P.coming port.old) (P.coming port.new) asked) }
    ensures valid { IfOk result (λ asked. IfSome asked IsValidMessage) }
    ensures untaken { IfErr result (λ end. P.tells → IsUntaken (P.coming port.old) (P.coming port.new) end) }
    ensures answers { P.tells → P.answers port.new ≡ P.answers port.old }
    ensures room { length room.new ≡ length room.old }
    ensures later { P.faults port.old ≤ P.faults port.new }
    ensures ends { IfErr result IsServingEnd }
    ensures peer { result ≡ Err End.Peer → Rose (P.faults port.old) (P.faults port.new) }
    ensures peer_told { P.faults port.old < P.faults port.new → result ≡ Err End.Peer }
{
    // So a request that is longer than the room is no message.
    frames_are_short();
    match port.next(room) {
        Ok(Turn::Got(count)) => {
            let (bytes, _) = room.split_at(count);
            read_request(alloc, bytes)
        }
        Ok(Turn::TooLong) => Ok(None),
        Ok(Turn::End) => Err(End::Port),
        Err(_) => Err(End::Peer),
    }
}

/// Answers the last request. That the answer failed changes nothing: the port has counted it.
pub fn send<P: Port>(alloc: Global, port: &mut P, message: &Message) -> Result<(), AllocError>
    requires { IsValidMessage message.now }
    ensures coming { P.tells → P.coming port.new ≡ P.coming port.old }
    ensures answers { OnOk result (P.tells → (given : Bool) × (P.answers port.new ≡
        P.answers port.old ++ record { bytes = message_frame message.now; given = given } ∷ [])) }
    ensures none { OnErr result (P.tells → P.answers port.new ≡ P.answers port.old) }
    ensures faults { P.faults port.new ≡ P.faults port.old }
{
    let mut bytes = Vec::new(alloc);
    encode(alloc, message, &mut bytes)?;
    match port.answer(&bytes) {
        Ok(()) => Ok(()),
        Err(Fault::Failed) => Ok(()),
        Err(Fault::Memory) => Err(AllocError),
    }
}

/// So many zeros: the room for a frame.
pub fn zeros(alloc: Global, count: usize) -> Result<Vec<u8>, AllocError>
    ensures { IfOk result (λ zeros. length zeros.items ≡ count) }
{
    vec![in alloc; 0; count]
}
