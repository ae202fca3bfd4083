ghost use Rattle.std.specs.Prelude.{◌≡◌, ◌<◌, ◌++◌, [], ◌∷◌, Bool, IfOk, IfErr, OnOk, OnErr, Err, IfSome, length};
ghost use Rattle.io_core.specs.Ports.{Answered};
ghost use Rattle.wire_codec.specs.Spelling.{IsValidMessage, message_frame};
ghost use Rattle.node_loops.specs.Ends.{IsRequestEnd, Counts};
ghost use Rattle.node_loops.specs.Requests.{Reads, Asks, asked_of, IsValidAsked, is_bye, Takes, IsUntaken};

use crate::End;
use io_core::{Fault, Port, Turn};
use proto_model::{ToNode, ToServer};
use record_frame::FrameFault;
use std::alloc::{AllocError, Global};
use wire_codec::{Control, MAX_FRAME, Message, ToRegister, decode, encode, frames_are_short};

/// What a command that serves is asked.
#[derive(Drop)]
pub enum Asked {
    /// A message for storage nodes.
    Node(ToNode),
    /// A message for servers.
    Server(ToServer),
    /// A message for the register.
    Register(ToRegister),
    /// To serve no longer.
    Bye,
    /// Nothing that any command serves.
    Other,
}

/// What is asked by what was read.
fn asked_of(message: Option<Message>) -> Asked
    ensures is { result ≡ asked_of message }
    ensures valid { IfSome message IsValidMessage → IsValidAsked result }
{
    let Some(message) = message else {
        return Asked::Other;
    };
    match message {
        Message::ToNode(m) => Asked::Node(m),
        Message::ToServer(m) => Asked::Server(m),
        Message::ToRegister(m) => Asked::Register(m),
        Message::Control(Control::Bye) => Asked::Bye,
        Message::Control(Control::Done) => Asked::Other,
        Message::Control(Control::No) => Asked::Other,
        Message::FromNode(_) => Asked::Other,
        Message::FromServer(_) => Asked::Other,
        Message::FromRegister(_) => Asked::Other,
    }
}

/// Whether a command is asked to serve no longer.
pub fn is_bye(asked: &Asked) -> bool
    ensures { result ≡ is_bye asked.now }
{
    match asked {
        Asked::Bye => true,
        Asked::Node(_) => false,
        Asked::Server(_) => false,
        Asked::Register(_) => false,
        Asked::Other => false,
    }
}

/// The message that all of the bytes spell.
pub fn whole_message(alloc: Global, bytes: &[u8]) -> Result<Option<Message>, AllocError>
    ensures read { IfOk result (λ message. Reads bytes.now message) }
    ensures valid { IfOk result (λ message. IfSome message IsValidMessage) }
{
    match decode(alloc, bytes) {
        Ok((message, len)) => {
            if len == bytes.len() {
                return Ok(Some(message));
            }
            Ok(None)
        }
        Err(FrameFault::Memory) => Err(AllocError),
        Err(FrameFault::Short) => Ok(None),
        Err(FrameFault::Bad(_)) => Ok(None),
    }
}

// What the bytes of a request ask.
fn read_request(alloc: Global, bytes: &[u8]) -> Result<Asked, End>
    ensures asks { IfOk result (λ asked. Asks bytes.now asked) }
    ensures valid { IfOk result IsValidAsked }
    ensures memory { IfErr result (λ end. end ≡ End.Memory) }
{
    match whole_message(alloc, bytes) {
        Ok(message) => Ok(asked_of(message)),
        Err(_) => Err(End::Memory),
    }
}

/// Waits for the next request, and reads it. The room has as many bytes as the longest frame, so a longer request asks
/// nothing that is served.
pub fn next_request<P: Port>(alloc: Global, port: &mut P, room: &mut [u8]) -> Result<Asked, End>
    requires room { length room.old ≡ MAX_FRAME }
    ensures taken { IfOk result (λ asked. P.tells →
        Takes (P.coming port.old) (P.coming port.new) asked) }
    ensures valid { IfOk result IsValidAsked }
    ensures untaken { IfErr result (λ end. P.tells →
        IsUntaken (P.coming port.old) (P.coming port.new) end) }
    ensures answers { P.tells → P.answers port.new ≡ P.answers port.old }
    ensures room { length room.new ≡ length room.old }
    ensures ends { IfErr result IsRequestEnd }
    ensures peer { Counts (P.faults port.old) (P.faults port.new) (result ≡ Err End.Peer) }
{
    // So a request that is longer than the room is no message.
    frames_are_short();
    match port.next(room) {
        Ok(Turn::Got(count)) => {
            let (bytes, _) = room.split_at(count);
            read_request(alloc, bytes)
        }
        Ok(Turn::TooLong) => Ok(Asked::Other),
        Ok(Turn::End) => Err(End::Port),
        Err(_) => Err(End::Peer),
    }
}

/// Answers the last request by the frame of a message, which is written over what the buffer held. That the answer failed
/// changes nothing: the port has counted it.
pub fn send<P: Port>(
    alloc: Global,
    port: &mut P,
    message: &Message,
    buffer: &mut Vec<u8>,
) -> Result<(), AllocError>
    requires { IsValidMessage message.now }
    ensures coming { P.tells → P.coming port.new ≡ P.coming port.old }
    ensures answers { OnOk result (P.tells → (given : Bool) × (P.answers port.new ≡
        P.answers port.old ++ record { bytes = message_frame message.now; given = given } ∷ [])) }
    ensures none { OnErr result (P.tells → P.answers port.new ≡ P.answers port.old) }
    ensures faults { P.faults port.new ≡ P.faults port.old }
{
    buffer.clear();
    encode(alloc, message, buffer)?;
    match port.answer(buffer) {
        Ok(()) => Ok(()),
        Err(Fault::Failed) => Ok(()),
        Err(Fault::Memory) => Err(AllocError),
    }
}

/// So many zeros: the room for a frame.
pub fn zeros(alloc: Global, count: usize) -> Result<Vec<u8>, AllocError>
    ensures { IfOk result (λ zeros. length zeros.items ≡ count) }
{
    vec![in alloc; 0; count]
}
