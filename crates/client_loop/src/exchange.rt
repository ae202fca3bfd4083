ghost use Rattle.std.specs.Prelude.{◌≡◌, ◌≢◌, IfOk, Ok, length};
ghost use Rattle.io_core.specs.Links as links;
ghost use Rattle.wire_codec.specs.declared.reading.TheConstants.{MAX_FRAME};
ghost use Rattle.wire_codec.specs.Spelling.{IsValidMessage};
ghost use Rattle.client_loop.specs.Asks.{IsReply, IsValidReply, ExchangesOf};
ghost use Rattle.client_loop.specs.Ends.{Counts};

use io_core::{Back, Fault, Link};
use record_frame::FrameFault;
use std::alloc::{AllocError, Global};
use std::marker::Model;
use wire_codec::{MAX_FRAME, Message, decode, encode};

/// What came back of an exchange.
#[derive(Drop)]
pub enum Reply {
    /// A message.
    Message(Message),
    /// More bytes than the longest message has, or bytes that are no message.
    Garbled,
    /// Nothing.
    Failed,
}

// What bytes that came back are read as: all of them are one message, or they are none.
fn read_reply(alloc: Global, bytes: &[u8]) -> Result<Reply, AllocError>
    ensures read { IfOk result (λ reply. IsReply (links.Reply bytes.now) reply) }
    ensures valid { IfOk result IsValidReply }
    ensures came { result ≢ Ok Reply.Failed }
{
    match decode(alloc, bytes) {
        Ok((message, len)) => {
            if len == bytes.len() {
                return Ok(Reply::Message(message));
            }
            Ok(Reply::Garbled)
        }
        Err(FrameFault::Memory) => Err(AllocError),
        Err(FrameFault::Short) => Ok(Reply::Garbled),
        Err(FrameFault::Bad(_)) => Ok(Reply::Garbled),
    }
}

/// Room for a request, and for a reply of the greatest length. Its contents mean nothing between two exchanges.
#[derive(Drop)]
pub struct Desk {
    request: Vec<u8>,
    room: Vec<u8>,
}

impl Model for Desk {
    ghost Value = { Unit {0} };

    ghost view = { λ _. tt };

    ghost invariant = { λ desk. length desk.room.items ≡ MAX_FRAME };
}

impl Desk {
    pub fn new(alloc: Global) -> Result<Desk, AllocError> {
        let room = vec![in alloc; 0; MAX_FRAME]?;
        Ok(Desk {
            request: Vec::new(alloc),
            room,
        })
    }

    /// Sends a message to whoever serves at a port, and reads what comes back.
    pub fn exchange<L: Link>(
        &mut self,
        alloc: Global,
        link: &mut L,
        port: u16,
        message: &Message,
    ) -> Result<Reply, AllocError>
        requires { IsValidMessage message.now }
        ensures told { L.tells →
            ExchangesOf port message.now (L.transcript link.old) (L.transcript link.new) result }
        ensures valid { IfOk result IsValidReply }
        ensures faults { Counts (L.faults link.old) (L.faults link.new) (result ≡ Ok Reply.Failed) }
    {
        self.request.clear();
        encode(alloc, message, &mut self.request)?;
        match link.exchange(port, &self.request, &mut self.room) {
            Ok(Back::Got(count)) => read_reply(alloc, &self.room[..count]),
            Ok(Back::TooLong) => Ok(Reply::Garbled),
            Err(Fault::Failed) => Ok(Reply::Failed),
            Err(Fault::Memory) => Err(AllocError),
        }
    }
}
