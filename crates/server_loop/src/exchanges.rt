ghost use Rattle.std.specs.Prelude.{◌≡◌, ◌++◌, [], ◌∷◌, IfOk, length};
ghost use Rattle.io_core.specs.Links as links;
ghost use Rattle.wire_codec.specs.Spelling.{IsValidMessage};
ghost use Rattle.server_loop.specs.Exchanges.{ExchangesOf, HasReplyCause, IsAnswered, IsReply, IsValidReply};

use crate::requests::whole_message;
use io_core::{Back, Fault, Link};
use std::alloc::{AllocError, Global};
use wire_codec::{MAX_FRAME, Message, encode};

/// What came back of an exchange.
#[derive(Drop)]
pub enum Reply {
    /// A message.
    Message(Message),
    /// More bytes than there is room for, or bytes that are no message.
    Garbled,
    /// Nothing, since the exchange failed.
    Failed,
}

// What bytes that came back are read as.
fn read_bytes(alloc: Global, bytes: &[u8]) -> Result<Reply, AllocError>
    ensures read { IfOk result (IsReply (links.Reply bytes.now)) }
    ensures valid { IfOk result IsValidReply }
    ensures answered { IfOk result IsAnswered }
{
    match whole_message(alloc, bytes) {
        Ok(Some(message)) => Ok(Reply::Message(message)),
        Ok(None) => Ok(Reply::Garbled),
        Err(_) => Err(AllocError),
    }
}

/// Sends a message to whoever serves at a port, and reads what comes back. The room has as many bytes as the longest
/// frame.
pub fn exchange<L: Link>(
    alloc: Global,
    link: &mut L,
    port: u16,
    message: &Message,
    room: &mut [u8],
) -> Result<Reply, AllocError>
    requires valid { IsValidMessage message.now }
    requires room { length room.old ≡ MAX_FRAME }
    ensures told { L.tells →
        ExchangesOf port message.now (L.transcript link.old) (L.transcript link.new) result }
    ensures valid { IfOk result IsValidReply }
    ensures room { length room.new ≡ length room.old }
    ensures cause { HasReplyCause (L.faults link.old) (L.faults link.new) result }
{
    let mut bytes = Vec::new(alloc);
    encode(alloc, message, &mut bytes)?;
    match link.exchange(port, &bytes, room) {
        Ok(Back::Got(count)) => {
            let (reply, _) = room.split_at(count);
            read_bytes(alloc, reply)
        }
        Ok(Back::TooLong) => Ok(Reply::Garbled),
        Err(Fault::Failed) => Ok(Reply::Failed),
        Err(Fault::Memory) => Err(AllocError),
    }
}
