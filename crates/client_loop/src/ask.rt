ghost use Rattle.std.specs.Prelude.{◌≡◌, Err, IfOk, IfErr};
ghost use Rattle.proto_model.specs.Validity.{IsValidToServer, IsValidFromServer};
ghost use Rattle.client_loop.specs.Asks.{IsAsk, IsAskEnd};
ghost use Rattle.client_loop.specs.Ends.{Counts};

use crate::end::End;
use crate::exchange::{Desk, Reply};
use io_core::Link;
use proto_model::{FromServer, ToServer};
use std::alloc::Global;
use wire_codec::Message;

/// Asks the server at a port.
pub fn ask<L: Link>(
    alloc: Global,
    link: &mut L,
    desk: &mut Desk,
    port: u16,
    question: ToServer,
) -> Result<FromServer, End>
    requires { IsValidToServer question }
    ensures told { L.tells →
        IsAsk port question (L.transcript link.old) (L.transcript link.new) result }
    ensures valid { IfOk result IsValidFromServer }
    ensures ends { IfErr result IsAskEnd }
    ensures faults { Counts (L.faults link.old) (L.faults link.new) (result ≡ Err End.Peer) }
{
    match desk.exchange(alloc, link, port, &Message::ToServer(question)) {
        Ok(Reply::Message(Message::FromServer(answer))) => Ok(answer),
        Ok(Reply::Message(Message::ToNode(_))) => Err(End::Garbled),
        Ok(Reply::Message(Message::FromNode(_))) => Err(End::Garbled),
        Ok(Reply::Message(Message::ToServer(_))) => Err(End::Garbled),
        Ok(Reply::Message(Message::ToRegister(_))) => Err(End::Garbled),
        Ok(Reply::Message(Message::FromRegister(_))) => Err(End::Garbled),
        Ok(Reply::Message(Message::Control(_))) => Err(End::Garbled),
        Ok(Reply::Garbled) => Err(End::Garbled),
        Ok(Reply::Failed) => Err(End::Peer),
        Err(_) => Err(End::Memory),
    }
}
