ghost use Rattle.std.specs.Prelude.{◌≡◌, ◌≤◌, length, IfOk, IfSome, OnOk, OnErr};
ghost use Rattle.tx_model.specs.Records.{IsPlace};
ghost use Rattle.proto_model.specs.Servers.{commit_mark};
ghost use Rattle.proto_model.specs.Validity.{IsValidToServer, IsValidFromServer, IsWord};
ghost use Rattle.wire_codec.specs.Spelling.{IsValidMessage};
ghost use Rattle.wire_codec.specs.declared.message.Message.TheVariants as of;
ghost use Rattle.server_loop.specs.Failures.{HasCounted};
ghost use Rattle.server_loop.specs.Serving.{standing, all_in, IsFreshDrive, IsFreshCut, settled_answer, IsSettled, IsServed, IsUnserved, IsReplied, IsUnreplied};

use crate::driving::{Out, drive};
use crate::host::Host;
use crate::requests::{Asked, asked_of, request_number};
use io_core::Link;
use proto_model::{FromServer, ToServer};
use std::alloc::{AllocError, Global};
use wire_codec::{Control, MAX_FRAME, Message};

/// Brings the nodes forward as far as they answer, and tells which are out then.
pub fn drive_all<H: Host, L: Link>(
    alloc: Global,
    host: &mut H,
    link: &mut L,
    ports: &[u16],
    room: &mut [u8],
) -> Result<[Out; 8], AllocError>
    requires ports { length ports.now ≡ (H.config host.old).nodes }
    requires room { length room.old ≡ MAX_FRAME }
    ensures drive { IfOk result (λ out. L.tells → IsFreshDrive (H.config host.old) ports.now
        (standing (H.state host.old) (L.transcript link.old))
        (standing (H.state host.new) (L.transcript link.new)) out) }
    ensures cut { OnErr result (L.tells → IsFreshCut (H.config host.old) ports.now
        (standing (H.state host.old) (L.transcript link.old)) (L.transcript link.new)) }
    ensures config { H.config host.new ≡ H.config host.old }
    ensures room { length room.new ≡ length room.old }
    ensures counted { IfOk result (HasCounted (L.faults link.old) (L.faults link.new) all_in) }
{
    let mut outs = [Out::In; 8];
    drive(alloc, host, link, ports, &mut outs, room)?;
    Ok(outs)
}

// The answer to an append of this id, where so many records are committed.
fn settled_answer(request: u64, id: u64, mark: u64) -> FromServer
    requires request { IsWord request }
    requires id { IsPlace id }
    ensures value { result ≡ settled_answer request id mark }
    ensures valid { IsValidFromServer result }
{
    if id <= mark {
        FromServer::Committed(request, id)
    } else {
        FromServer::Pending(request, id)
    }
}

// Drives after an append was assigned the log's last id, and answers it.
fn settle<H: Host, L: Link>(
    alloc: Global,
    host: &mut H,
    link: &mut L,
    ports: &[u16],
    request: u64,
    room: &mut [u8],
) -> Result<FromServer, AllocError>
    requires request { IsWord request }
    requires assigned { IsPlace (length (H.state host.old).log) }
    requires ports { length ports.now ≡ (H.config host.old).nodes }
    requires room { length room.old ≡ MAX_FRAME }
    ensures settled { IfOk result (λ answer. L.tells → IsSettled (H.config host.old) ports.now request answer
        (standing (H.state host.old) (L.transcript link.old))
        (standing (H.state host.new) (L.transcript link.new))) }
    ensures cut { OnErr result (L.tells → IsFreshCut (H.config host.old) ports.now
        (standing (H.state host.old) (L.transcript link.old)) (L.transcript link.new)) }
    ensures valid { IfOk result IsValidFromServer }
    ensures config { H.config host.new ≡ H.config host.old }
    ensures room { length room.new ≡ length room.old }
{
    let id = host.last();
    drive_all(alloc, host, link, ports, room)?;
    let answer = settled_answer(request, id, host.committed());
    Ok(answer)
}

/// Takes a client's request, and answers it.
pub fn serve_request<H: Host, L: Link>(
    alloc: Global,
    host: &mut H,
    link: &mut L,
    ports: &[u16],
    m: ToServer,
    room: &mut [u8],
) -> Result<FromServer, AllocError>
    requires valid { IsValidToServer m }
    requires ports { length ports.now ≡ (H.config host.old).nodes }
    requires room { length room.old ≡ MAX_FRAME }
    ensures served { IfOk result (λ answer. L.tells → IsServed (H.config host.old) ports.now m answer
        (standing (H.state host.old) (L.transcript link.old))
        (standing (H.state host.new) (L.transcript link.new))) }
    ensures unserved { OnErr result (L.tells → IsUnserved (H.config host.old) ports.now m
        (standing (H.state host.old) (L.transcript link.old)) (L.transcript link.new)) }
    ensures valid { IfOk result IsValidFromServer }
    ensures config { H.config host.new ≡ H.config host.old }
    ensures room { length room.new ≡ length room.old }
{
    let request = request_number(&m);
    match host.serve(m) {
        Ok(Some(answer)) => Ok(answer),
        Ok(None) => settle(alloc, host, link, ports, request, room),
        Err(_) => Err(AllocError),
    }
}

/// The reply to what a request is read as.
pub fn reply_to<H: Host, L: Link>(
    alloc: Global,
    host: &mut H,
    link: &mut L,
    ports: &[u16],
    asked: Option<Message>,
    room: &mut [u8],
) -> Result<Message, AllocError>
    requires valid { IfSome asked IsValidMessage }
    requires ports { length ports.now ≡ (H.config host.old).nodes }
    requires room { length room.old ≡ MAX_FRAME }
    ensures replied { IfOk result (λ reply. L.tells → IsReplied (H.config host.old) ports.now asked reply
        (standing (H.state host.old) (L.transcript link.old))
        (standing (H.state host.new) (L.transcript link.new))) }
    ensures unreplied { OnErr result (L.tells → IsUnreplied (H.config host.old) ports.now asked
        (standing (H.state host.old) (L.transcript link.old)) (L.transcript link.new)) }
    ensures valid { IfOk result IsValidMessage }
    ensures config { H.config host.new ≡ H.config host.old }
    ensures room { length room.new ≡ length room.old }
{
    match asked_of(asked) {
        Asked::Server(m) => match serve_request(alloc, host, link, ports, m, room) {
            Ok(answer) => Ok(Message::FromServer(answer)),
            Err(_) => Err(AllocError),
        },
        Asked::Bye => Ok(Message::Control(Control::Done)),
        Asked::Other => Ok(Message::Control(Control::No)),
    }
}
