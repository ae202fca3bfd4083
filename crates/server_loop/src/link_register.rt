ghost use Rattle.std.specs.Prelude.{◌≡◌, ◌≢◌, ℕ, None, Ok, Err, IfOk, length};
ghost use Rattle.tx_model.specs.Spelling.{IsCount};
ghost use Rattle.wire_codec.specs.Spelling.{IsValidFromRegister, IsValidToRegister};
ghost use Rattle.wire_codec.specs.declared.message.FromRegister.{FromRegister as FromRegisterValue};
ghost use Rattle.session_register.specs.Registers.{IsCas};
ghost use Rattle.session_register.specs.Telling.{HasRegisterCause, TellsCas, TellsRead};
ghost use Rattle.server_loop.specs.Exchanges.{IsRoom, IsValidReply};
ghost use Rattle.server_loop.specs.Registers.{number_in, outcome_in, message_of, Asks, IsReadAt, IsCasAt, IsDraw};

use crate::exchanges::{Reply, exchange};
use io_core::Link;
use session_register::{Cas, Register, RegisterFault};
use std::alloc::Global;
use tx_model::MAX_PLACE;
use wire_codec::{FromRegister, MAX_FRAME, Message, ToRegister};

// The number in a reply to `Read`.
fn number_in(m: FromRegister) -> Result<u64, RegisterFault>
    requires { IsValidFromRegister m }
    ensures value { result ≡ number_in m }
    ensures valid { IfOk result IsCount }
    ensures answered { result ≢ Err RegisterFault.Failed }
{
    match m {
        FromRegister::Value(number) => Ok(number),
        FromRegister::Won(_) => Err(RegisterFault::Garbled),
        FromRegister::Lost(_) => Err(RegisterFault::Garbled),
        FromRegister::Exhausted => Err(RegisterFault::Garbled),
    }
}

// What a reply to `Cas` from a number says.
fn outcome_in(number: u64, m: FromRegister) -> Result<Cas, RegisterFault>
    requires valid { IsValidFromRegister m }
    requires number { IsCount number }
    ensures value { result ≡ outcome_in number m }
    ensures valid { IfOk result IsCas }
    ensures answered { result ≢ Err RegisterFault.Failed }
{
    match m {
        FromRegister::Value(_) => Err(RegisterFault::Garbled),
        FromRegister::Won(session) => {
            if session == number + 1 {
                Ok(Cas::Won(session))
            } else {
                Err(RegisterFault::Garbled)
            }
        }
        FromRegister::Lost(other) => {
            if other == number {
                Err(RegisterFault::Garbled)
            } else {
                Ok(Cas::Lost(other))
            }
        }
        FromRegister::Exhausted => {
            if number == MAX_PLACE {
                Ok(Cas::Exhausted)
            } else {
                Err(RegisterFault::Garbled)
            }
        }
    }
}

// The message of the register that a reply is.
fn message_of(reply: &Reply) -> Result<FromRegister, RegisterFault>
    requires { IsValidReply reply.now }
    ensures value { result ≡ message_of reply.now }
    ensures valid { IfOk result IsValidFromRegister }
{
    match reply {
        Reply::Message(Message::FromRegister(m)) => Ok(*m),
        Reply::Message(Message::ToNode(_)) => Err(RegisterFault::Garbled),
        Reply::Message(Message::FromNode(_)) => Err(RegisterFault::Garbled),
        Reply::Message(Message::ToServer(_)) => Err(RegisterFault::Garbled),
        Reply::Message(Message::FromServer(_)) => Err(RegisterFault::Garbled),
        Reply::Message(Message::ToRegister(_)) => Err(RegisterFault::Garbled),
        Reply::Message(Message::Control(_)) => Err(RegisterFault::Garbled),
        Reply::Garbled => Err(RegisterFault::Garbled),
        Reply::Failed => Err(RegisterFault::Failed),
    }
}

// Asks the register.
#[tactic(auto, using(crate::proofs::Causes::asked_cause, crate::proofs::Causes::no_memory_cause))]
fn ask<L: Link>(
    alloc: Global,
    link: &mut L,
    port: u16,
    message: ToRegister,
    room: &mut [u8],
) -> Result<FromRegister, RegisterFault>
    requires valid { IsValidToRegister message }
    requires room { length room.old ≡ MAX_FRAME }
    ensures told { L.tells →
        Asks FromRegisterValue port message Ok (L.transcript link.old) (L.transcript link.new) result }
    ensures valid { IfOk result IsValidFromRegister }
    ensures room { length room.new ≡ length room.old }
    ensures cause { HasRegisterCause (L.faults link.old) (L.faults link.new) result }
{
    match exchange(alloc, link, port, &Message::ToRegister(message), room) {
        Ok(reply) => message_of(&reply),
        Err(_) => Err(RegisterFault::Memory),
    }
}

// Asks for the register's number.
#[tactic(auto, using(crate::proofs::Causes::answered_cause, crate::proofs::Causes::fault_cause))]
fn read_number<L: Link>(
    alloc: Global,
    link: &mut L,
    port: u16,
    room: &mut [u8],
) -> Result<u64, RegisterFault>
    requires room { length room.old ≡ MAX_FRAME }
    ensures told { L.tells →
        IsReadAt port (L.transcript link.old) (L.transcript link.new) result }
    ensures valid { IfOk result IsCount }
    ensures room { length room.new ≡ length room.old }
    ensures cause { HasRegisterCause (L.faults link.old) (L.faults link.new) result }
{
    match ask(alloc, link, port, ToRegister::Read, room) {
        Ok(m) => number_in(m),
        Err(fault) => Err(fault),
    }
}

// Asks to make the register's number one more, where it is this one.
#[tactic(auto, using(crate::proofs::Causes::answered_cause, crate::proofs::Causes::fault_cause))]
fn try_cas<L: Link>(
    alloc: Global,
    link: &mut L,
    port: u16,
    number: u64,
    room: &mut [u8],
) -> Result<Cas, RegisterFault>
    requires number { IsCount number }
    requires room { length room.old ≡ MAX_FRAME }
    ensures told { L.tells →
        IsCasAt port number (L.transcript link.old) (L.transcript link.new) result }
    ensures valid { IfOk result IsCas }
    ensures room { length room.new ≡ length room.old }
    ensures cause { HasRegisterCause (L.faults link.old) (L.faults link.new) result }
{
    match ask(alloc, link, port, ToRegister::Cas(number), room) {
        Ok(m) => outcome_in(number, m),
        Err(fault) => Err(fault),
    }
}

/// Reads the register's number, and tries to make it one more.
pub fn draw<L: Link>(
    alloc: Global,
    link: &mut L,
    port: u16,
    room: &mut [u8],
) -> Result<Cas, RegisterFault>
    requires room { length room.old ≡ MAX_FRAME }
    ensures told { L.tells → IsDraw port (L.transcript link.old) (L.transcript link.new) result }
    ensures valid { IfOk result IsCas }
    ensures room { length room.new ≡ length room.old }
    ensures cause { HasRegisterCause (L.faults link.old) (L.faults link.new) result }
{
    match read_number(alloc, link, port, room) {
        Ok(number) => try_cas(alloc, link, port, number, room),
        Err(fault) => Err(fault),
    }
}

/// The register that serves at a port of a link. Each call is one exchange; at want of memory it may be none.
#[derive(Drop)]
pub struct LinkRegister<'a, L: Link> {
    alloc: Global,
    link: &'a mut L,
    port: u16,
    room: &'a mut [u8],
    ghost fits: { IsRoom room.now },
}

impl<'a, L: Link> LinkRegister<'a, L> {
    /// The register at this port. The room has as many bytes as the longest frame.
    pub fn new(alloc: Global, link: &'a mut L, port: u16, room: &'a mut [u8]) -> LinkRegister<'a, L>
        requires { length room.old ≡ MAX_FRAME }
        ensures link { result.link.ghost_name ≡ link.entry.ghost_name }
        ensures port { result.port ≡ port }
    {
        LinkRegister {
            alloc,
            link,
            port,
            room,
        }
    }
}

impl<L: Link> Register for LinkRegister<'_, L> {
    ghost told = { λ _. None };

    ghost faults = { λ r. L.faults r.link.now };

    fn read(&mut self) -> Result<u64, RegisterFault>
        ensures tells { TellsRead None None result }
        ensures range { IfOk result IsCount }
        ensures cause { HasRegisterCause (L.faults self.old.link.now) (L.faults self.new.link.now) result }

        // One exchange, and what is awaited of it; at want of memory one at most.
        ensures asked { L.tells → IsReadAt self.old.port
            (L.transcript self.old.link.now) (L.transcript self.new.link.now) result }
        ensures link { self.new.link.ghost_name ≡ self.old.link.ghost_name }
        ensures port { self.new.port ≡ self.old.port }
    {
        read_number(self.alloc, self.link, self.port, self.room)
    }

    fn cas(&mut self, from: u64) -> Result<Cas, RegisterFault>
        requires { IsCount from }
        ensures tells { TellsCas from None None result }
        ensures range { IfOk result IsCas }
        ensures cause { HasRegisterCause (L.faults self.old.link.now) (L.faults self.new.link.now) result }

        // One exchange, and what is awaited of it; at want of memory one at most.
        ensures asked { L.tells → IsCasAt self.old.port from
            (L.transcript self.old.link.now) (L.transcript self.new.link.now) result }
        ensures link { self.new.link.ghost_name ≡ self.old.link.ghost_name }
        ensures port { self.new.port ≡ self.old.port }
    {
        try_cas(self.alloc, self.link, self.port, from, self.room)
    }
}
