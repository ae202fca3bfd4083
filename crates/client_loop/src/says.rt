//! The lines that a client prints, each with its line feed.
ghost use Rattle.std.specs.Prelude.{◌≡◌, ◌++◌, ◌+◌, ◌==◌, ◌&&◌, decimal, IfOk, OnOk};
ghost use Rattle.client_core.specs.Clients.{is_none};
ghost use Rattle.client_core.specs.States.{client_state};
ghost use Rattle.schedule_text.specs.Outcomes.{refusal_text, read_refusal_text, build_fault_text};
ghost use Rattle.client_loop.specs.Texts.{number_line, refused_line, more_line, app_line, append_line, flush_line, sync_line, Says};

use client_core::Client;
use itoa::Buffer;
use kv_app::{App, KvApp};
use proto_model::{BuildFault, FromServer, ReadRefusal, Refusal, ToServer};
use schedule_text::{print_build_fault, print_read_refusal, print_refusal};
use std::alloc::{AllocError, Global};
use tx_model::Head;

// Adds a name and a number.
fn add_number(name: &[u8], number: u64, text: &mut Vec<u8>) -> Result<(), AllocError>
    ensures { OnOk result (text.new.items ≡ text.old.items ++ (name.now ++ decimal number)) }
{
    let mut digits = Buffer::new();
    text.extend_from_slice(name)?;
    text.extend_from_slice(digits.format(number).as_bytes())
}

// Adds the line of a name and a number.
fn say_number(name: &[u8], number: u64, text: &mut Vec<u8>) -> Result<(), AllocError>
    ensures { OnOk result (text.new.items ≡ text.old.items ++ number_line name.now number) }
{
    add_number(name, number, text)?;
    text.push(b'\n')?;
    Ok(())
}

fn say_refused(alloc: Global, reason: &Refusal, text: &mut Vec<u8>) -> Result<(), AllocError>
    ensures { OnOk result (text.new.items ≡ text.old.items ++ refused_line (refusal_text reason.now)) }
{
    text.extend_from_slice(b"refused ")?;
    print_refusal(alloc, reason, text)?;
    text.push(b'\n')?;
    Ok(())
}

fn say_unserved(alloc: Global, reason: &ReadRefusal, text: &mut Vec<u8>) -> Result<(), AllocError>
    ensures { OnOk result (text.new.items ≡ text.old.items ++ refused_line (read_refusal_text reason.now)) }
{
    text.extend_from_slice(b"refused ")?;
    print_read_refusal(alloc, reason, text)?;
    text.push(b'\n')?;
    Ok(())
}

/// Adds why no transaction is built.
pub fn say_unbuilt(alloc: Global, fault: &BuildFault, text: &mut Vec<u8>) -> Result<(), AllocError>
    ensures { OnOk result (text.new.items ≡ text.old.items ++ refused_line (build_fault_text fault.now)) }
{
    text.extend_from_slice(b"refused ")?;
    print_build_fault(alloc, fault, text)?;
    text.push(b'\n')?;
    Ok(())
}

/// Adds the client's mark and application.
pub fn say_app(client: &Client<KvApp>, id: u64, text: &mut Vec<u8>) -> Result<(), AllocError>
    ensures { OnOk result (text.new.items ≡ text.old.items ++ app_line id (client_state client.now)) }
{
    let shown = client.app().text()?;
    add_number(b"app ", id, text)?;
    add_number(b" mark=", client.mark(), text)?;
    text.extend_from_slice(&shown)?;
    text.push(b'\n')?;
    Ok(())
}

/// Adds up to where a client got that stops asking for more.
pub fn say_more(mark: u64, text: &mut Vec<u8>) -> Result<(), AllocError>
    ensures { OnOk result (text.new.items ≡ text.old.items ++ more_line mark) }
{
    add_number(b"mark ", mark, text)?;
    text.extend_from_slice(b" more\n")
}

/// Adds what the answer to an append says, and tells whether it is an awaited one.
pub fn say_append(
    alloc: Global,
    request: u64,
    answer: &FromServer,
    text: &mut Vec<u8>,
) -> Result<bool, AllocError>
    ensures { IfOk result (λ awaited.
        Says awaited (append_line request answer.now) text.old.items text.new.items) }
{
    match answer {
        FromServer::Committed(other, id) => {
            if *other != request {
                return Ok(false);
            }
            say_number(b"committed ", *id, text)?;
            Ok(true)
        }
        FromServer::Pending(other, id) => {
            if *other != request {
                return Ok(false);
            }
            say_number(b"pending ", *id, text)?;
            Ok(true)
        }
        FromServer::Refused(other, reason) => {
            if *other != request {
                return Ok(false);
            }
            say_refused(alloc, reason, text)?;
            Ok(true)
        }
        FromServer::Heads(_, _, _) => Ok(false),
        FromServer::Entry(_) => Ok(false),
        FromServer::Flushed(_) => Ok(false),
        FromServer::Unserved(_) => Ok(false),
    }
}

/// Adds what the answer to a flush says, and tells whether it is an awaited one.
pub fn say_flush(alloc: Global, answer: &FromServer, text: &mut Vec<u8>) -> Result<bool, AllocError>
    ensures { IfOk result (λ awaited.
        Says awaited (flush_line answer.now) text.old.items text.new.items) }
{
    match answer {
        FromServer::Flushed(committed) => {
            say_number(b"flushed ", *committed, text)?;
            Ok(true)
        }
        FromServer::Unserved(reason) => {
            say_unserved(alloc, reason, text)?;
            Ok(true)
        }
        FromServer::Committed(_, _) => Ok(false),
        FromServer::Pending(_, _) => Ok(false),
        FromServer::Refused(_, _) => Ok(false),
        FromServer::Heads(_, _, _) => Ok(false),
        FromServer::Entry(_) => Ok(false),
    }
}

// Whether no heads are kept, so that heads are asked for.
fn asks_heads(client: &Client<KvApp>) -> bool
    ensures { result ≡ is_none (client_state client.now).heads }
{
    match client.next_ask() {
        ToServer::Feed(_, _) => true,
        ToServer::Get(_) => false,
        ToServer::Append(_) => false,
        ToServer::Flush => false,
    }
}

// Whether heads that came from this id on end the asks: none is kept, none came, and they were to follow the mark.
fn ends_asks(client: &Client<KvApp>, from: u64, heads: &[Head]) -> bool
    ensures { result ≡ (is_none client.now.heads && (is_none heads.now && from == client.now.mark + 1)) }
{
    if !asks_heads(client) {
        return false;
    }
    if !heads.is_empty() {
        return false;
    }
    from == client.mark() + 1
}

/// Adds what the answer to an ask says where it ends the asks, and tells whether it does.
pub fn say_sync(
    alloc: Global,
    client: &Client<KvApp>,
    answer: &FromServer,
    text: &mut Vec<u8>,
) -> Result<bool, AllocError>
    ensures { IfOk result (λ ends.
        Says ends (sync_line (client_state client.now) answer.now) text.old.items text.new.items) }
{
    match answer {
        FromServer::Heads(from, _, heads) => {
            if !ends_asks(client, *from, heads.items()) {
                return Ok(false);
            }
            say_number(b"mark ", client.mark(), text)?;
            Ok(true)
        }
        FromServer::Unserved(reason) => {
            say_unserved(alloc, reason, text)?;
            Ok(true)
        }
        FromServer::Committed(_, _) => Ok(false),
        FromServer::Pending(_, _) => Ok(false),
        FromServer::Refused(_, _) => Ok(false),
        FromServer::Entry(_) => Ok(false),
        FromServer::Flushed(_) => Ok(false),
    }
}
