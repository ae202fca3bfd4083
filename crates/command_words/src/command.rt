ghost use Rattle.std.specs.Prelude.{◌≡◌, ◌≢◌, [], ◌∷◌, IfOk, OnErr, MatchOption, map, codes, string_bytes};
ghost use Rattle.command_words.specs.Commands.{AreWordsOf, AreNoWords};

use crate::words::{numbered_client, numbered_schedule, only_port, read_setting};
use server_host::Setting;
use std::alloc::{AllocError, Global};

/// What the program is told to do.
#[derive(Drop)]
pub enum Command {
    /// Replay the schedule that is read.
    Replay,
    /// Write the schedule of this number, of so many events.
    Generate(u64, u32),
    /// Replay the schedule of this number, of so many events, and print what it came to.
    Drill(u64, u32),
    /// Serve a storage node at this port.
    Storage(u16),
    /// Serve the register at this port.
    Register(u16),
    /// Draw a session, recover the log and serve it.
    Server(Setting),
    /// Run the script that is read, as the client of this number, against the server at this port.
    Client(u64, u16),
    /// End what serves at this port.
    Stop(u16),
}

// The command of this name with these numbers.
fn command_named(
    alloc: Global,
    name: &str,
    numbers: &[String],
) -> Result<Option<Command>, AllocError>
    ensures read { IfOk result (λ command. MatchOption command
        (AreNoWords (name.now ∷ map string_bytes numbers.now))
        (λ c. AreWordsOf (name.now ∷ map string_bytes numbers.now) c)) }
    ensures memory { OnErr result (name.now ≢ codes "replay") }
{
    match name {
        "replay" => Ok(replay(numbers)),
        "generate" => match numbered_schedule(alloc, numbers)? {
            Some((number, events)) => Ok(Some(Command::Generate(number, events))),
            None => Ok(None),
        },
        "drill" => match numbered_schedule(alloc, numbers)? {
            Some((number, events)) => Ok(Some(Command::Drill(number, events))),
            None => Ok(None),
        },
        "storage" => match only_port(alloc, numbers)? {
            Some(port) => Ok(Some(Command::Storage(port))),
            None => Ok(None),
        },
        "register" => match only_port(alloc, numbers)? {
            Some(port) => Ok(Some(Command::Register(port))),
            None => Ok(None),
        },
        "server" => match read_setting(alloc, numbers)? {
            Some(setting) => Ok(Some(Command::Server(setting))),
            None => Ok(None),
        },
        "client" => match numbered_client(alloc, numbers)? {
            Some((id, server)) => Ok(Some(Command::Client(id, server))),
            None => Ok(None),
        },
        "stop" => match only_port(alloc, numbers)? {
            Some(port) => Ok(Some(Command::Stop(port))),
            None => Ok(None),
        },
        _ => Ok(None),
    }
}

// The command without numbers.
fn replay(numbers: &[String]) -> Option<Command>
    ensures { MatchOption result (map string_bytes numbers.now ≢ [])
        (λ c. (c ≡ Command.Replay) × (map string_bytes numbers.now ≡ [])) }
{
    if numbers.is_empty() {
        return Some(Command::Replay);
    }
    None
}

/// The command that the words are. There is none where they are in no form. The one word `replay` needs no memory.
pub fn read_command(alloc: Global, words: &[String]) -> Result<Option<Command>, AllocError>
    ensures read { IfOk result (λ command. MatchOption command
        (AreNoWords (map string_bytes words.now))
        (λ c. AreWordsOf (map string_bytes words.now) c)) }
    ensures memory { OnErr result (map string_bytes words.now ≢ codes "replay" ∷ []) }
{
    let Some((name, numbers)) = words.split_first() else {
        return Ok(None);
    };
    command_named(alloc, name.as_str(), numbers)
}
