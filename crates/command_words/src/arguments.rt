//! The values of a command's arguments, as `clap` reads them.
ghost use Rattle.std.specs.Prelude.{◌≡◌, ◌≢◌, ◌∷◌, [], ◌<◌, ◌^◌, ◌-◌, ℕ, IfOk, MatchOption, codes, decimal, false, map, string_bytes, true};
ghost use Rattle.std.specs.Bool.{OnTrue, OnFalse};
ghost use Rattle.clap.specs.Words.{Text, app_of, found_of, is_simple_and_free, matches_of, rows_of, rule_of};
ghost use Rattle.command_words.specs.Commands.{IsPort, IsScheduleNumbers, IsSetting, IsWithin, setting_numbers};
ghost use Rattle.server_host.specs.declared.serve.Setting.{Setting as SettingValue};
ghost use Rattle.command_words.specs.Reading.{ArePlain, AreTaken, IsPlain, Reads, no_arguments, one_argument, one_value, server_arguments, setting_words, two_arguments, up_to_seven, value_in};

use clap::error::ErrorKind;
use clap::{Arg, ArgAction, ArgMatches, Command};
use std::alloc::{AllocError, Global};

// Whether the word is not empty and begins with no `-`.
fn is_plain(word: &str) -> bool
    ensures yes { OnTrue result (IsPlain word.now) }
    ensures no { OnFalse result (¬ IsPlain word.now) }
{
    match word.as_bytes() {
        [] => false,
        [b'-', ..] => false,
        _ => true,
    }
}

// Whether all the words are plain.
fn are_plain(words: &[String]) -> bool
    ensures yes { OnTrue result (ArePlain (map string_bytes words.now)) }
    ensures no { OnFalse result (¬ ArePlain (map string_bytes words.now)) }
{
    for at in 0..words.len() {
        if !is_plain(words[at].as_str()) {
            return false;
        }
    }
    true
}

// What the command takes of the words, or none where it refuses them.
//
// Only plain words are shown to `clap`, which would pass over a `--` and answer to a `--help`.
fn taken<'a>(
    command: Command<'a>,
    words: &'a [String],
) -> Result<Option<ArgMatches<'a>>, AllocError>
    ensures { is_simple_and_free (app_of command.entry) ≡ true
        → Reads (app_of command.entry) (map string_bytes words.now) result }
{
    if !are_plain(words) {
        return Ok(None);
    }
    match command.try_get_matches_from(words) {
        Ok(matches) => Ok(Some(matches)),
        Err(error) => {
            if error.kind() == ErrorKind::OutOfMemory {
                return Err(AllocError);
            }
            Ok(None)
        }
    }
}

// No argument, and no word that is a name.
fn no_arguments<'a>(alloc: Global) -> Command<'a>
    ensures { app_of result ≡ no_arguments }
{
    Command::new(alloc, "waltz").no_binary_name(true)
}

// An argument of one value.
fn one_value<'a>(alloc: Global, name: &'a str) -> Arg<'a>
    ensures rule { rule_of result ≡ one_value name.entry.now }
    ensures local { result.global ≡ false }
{
    Arg::new(alloc, name).required(true).action(ArgAction::Set)
}

// An argument of one to seven values, which are the words from its place on.
fn up_to_seven<'a>(alloc: Global, name: &'a str) -> Arg<'a>
    ensures rule { rule_of result ≡ up_to_seven name.entry.now }
    ensures local { result.global ≡ false }
{
    Arg::new(alloc, name)
        .required(true)
        .action(ArgAction::Append)
        .num_args(1..=7)
}

// One argument.
fn one_argument<'a>(alloc: Global, name: &'a str) -> Result<Command<'a>, AllocError>
    ensures { IfOk result (λ c. app_of c ≡ one_argument name.entry.now) }
{
    no_arguments(alloc).arg(one_value(alloc, name))
}

// Two arguments, in their order.
fn two_arguments<'a>(
    alloc: Global,
    first: &'a str,
    second: &'a str,
) -> Result<Command<'a>, AllocError>
    ensures { IfOk result (λ c. app_of c ≡ two_arguments first.entry.now second.entry.now) }
{
    one_argument(alloc, first)?.arg(one_value(alloc, second))
}

// The arguments of a server.
fn server_arguments<'a>(alloc: Global) -> Result<Command<'a>, AllocError>
    ensures { IfOk result (λ c. app_of c ≡ server_arguments) }
{
    two_arguments(alloc, "port", "register")?
        .arg(one_value(alloc, "rows"))?
        .arg(one_value(alloc, "slots"))?
        .arg(up_to_seven(alloc, "nodes"))
}

/// The value of the argument, and the empty text where it has none.
pub fn value_of<'a>(matches: &ArgMatches<'a>, name: &str) -> &'a str
    ensures { result.now ≡ value_in matches.now name.now }
{
    match matches.get_str(name) {
        Some(value) => value,
        None => "",
    }
}

/// The matches of a port.
pub fn port_values<'a>(
    alloc: Global,
    words: &'a [String],
) -> Result<Option<ArgMatches<'a>>, AllocError>
    ensures { IfOk result (λ some. MatchOption some
        ((n : ℕ) → IsPort n → map string_bytes words.now ≢ decimal n ∷ [])
        (λ m. map string_bytes words.now ≡ value_in m (codes "port") ∷ [])) }
{
    taken(one_argument(alloc, "port")?, words)
}

/// The matches of a schedule's number and its events.
pub fn schedule_values<'a>(
    alloc: Global,
    words: &'a [String],
) -> Result<Option<ArgMatches<'a>>, AllocError>
    ensures { IfOk result (λ some. MatchOption some
        ((number events : ℕ) → IsScheduleNumbers number events
        → map string_bytes words.now ≢ decimal number ∷ decimal events ∷ [])
        (λ m. map string_bytes words.now ≡ value_in m (codes "number") ∷ value_in m (codes "events") ∷ [])) }
{
    taken(two_arguments(alloc, "number", "events")?, words)
}

/// The matches of a client's number and its server.
pub fn client_values<'a>(
    alloc: Global,
    words: &'a [String],
) -> Result<Option<ArgMatches<'a>>, AllocError>
    ensures { IfOk result (λ some. MatchOption some
        ((id server : ℕ) → IsWithin 0 (2 ^ 64 - 1) id → IsPort server
        → map string_bytes words.now ≢ decimal id ∷ decimal server ∷ [])
        (λ m. map string_bytes words.now ≡ value_in m (codes "number") ∷ value_in m (codes "server") ∷ [])) }
{
    taken(two_arguments(alloc, "number", "server")?, words)
}

/// The matches of a server's setting.
pub fn server_values<'a>(
    alloc: Global,
    words: &'a [String],
) -> Result<Option<ArgMatches<'a>>, AllocError>
    ensures { IfOk result (λ some. MatchOption some
        ((s : SettingValue) → IsSetting s → map string_bytes words.now ≢ map decimal (setting_numbers s))
        (λ m. map string_bytes words.now ≡ setting_words m)) }
{
    taken(server_arguments(alloc)?, words)
}
