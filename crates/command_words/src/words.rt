//! The numbers of a command line, each in its range.
ghost use Rattle.std.specs.Prelude.{◌≡◌, ◌≢◌, ℕ, List, [], ◌∷◌, ◌≤◌, ◌^◌, ◌-◌, codes, map, decimal, string_bytes, length, IfOk, IfSome, IfNone, MatchOption};
ghost use Rattle.command_words.specs.Commands.{setting_numbers, IsScheduleNumbers, IsWithin, IsPort, IsSetting, AreNodePorts};
ghost use Rattle.command_words.specs.Reading.{setting_words, values_in};
ghost use Rattle.server_host.specs.declared.serve.Setting.{Setting as SettingValue};

use crate::arguments::{client_values, port_values, schedule_values, server_values, value_of};
use clap::ArgMatches;
use io_core::read_number;
use server_host::Setting;
use std::alloc::{AllocError, Global};

// The number that the word is, from the least to the most.
fn number_within(word: &str, least: u64, most: u64) -> Option<u64>
    ensures some { IfSome result (λ n. IsWithin least most n × (word.now ≡ decimal n)) }
    ensures none { IfNone result ((n : ℕ) → IsWithin least most n → word.now ≢ decimal n) }
{
    let number = read_number(word.as_bytes())?;
    if number < least {
        return None;
    }
    if most < number {
        return None;
    }
    Some(number)
}

// The port that the word is.
fn port_in(word: &str) -> Option<u16>
    ensures some { IfSome result (λ n. IsPort n × (word.now ≡ decimal n)) }
    ensures none { IfNone result ((n : ℕ) → IsPort n → word.now ≢ decimal n) }
{
    match number_within(word, 1, 65535) {
        Some(number) => Some(number as u16),
        None => None,
    }
}

/// The port that the one word is.
pub fn only_port(alloc: Global, words: &[String]) -> Result<Option<u16>, AllocError>
    ensures port { IfOk result (λ some. MatchOption some
        ((n : ℕ) → IsPort n → map string_bytes words.now ≢ decimal n ∷ [])
        (λ n. IsPort n × (map string_bytes words.now ≡ decimal n ∷ []))) }
{
    let Some(matches) = port_values(alloc, words)? else {
        return Ok(None);
    };
    let Some(port) = port_in(value_of(&matches, "port")) else {
        return Ok(None);
    };
    Ok(Some(port))
}

/// A client's number and the port of its server.
pub fn numbered_client(alloc: Global, words: &[String]) -> Result<Option<(u64, u16)>, AllocError>
    ensures client { IfOk result (λ some. MatchOption some
        ((id port : ℕ) → IsWithin 0 (2 ^ 64 - 1) id → IsPort port →
        map string_bytes words.now ≢ decimal id ∷ decimal port ∷ [])
        (λ c. IsWithin 0 (2 ^ 64 - 1) c.0 × IsPort c.1
        × (map string_bytes words.now ≡ decimal c.0 ∷ decimal c.1 ∷ []))) }
{
    let Some(matches) = client_values(alloc, words)? else {
        return Ok(None);
    };
    let Some(id) = number_within(value_of(&matches, "number"), 0, u64::MAX) else {
        return Ok(None);
    };
    let Some(server) = port_in(value_of(&matches, "server")) else {
        return Ok(None);
    };
    Ok(Some((id, server)))
}

/// The number of a schedule, and how many events it has.
pub fn numbered_schedule(alloc: Global, words: &[String]) -> Result<Option<(u64, u32)>, AllocError>
    ensures schedule { IfOk result (λ some. MatchOption some
        ((number events : ℕ) → IsScheduleNumbers number events →
        map string_bytes words.now ≢ decimal number ∷ decimal events ∷ [])
        (λ s. IsScheduleNumbers s.0 s.1
        × (map string_bytes words.now ≡ decimal s.0 ∷ decimal s.1 ∷ []))) }
{
    let Some(matches) = schedule_values(alloc, words)? else {
        return Ok(None);
    };
    let Some(number) = number_within(value_of(&matches, "number"), 0, u64::MAX) else {
        return Ok(None);
    };
    let Some(events) = number_within(value_of(&matches, "events"), 1, 20000) else {
        return Ok(None);
    };
    Ok(Some((number, events as u32)))
}

// The ports of the nodes.
fn node_ports(alloc: Global, words: &[&str]) -> Result<Option<Vec<u16>>, AllocError>
    ensures ports { IfOk result (λ some. MatchOption some
        ((ports : List ℕ) → AreNodePorts ports → map (λ s. s.now) words.now ≢ map decimal ports)
        (λ v. AreNodePorts v.items × (map (λ s. s.now) words.now ≡ map decimal v.items))) }
{
    if words.is_empty() {
        return Ok(None);
    }
    if words.len() > 7 {
        return Ok(None);
    }
    let mut ports = Vec::new(alloc);
    for at in 0..words.len() {
        let Some(port) = port_in(words[at]) else {
            return Ok(None);
        };
        if ports.contains(&port) {
            return Ok(None);
        }
        ports.push(port)?;
    }
    Ok(Some(ports))
}

// The ports of the nodes, where there is one at least.
fn listed_nodes(alloc: Global, matches: &ArgMatches) -> Result<Option<Vec<u16>>, AllocError>
    ensures ports { IfOk result (λ some. MatchOption some
        ((ports : List ℕ) → AreNodePorts ports → values_in matches.now (codes "nodes") ≢ map decimal ports)
        (λ v. AreNodePorts v.items × (values_in matches.now (codes "nodes") ≡ map decimal v.items))) }
{
    match matches.get_strs("nodes") {
        Some(nodes) => node_ports(alloc, nodes),
        None => Ok(None),
    }
}

// The setting of these arguments.
fn setting_of(alloc: Global, matches: &ArgMatches) -> Result<Option<Setting>, AllocError>
    ensures setting { IfOk result (λ some. MatchOption some
        ((s : SettingValue) → IsSetting s → setting_words matches.now ≢ map decimal (setting_numbers s))
        (λ s. IsSetting s × (setting_words matches.now ≡ map decimal (setting_numbers s)))) }
{
    let Some(port) = port_in(value_of(matches, "port")) else {
        return Ok(None);
    };
    let Some(register) = port_in(value_of(matches, "register")) else {
        return Ok(None);
    };
    let Some(rows) = number_within(value_of(matches, "rows"), 1, 8) else {
        return Ok(None);
    };
    let Some(slots) = number_within(value_of(matches, "slots"), 1, 4096) else {
        return Ok(None);
    };
    match listed_nodes(alloc, matches)? {
        Some(nodes) => Ok(Some(Setting {
            port,
            register,
            rows: rows as u8,
            slots: slots as u32,
            nodes,
        })),
        None => Ok(None),
    }
}

/// The setting that a server is started with.
pub fn read_setting(alloc: Global, words: &[String]) -> Result<Option<Setting>, AllocError>
    ensures setting { IfOk result (λ some. MatchOption some
        ((s : SettingValue) → IsSetting s →
        map string_bytes words.now ≢ map decimal (setting_numbers s))
        (λ s. IsSetting s × (map string_bytes words.now ≡ map decimal (setting_numbers s)))) }
{
    match server_values(alloc, words)? {
        Some(matches) => setting_of(alloc, &matches),
        None => Ok(None),
    }
}
