ghost use Rattle.std.specs.Prelude.{◌≡◌, ◌<◌, ◌⊎◌, ℕ};
ghost use Rattle.io_core.specs.Causes.{Rose};
ghost use Rattle.server_host.specs.Posts.{post_of};
ghost use Rattle.server_host.specs.declared.serve.Setting.{Setting as SettingValue};
ghost use Rattle.command_words.specs.declared.command.Command.TheVariants as commands;
ghost use Rattle.command_words.specs.Commands.{IsCommand, UsesSource, UsesDisk, UsesPort, UsesLink};
ghost use Rattle.client_loop.specs.Runs.{RunsScript, Stops, ComesExactly as ScriptComesExactly};
ghost use Rattle.serve_commands.specs.Storages.{ServesNode};
ghost use Rattle.serve_commands.specs.Registers.{ServesRegister};
ghost use Rattle.waltz_cli.specs.Partitions.{ServesPartition};
ghost use Rattle.waltz_cli.specs.Ends.{IsBroken, IsUsageStatus};
ghost use Rattle.waltz_cli.specs.Replays.{PrintsReplay, ComesExactly, PrintsUsage};
ghost use Rattle.waltz_cli.specs.Served.{IsAsking};
ghost use Rattle.waltz_cli.specs.Numbered.{PrintsNumbered, PrintsDrilled};

use crate::end::End;
use crate::output::finish;
use crate::replaying::{drill_schedule, generate_schedule, replay_schedule};
use client_loop::{run_client, stop};
use command_words::Command;
use disk_model::Disk;
use io_core::{Link, Port, Sink, Source};
use serve_commands::{register, storage};
use server_host::serve_server;
use std::alloc::Global;

/// Prints that the words are in no form, and gives the status.
pub fn usage<W: Sink>(alloc: Global, sink: &mut W) -> u8
    ensures prints { PrintsUsage (Rose (W.wants sink.old) (W.wants sink.new))
        (W.contents sink.old) (W.contents sink.new) result }
    ensures write { result ≡ 11 → Rose (W.faults sink.old) (W.faults sink.new) }
    ensures told { W.faults sink.old < W.faults sink.new → result ≡ 11 }
    ensures few { IsUsageStatus result }
{
    finish(alloc, sink, End::Usage)
}

/// Does what a command says, and gives the status.
pub fn serve<S: Source, W: Sink, D: Disk, P: Port, L: Link>(
    alloc: Global,
    command: &Command,
    source: &mut S,
    sink: &mut W,
    disk: &mut D,
    port: &mut P,
    link: &mut L,
) -> u8
    requires range { IsCommand command.now }
    ensures replay { command.now ≡ commands.Replay
        → PrintsReplay (S.left source.old) (S.before source.new) (S.left source.new) (W.contents sink.old) (W.contents sink.new)
        (Rose (W.wants sink.old) (W.wants sink.new)) result }
    ensures exactly { command.now ≡ commands.Replay → ComesExactly (S.left source.old) result }
    ensures generate { (number events : ℕ) → command.now ≡ commands.Generate number events →
        PrintsNumbered number events (W.contents sink.old) (W.contents sink.new) result }
    ensures drill { (number events : ℕ) → command.now ≡ commands.Drill number events →
        PrintsDrilled number events (W.contents sink.old) (W.contents sink.new)
        (Rose (W.wants sink.old) (W.wants sink.new)) result }
    ensures storage { (number : ℕ) → command.now ≡ commands.Storage number →
        ServesNode D.tells D.plain P.tells number (D.history disk.old) (D.history disk.new)
        (P.coming port.old) (P.coming port.new) (P.answers port.old) (P.answers port.new)
        (W.contents sink.old) (W.contents sink.new) result }
    ensures register { (number : ℕ) → command.now ≡ commands.Register number →
        ServesRegister D.tells D.plain P.tells number (D.history disk.old) (D.history disk.new)
        (P.coming port.old) (P.coming port.new) (P.answers port.old) (P.answers port.new)
        (W.contents sink.old) (W.contents sink.new) result }
    ensures server { (s : SettingValue) → command.now ≡ commands.Server s →
        ServesPartition L.tells P.tells (post_of s) (L.transcript link.old) (L.transcript link.new)
        (L.faults link.old) (L.faults link.new)
        (P.coming port.old) (P.coming port.new) (P.answers port.old) (P.answers port.new)
        (W.contents sink.old) (W.contents sink.new) result }
    ensures client { (id server : ℕ) → command.now ≡ commands.Client id server →
        RunsScript L.tells id server (L.transcript link.old) (L.transcript link.new)
        (S.left source.old) (S.before source.new) (S.left source.new)
        (W.contents sink.old) (W.contents sink.new) (Rose (W.wants sink.old) (W.wants sink.new))
        result }
    ensures client_exactly { (id server : ℕ) → command.now ≡ commands.Client id server →
        ScriptComesExactly (S.left source.old) result }
    ensures stop { (number : ℕ) → command.now ≡ commands.Stop number →
        Stops L.tells number (L.transcript link.old) (L.transcript link.new)
        (W.contents sink.old) (W.contents sink.new) (Rose (W.wants sink.old) (W.wants sink.new))
        result }
    ensures usage_alone { result ≡ 2 → ⊥ }
    ensures no_source { (UsesSource command.now → ⊥) → source.new ≡ source.old }
    ensures no_disk { (UsesDisk command.now → ⊥) → disk.new ≡ disk.old }
    ensures no_port { (UsesPort command.now → ⊥) → port.new ≡ port.old }
    ensures no_link { (UsesLink command.now → ⊥) → link.new ≡ link.old }
    ensures read { result ≡ 10 → Rose (S.faults source.old) (S.faults source.new) }
    ensures read_told { S.faults source.old < S.faults source.new → (result ≡ 10) ⊎ IsBroken result }
    ensures write { result ≡ 11 → Rose (W.faults sink.old) (W.faults sink.new) }
    ensures told { W.faults sink.old < W.faults sink.new → result ≡ 11 }
    ensures broken { result ≡ 12 → Rose (D.faults disk.old) (D.faults disk.new) }
    ensures peer { (IsAsking command.now → ⊥) →
        result ≡ 13 → Rose (P.faults port.old) (P.faults port.new) }
    ensures asked { (UsesPort command.now → ⊥) →
        result ≡ 13 → Rose (L.faults link.old) (L.faults link.new) }
    ensures no_register { result ≡ 14 → Rose (L.faults link.old) (L.faults link.new) }
    ensures broken_told { D.faults disk.old < D.faults disk.new → (result ≡ 12) ⊎ IsBroken result }
    ensures peer_told { P.faults port.old < P.faults port.new → (result ≡ 13) ⊎ IsBroken result }
    ensures asked_told { (UsesPort command.now → ⊥) →
        L.faults link.old < L.faults link.new → (result ≡ 13) ⊎ IsBroken result }
{
    match command {
        Command::Replay => replay_schedule(alloc, source, sink),
        Command::Generate(number, events) => generate_schedule(alloc, *number, *events, sink),
        Command::Drill(number, events) => drill_schedule(alloc, *number, *events, sink),
        Command::Storage(number) => storage(alloc, disk, port, *number, sink),
        Command::Register(number) => register(alloc, disk, port, *number, sink),
        Command::Server(setting) => serve_server(alloc, link, port, setting, sink),
        Command::Client(id, server) => run_client(alloc, source, link, *id, *server, sink),
        Command::Stop(number) => stop(alloc, link, *number, sink),
    }
}
