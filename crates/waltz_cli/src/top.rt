ghost use Rattle.std.specs.Prelude.{◌≡◌, ◌⊎◌, ◌<◌, ℕ, [], ◌∷◌, map, codes, string_bytes};
ghost use Rattle.io_core.specs.Causes.{Rose};
ghost use Rattle.server_host.specs.Posts.{post_of};
ghost use Rattle.server_host.specs.declared.serve.Setting.{Setting as SettingValue};
ghost use Rattle.command_words.specs.declared.command.Command.TheVariants as commands;
ghost use Rattle.command_words.specs.Commands.{AreWordsOf, AreNoWords, HaveNo, UsesSource, UsesDisk, UsesPort, UsesLink};
ghost use Rattle.client_loop.specs.Runs.{RunsScript, Stops, ComesExactly as ScriptComesExactly};
ghost use Rattle.serve_commands.specs.Storages.{ServesNode};
ghost use Rattle.serve_commands.specs.Registers.{ServesRegister};
ghost use Rattle.waltz_cli.specs.Partitions.{ServesPartition};
ghost use Rattle.waltz_cli.specs.Ends.{IsBroken};
ghost use Rattle.world_law.specs.Laws.{EveryRunIsSound};
ghost use Rattle.waltz_cli.specs.Replays.{PrintsReplay, ComesExactly, PrintsUsage};
ghost use Rattle.waltz_cli.specs.Served.{IsAsking};
ghost use Rattle.waltz_cli.specs.Numbered.{PrintsNumbered, PrintsDrilled};

use crate::commands::{serve, usage};
use command_words::read_command;
use disk_model::Disk;
use io_core::{Link, Port, Sink, Source};
use std::alloc::Global;

/// The status where there is no memory for the words.
const NO_MEMORY: u8 = 20;

/// The program: it takes the words of its command line without its own name, does what they say, and gives its status.
///
/// `replay` reads a schedule from the source, a line for the cluster and then at most 20,000 events, and prints the line of
/// each event's outcome. Output is written before the program waits for more input. `generate` writes the schedule of a
/// number, and `drill` replays it and writes what it came to. `storage` and `register` serve over the disk at a port, `server`
/// draws a session over the link, recovers the log and serves it, `client` reads a script from the source and does it
/// against a server, and `stop` ends whoever serves at a port. The words are read before any device is used, and a command
/// uses no device that is not its own.
pub fn run<S: Source, W: Sink, D: Disk, P: Port, L: Link>(
    alloc: Global,
    words: &[String],
    source: &mut S,
    sink: &mut W,
    disk: &mut D,
    port: &mut P,
    link: &mut L,
) -> u8
    // What is printed is a run of the world, and the status says how it ended.
    ensures replay { map string_bytes words.now ≡ codes "replay" ∷ []
        → PrintsReplay (S.left source.old) (S.before source.new) (S.left source.new) (W.contents sink.old) (W.contents sink.new)
        (Rose (W.wants sink.old) (W.wants sink.new)) result }
    ensures exactly { map string_bytes words.now ≡ codes "replay" ∷ [] → ComesExactly (S.left source.old) result }
    ensures sound { EveryRunIsSound }

    // The schedule of a number, and what it comes to.
    ensures generate { (number events : ℕ) →
        AreWordsOf (map string_bytes words.now) (commands.Generate number events) →
        PrintsNumbered number events (W.contents sink.old) (W.contents sink.new) result }
    ensures drill { (number events : ℕ) →
        AreWordsOf (map string_bytes words.now) (commands.Drill number events) →
        PrintsDrilled number events (W.contents sink.old) (W.contents sink.new)
        (Rose (W.wants sink.old) (W.wants sink.new)) result }

    // What the commands that serve send, answer and print, and what the disk stands for then.
    ensures storage { (number : ℕ) →
        AreWordsOf (map string_bytes words.now) (commands.Storage number) →
        ServesNode D.tells D.plain P.tells number (D.history disk.old) (D.history disk.new)
        (P.coming port.old) (P.coming port.new) (P.answers port.old) (P.answers port.new)
        (W.contents sink.old) (W.contents sink.new) result }
    ensures register { (number : ℕ) →
        AreWordsOf (map string_bytes words.now) (commands.Register number) →
        ServesRegister D.tells D.plain P.tells number (D.history disk.old) (D.history disk.new)
        (P.coming port.old) (P.coming port.new) (P.answers port.old) (P.answers port.new)
        (W.contents sink.old) (W.contents sink.new) result }
    ensures server { (s : SettingValue) →
        AreWordsOf (map string_bytes words.now) (commands.Server s) →
        ServesPartition L.tells P.tells (post_of s) (L.transcript link.old) (L.transcript link.new)
        (L.faults link.old) (L.faults link.new)
        (P.coming port.old) (P.coming port.new) (P.answers port.old) (P.answers port.new)
        (W.contents sink.old) (W.contents sink.new) result }

    // What a client does against a server, and what stops whoever serves.
    ensures client { (id server : ℕ) →
        AreWordsOf (map string_bytes words.now) (commands.Client id server) →
        RunsScript L.tells id server (L.transcript link.old) (L.transcript link.new)
        (S.left source.old) (S.before source.new) (S.left source.new)
        (W.contents sink.old) (W.contents sink.new) (Rose (W.wants sink.old) (W.wants sink.new))
        result }
    ensures client_exactly { (id server : ℕ) →
        AreWordsOf (map string_bytes words.now) (commands.Client id server) →
        ScriptComesExactly (S.left source.old) result }
    ensures stop { (number : ℕ) →
        AreWordsOf (map string_bytes words.now) (commands.Stop number) →
        Stops L.tells number (L.transcript link.old) (L.transcript link.new)
        (W.contents sink.old) (W.contents sink.new) (Rose (W.wants sink.old) (W.wants sink.new))
        result }

    // Words in no form print the usage, and nothing else does.
    ensures usage { AreNoWords (map string_bytes words.now) →
        PrintsUsage (Rose (W.wants sink.old) (W.wants sink.new)) (W.contents sink.old)
        (W.contents sink.new) result }
    ensures usage_alone { result ≡ 2 → AreNoWords (map string_bytes words.now) }

    // A command uses no device but its own.
    ensures no_source { HaveNo UsesSource (map string_bytes words.now) → source.new ≡ source.old }
    ensures no_disk { HaveNo UsesDisk (map string_bytes words.now) → disk.new ≡ disk.old }
    ensures no_port { HaveNo UsesPort (map string_bytes words.now) → port.new ≡ port.old }
    ensures no_link { HaveNo UsesLink (map string_bytes words.now) → link.new ≡ link.old }

    // A fault is told only where it was counted, and is told where it was.
    ensures read { result ≡ 10 → Rose (S.faults source.old) (S.faults source.new) }
    ensures write { result ≡ 11 → Rose (W.faults sink.old) (W.faults sink.new) }
    ensures broken { result ≡ 12 → Rose (D.faults disk.old) (D.faults disk.new) }
    ensures peer { HaveNo IsAsking (map string_bytes words.now) →
        result ≡ 13 → Rose (P.faults port.old) (P.faults port.new) }
    ensures asked { HaveNo UsesPort (map string_bytes words.now) →
        result ≡ 13 → Rose (L.faults link.old) (L.faults link.new) }
    ensures no_register { result ≡ 14 → Rose (L.faults link.old) (L.faults link.new) }
    ensures read_told { S.faults source.old < S.faults source.new → (result ≡ 10) ⊎ IsBroken result }
    ensures write_told { W.faults sink.old < W.faults sink.new → result ≡ 11 }
    ensures broken_told { D.faults disk.old < D.faults disk.new → (result ≡ 12) ⊎ IsBroken result }
    ensures peer_told { P.faults port.old < P.faults port.new → (result ≡ 13) ⊎ IsBroken result }
    ensures asked_told { HaveNo UsesPort (map string_bytes words.now) →
        L.faults link.old < L.faults link.new → (result ≡ 13) ⊎ IsBroken result }
{
    match read_command(alloc, words) {
        Ok(Some(command)) => serve(alloc, &command, source, sink, disk, port, link),
        Ok(None) => usage(alloc, sink),
        Err(_) => NO_MEMORY,
    }
}
