ghost use Rattle.std.specs.Prelude.{⊤, ◌≡◌, ◌<◌, ◌⊎◌, ◌+◌, ℕ, List, Bool, true, false, None, Some, IfOk, IfErr, IsOk, OnOk, Err, IsErrOf};
ghost use Rattle.tx_model.specs.Spelling.{IsCount};
ghost use Rattle.io_core.specs.Causes.{Rose};
ghost use Rattle.disk_model.specs.File.{IsImage};
ghost use Rattle.session_register.specs.Registers.{cas_answer, number_after, IsCas};
ghost use Rattle.session_register.specs.Telling.{TellsRead, TellsCas, HasRegisterCause};
ghost use Rattle.session_register.specs.declared.register.RegisterFault.TheVariants.{Failed as Failing, Memory as NoMemory};
ghost use Rattle.session_register.specs.Values.{StandsFor, EachLeftStandsForEither};
ghost use Rattle.session_register.specs.Disks.{told_of, faults_of};
ghost use Rattle.wire_codec.specs.Spelling.{IsValidMessage, IsValidToRegister};
ghost use Rattle.wire_codec.specs.declared.message.ToRegister.TheVariants as to;
ghost use Rattle.node_loops.specs.declared.end.End.{End as EndValue};
ghost use Rattle.node_loops.specs.declared.requests.Asked.TheVariants as asks;
ghost use Rattle.node_loops.specs.Ends.{status_of, serving_text, Prints, IsBroken, Counts, HasItsCause, IsRegisterEnd, IsOwn, IsBlind};
ghost use Rattle.node_loops.specs.Serving.{desk, Runs};
ghost use Rattle.node_loops.specs.Storage.{goes_on};
ghost use Rattle.node_loops.specs.Registers.{IsRegisterReply, IsRegisterFault, RegisterHides, cas_message};

use crate::{Asked, End, Serving, serve};
use disk_model::Disk;
use io_core::{Port, Sink};
use session_register::{Cas, DiskRegister, MemRegister, Register, RegisterFault};
use std::alloc::Global;
use wire_codec::{Control, FromRegister, Message, ToRegister};

/// A register of which is told what it is kept in.
pub trait KeptRegister: Register {
    /// What it is kept in stands for this number, whatever a crash leaves of it.
    ghost stands: { Self → ℕ → Type 0 };

    /// What it is kept in stands for one of these two numbers, whatever a crash leaves of it.
    ghost leaves: { Self → ℕ → ℕ → Type 0 };

    /// The number that it holds.
    fn read_kept(&mut self) -> Result<u64, RegisterFault>
        ensures tells { TellsRead (Self.told self.old) (Self.told self.new) result }
        ensures range { IfOk result IsCount }
        ensures cause { HasRegisterCause (Self.faults self.old) (Self.faults self.new) result }
        ensures stands { (n : ℕ) → Self.told self.old ≡ Some n → stands self.old n →
            stands self.new n }
        ensures leaves { IsErrOf result Failing → (n : ℕ) → Self.told self.old ≡ Some n →
            stands self.old n → leaves self.new n n };

    /// Makes the number one more, where it is this one and not the greatest.
    fn cas_kept(&mut self, from: u64) -> Result<Cas, RegisterFault>
        requires { IsCount from }
        ensures tells { TellsCas from (Self.told self.old) (Self.told self.new) result }
        ensures range { IfOk result IsCas }
        ensures cause { HasRegisterCause (Self.faults self.old) (Self.faults self.new) result }
        ensures stands { OnOk result ((n : ℕ) → Self.told self.old ≡ Some n → stands self.old n →
            stands self.new (number_after n (cas_answer n from))) }
        ensures leaves { IsErrOf result Failing → (n : ℕ) → Self.told self.old ≡ Some n →
            stands self.old n → leaves self.new n (number_after n (cas_answer n from)) }
        ensures memory { IsErrOf result NoMemory → (n : ℕ) → Self.told self.old ≡ Some n →
            stands self.old n → stands self.new n };
}

impl KeptRegister for MemRegister {
    ghost stands = { λ number n. number ≡ n };

    ghost leaves = { λ number a b. (number ≡ a) ⊎ (number ≡ b) };

    fn read_kept(&mut self) -> Result<u64, RegisterFault> {
        self.read()
    }

    fn cas_kept(&mut self, from: u64) -> Result<Cas, RegisterFault> {
        self.cas(from)
    }
}

impl<D: Disk> KeptRegister for DiskRegister<D> {
    ghost stands = { λ r n. D.tells → (image : List ℕ) →
        IsImage ((D.history r.disk).now 0) image → StandsFor image n };

    ghost leaves = { λ r a b. D.tells →
        EachLeftStandsForEither D.plain a b ((D.history r.disk).now 0) };

    fn read_kept(&mut self) -> Result<u64, RegisterFault> {
        self.read()
    }

    fn cas_kept(&mut self, from: u64) -> Result<Cas, RegisterFault> {
        self.cas(from)
    }
}

// An answer of a compare-and-set as a message.
fn cas_message(answer: Cas) -> FromRegister
    ensures { result ≡ cas_message answer }
{
    match answer {
        Cas::Won(session) => FromRegister::Won(session),
        Cas::Lost(current) => FromRegister::Lost(current),
        Cas::Exhausted => FromRegister::Exhausted,
    }
}

// Answers `Read`.
fn reply_to_read<G: KeptRegister>(register: &mut G) -> Result<Message, End>
    ensures replied { IfOk result (λ reply. IsRegisterReply G.told G.stands
        (asks.Register to.Read) reply register.old register.new) }
    ensures valid { IfOk result IsValidMessage }
    ensures failed { IfErr result (λ end. IsRegisterFault G.told G.stands G.leaves
        (asks.Register to.Read) end register.old register.new) }
    ensures ends { IfErr result IsRegisterEnd }
    ensures disk { Counts (G.faults register.old) (G.faults register.new) (result ≡ Err End.Disk) }
    ensures blind { IsOk result → G.told register.new ≡ None → G.told register.old ≡ None }
    ensures is_blind { IfErr result (λ end. IsBlind end → RegisterHides (G.told register.old) end) }
{
    match register.read_kept() {
        Ok(number) => Ok(Message::FromRegister(FromRegister::Value(number))),
        Err(RegisterFault::Failed) => Err(End::Disk),
        Err(RegisterFault::Garbled) => Err(End::Answer),
        Err(RegisterFault::Memory) => Err(End::Memory),
    }
}

// Answers `Cas`.
fn reply_to_cas<G: KeptRegister>(register: &mut G, from: u64) -> Result<Message, End>
    requires { IsCount from }
    ensures replied { IfOk result (λ reply. IsRegisterReply G.told G.stands
        (asks.Register (to.Cas from)) reply register.old register.new) }
    ensures valid { IfOk result IsValidMessage }
    ensures failed { IfErr result (λ end. IsRegisterFault G.told G.stands G.leaves
        (asks.Register (to.Cas from)) end register.old register.new) }
    ensures ends { IfErr result IsRegisterEnd }
    ensures disk { Counts (G.faults register.old) (G.faults register.new) (result ≡ Err End.Disk) }
    ensures blind { IsOk result → G.told register.new ≡ None → G.told register.old ≡ None }
    ensures is_blind { IfErr result (λ end. IsBlind end → RegisterHides (G.told register.old) end) }
{
    match register.cas_kept(from) {
        Ok(answer) => Ok(Message::FromRegister(cas_message(answer))),
        Err(RegisterFault::Failed) => Err(End::Disk),
        Err(RegisterFault::Garbled) => Err(End::Answer),
        Err(RegisterFault::Memory) => Err(End::Memory),
    }
}

impl<G: KeptRegister> Serving<ToRegister> for G {
    ghost replies = { IsRegisterReply G.told G.stands };

    ghost fails = { IsRegisterFault G.told G.stands G.leaves };

    ghost over = { goes_on };

    ghost works = { λ _. ⊤ };

    ghost faults = { G.faults };

    ghost blind = { λ r. RegisterHides (G.told r) };

    ghost own = { λ _ _. ⊥ };

    fn reply_to(&mut self, asked: Asked) -> Result<Message, End> {
        match asked {
            Asked::Register(ToRegister::Read) => reply_to_read(self),
            Asked::Register(ToRegister::Cas(from)) => reply_to_cas(self, from),
            Asked::Bye => Ok(Message::Control(Control::Done)),
            Asked::Node(_) => Ok(Message::Control(Control::No)),
            Asked::Server(_) => Ok(Message::Control(Control::No)),
            Asked::Other => Ok(Message::Control(Control::No)),
        }
    }

    fn end(&self) -> Option<End> {
        None
    }
}

/// Serves a register at a port, up to an end, and gives the status.
pub fn serve_register<G: KeptRegister, P: Port, W: Sink>(
    alloc: Global,
    register: &mut G,
    port: &mut P,
    number: u16,
    sink: &mut W,
) -> u8
    ensures runs { (end : EndValue)
        × (P.tells → Runs G (IsRegisterReply G.told G.stands)
        (IsRegisterFault G.told G.stands G.leaves) goes_on
        (desk (P.coming port.old) (P.answers port.old) register.old)
        (desk (P.coming port.new) (P.answers port.new) register.new) end)
        × Prints (W.contents sink.old) (W.contents sink.new) (serving_text number end)
        (status_of end) result
        × HasItsCause (P.faults port.old) (P.faults port.new)
        (G.faults register.old) (G.faults register.new)
        (λ end. ⊥) (RegisterHides (G.told register.old)) end }

    // A fault is told only where it was counted, and is told where it was, unless the output or memory failed.
    ensures write { result ≡ 11 → Rose (W.faults sink.old) (W.faults sink.new) }
    ensures disk { result ≡ 12 → Rose (G.faults register.old) (G.faults register.new) }
    ensures peer { result ≡ 13 → Rose (P.faults port.old) (P.faults port.new) }
    ensures told { W.faults sink.old < W.faults sink.new → result ≡ 11 }
    ensures disk_told { G.faults register.old < G.faults register.new → (result ≡ 12) ⊎ IsBroken result }
    ensures peer_told { P.faults port.old < P.faults port.new → (result ≡ 13) ⊎ IsBroken result }
    ensures answer { result ≡ 19 → G.told register.old ≡ None }
    ensures others { (result ≡ 15) ⊎ ((result ≡ 16) ⊎ (result ≡ 21)) → ⊥ }
{
    serve::<ToRegister, G, P, W>(alloc, register, port, number, sink)
}
