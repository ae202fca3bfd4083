//! What a node's replica of the log is to those who send it messages, whatever it is kept in.
ghost use Rattle.std.specs.Prelude.{◌≡◌, ◌≤◌, ◌+◌, ◌-◌, ◌^◌, ◌⊎◌, ℕ, Bool, true, false, length, min, take, drop, Some, IfOk, IfErr, OnOk, IsErrOf};
ghost use Rattle.io_core.specs.Causes.{Rose};
ghost use Rattle.proto_model.specs.Replicas.{ReplicaState, replica_after, replica_reply};
ghost use Rattle.proto_model.specs.Parts.{needs_file};
ghost use Rattle.proto_model.specs.Crashes.{unstaged, IsCrashOf};
ghost use Rattle.proto_model.specs.Held.{Held, Contents, Stands, held_in, replica_of};
ghost use Rattle.proto_model.specs.Nodes.{HasNodeCause, Shuts, IsUndamaged, IsShown};
ghost use Rattle.proto_model.specs.Validity.{IsValidToNode, IsValidFromNode};
ghost use Rattle.proto_model.specs.declared.message.Status.{Status};
ghost use Rattle.proto_model.specs.declared.replica.NodeFault.TheVariants.{Disk as Broke, Shut as IsShut, Full as NoFile, Memory as NoMemory};

use crate::{FromNode, Status, ToNode};

/// Why a replica made no step.
#[derive(Clone, Copy, Debug, PartialEq, Eq)]
pub enum NodeFault {
    /// Its disk failed. It is shut from then on.
    Disk,
    /// What was read is not what was written: the file, and the place in it. It is shut from then on.
    Damaged(u32, u64),
    /// It was shut before, and was not loaded since.
    Shut,
    /// The step begins a new file, and the numbers of files are used up.
    Full,
    /// There was no memory.
    Memory,
}

/// A storage node's replica of the log.
///
/// What is said of its state is said where its files tell what they hold. It is shut by an answer `Disk` or `Damaged`,
/// and only loading it again goes on.
pub trait Replica {
    /// Whether its files tell what they hold.
    ghost tells: { Type 0 };

    /// The replica's state: what its files stand for, and what is staged.
    ghost state: { Self → ReplicaState };

    /// The bytes of each of its files, as they are read.
    ghost files: { Self → Contents };

    /// Nothing that is read of its files passes a check by chance.
    ghost sure: { Self → Type 0 };

    /// How often its disk has failed, up to the greatest `u64`.
    ghost faults: { Self → ℕ };

    /// Whether it is shut.
    ghost shut: { Self → Bool };

    /// The status that it shows. The file is the greatest number used so far, where file 1 counts as used.
    ghost shown: { Self → Status };

    /// Whether it is without faults: no call of its disk is to fail, and memory sufficed in each crash since it was
    /// loaded.
    ghost is_faultless: { Self → Type 0 };

    /// Takes a message, and answers it. After `Full` and `Memory` nothing has changed.
    ///
    /// `Shut` comes before any other answer. `Damaged` comes only where what is read is not what was written.
    fn step(&mut self, m: &ToNode) -> Result<FromNode, NodeFault>
        requires { IsValidToNode m.now }
        ensures state { OnOk result (tells → state self.new ≡ replica_after (state self.old) m.now) }
        ensures reply { IfOk result (λ reply. tells →
            reply ≡ replica_reply (state self.old) m.now) }
        ensures valid { IfOk result IsValidFromNode }

        // `Shut` and `Full` come exactly so.
        ensures was_shut { (IsErrOf result IsShut → shut self.old ≡ true)
            × (shut self.old ≡ true → IsErrOf result IsShut × (self.new ≡ self.old)) }
        ensures full { IsErrOf result NoFile → tells →
            (needs_file (state self.old) m.now ≡ true) × ((shown self.old).file ≡ 2 ^ 32 - 1) }
        ensures no_file { tells → shut self.old ≡ false →
            needs_file (state self.old) m.now ≡ true → (shown self.old).file ≡ 2 ^ 32 - 1 →
            IsErrOf result NoFile }
        ensures undamaged { tells → IsUndamaged result }

        // A refusal that doesn't shut it leaves the replica as it was. One that does leaves files that stand for what a
        // crash within the step may leave.
        ensures refused { IfErr result (λ fault. (Shuts result × (shut self.new ≡ true))
            ⊎ ((shut self.new ≡ shut self.old) × (tells → state self.new ≡ state self.old))) }
        ensures on { OnOk result (shut self.new ≡ false) }
        ensures broken { Shuts result → tells → sure self.new →
            Stands (IsCrashOf (state self.old) m.now) (files self.new) }
        ensures shown { IfErr result (λ fault. shown self.new ≡ shown self.old) }
        ensures file { ((shown self.old).file ≤ (shown self.new).file)
            × ((shown self.new).file ≤ (shown self.old).file + 1) }

        ensures cause { HasNodeCause (faults self.old) (faults self.new) result }
        ensures only { is_faultless self.old →
            IfErr result (λ fault. (fault ≡ NodeFault.Full) ⊎ (fault ≡ NodeFault.Memory)) }
        ensures faultless { is_faultless self.old → is_faultless self.new };

    /// The numbers of its state, and the greatest number of a file used so far. Once it is shut, they are those of before
    /// the call that shut it.
    fn status(&self) -> Status
        ensures { result ≡ shown self.now };

    /// What it shows is its state's, and its files stand for that, with nothing staged, unless it is shut.
    ghost standing: { (r : Self) → tells → shut r ≡ false →
        IsShown (state r) (shown r) × Stands (λ s. s ≡ unstaged (state r)) (files r) };

    /// Without faults it is not shut.
    ghost going: { (r : Self) → is_faultless r → shut r ≡ false };
}

/// A replica that can be stopped, also within a step. Its files tell, and nothing of them passes by chance.
pub trait Crashing: Replica {
    /// Takes a message, stops once so many bytes are written or at the step's end, and loads again. The call of the disk at
    /// which it stops is a counted fault.
    ///
    /// After `Memory` and `Disk` the replica is shut, and its files stand for what a crash within the step may leave.
    fn step_torn(&mut self, m: &ToNode, keep: u64) -> Result<(), NodeFault>
        requires { IsValidToNode m.now }
        ensures torn { OnOk result (IsCrashOf (Self.state self.old) m.now (Self.state self.new)) }

        // Where no byte is let through, no call succeeds, and it stops before the step.
        ensures unbegun { keep ≡ 0 → OnOk result (Self.state self.new ≡ unstaged (Self.state self.old)) }

        ensures on { OnOk result (Self.shut self.new ≡ false) }
        ensures was_shut { (IsErrOf result IsShut → Self.shut self.old ≡ true)
            × (Self.shut self.old ≡ true → IsErrOf result IsShut × (self.new ≡ self.old)) }
        ensures refused { IfErr result (λ fault. Self.shut self.new ≡ true) }
        ensures stands { IfErr result (λ fault. Self.shut self.old ≡ false →
            Stands (IsCrashOf (Self.state self.old) m.now) (Self.files self.new)) }
        ensures shown { IfErr result (λ fault. Self.shown self.new ≡ Self.shown self.old) }
        ensures never { (IsErrOf result NoFile → ⊥) × IsUndamaged result }
        ensures file { ((Self.shown self.old).file ≤ (Self.shown self.new).file)
            × ((Self.shown self.new).file ≤ (Self.shown self.old).file + 1) }
        ensures later { Self.faults self.old ≤ Self.faults self.new }
        ensures cause { IsErrOf result Broke → Rose (Self.faults self.old) (Self.faults self.new) }
        ensures only { Self.is_faultless self.old → IfErr result (λ fault. fault ≡ NodeFault.Memory) }
        ensures faultless { Self.is_faultless self.old → OnOk result (Self.is_faultless self.new) };

    /// Stops between two steps, and loads again, also where it was shut. What is staged is lost. `Shut` never comes.
    ///
    /// After `Memory` and `Disk` it is shut, and its files stand for what they stood for.
    fn crash(&mut self) -> Result<(), NodeFault>
        ensures stopped { OnOk result (Self.shut self.old ≡ false →
            Self.state self.new ≡ unstaged (Self.state self.old)) }
        ensures loaded { (h : Held) → held_in (Self.files self.old) ≡ Some h →
            OnOk result (Self.state self.new ≡ replica_of h)
            × (held_in (Self.files self.new) ≡ Some h) }
        ensures on { OnOk result (Self.shut self.new ≡ false) }
        ensures refused { IfErr result (λ fault. Self.shut self.new ≡ true) }
        ensures shown { IfErr result (λ fault. Self.shown self.new ≡ Self.shown self.old) }
        ensures never { (IsErrOf result IsShut → ⊥) × ((IsErrOf result NoFile → ⊥) × IsUndamaged result) }
        ensures file { ((Self.shown self.old).file ≤ (Self.shown self.new).file)
            × ((Self.shown self.new).file ≤ (Self.shown self.old).file + 1) }
        ensures cause { HasNodeCause (Self.faults self.old) (Self.faults self.new) result }
        ensures only { Self.is_faultless self.old → IfErr result (λ fault. fault ≡ NodeFault.Memory) }
        ensures faultless { Self.is_faultless self.old → OnOk result (Self.is_faultless self.new) };

    /// Copies the bytes of a file from a place on, as many as there is room for. It answers the file's length, and how
    /// many bytes were copied. It takes no memory.
    fn peek(&self, file: u32, at: u64, into: &mut [u8]) -> (u64, usize)
        ensures len { result.0 ≡ length (Self.files self.now file) }
        ensures count { result.1 ≡ min (length into.old) (length (Self.files self.now file) - at) }
        ensures copied { take result.1 into.new
            ≡ take (length into.old) (drop at (Self.files self.now file)) };

    /// Its files tell.
    ghost telling: { Self.tells };

    /// Nothing of them passes by chance.
    ghost surely: { (r : Self) → Self.sure r };
}
