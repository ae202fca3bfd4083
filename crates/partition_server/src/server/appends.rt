ghost use Rattle.std.specs.Prelude.{◌≡◌, ◌≢◌, ◌<◌, ◌≤◌, ◌+◌, ◌*◌, ◌⊎◌, ◌++◌, ◌∷◌, [], true, length, slice_index_or, Option, None, Ok, Err, IfOk, IfErr, OnOk, OnErr};
ghost use Rattle.tx_model.specs.Transactions.{named_locks};
ghost use Rattle.tx_model.specs.Records.{IsPlace, IsRecord};
ghost use Rattle.proto_model.specs.Serving.{after_append, append_refusal, assigned, last_id, no_room, refusal_in};
ghost use Rattle.partition_server.specs.Held.{config_of, state_of};
ghost use Rattle.partition_server.specs.Taking.{IsTakeable};
ghost use Rattle.partition_server.specs.Faults.{refusal_of, takes_memory, IsLockRefusal, IsRefusedBy, IsValidFault};

use super::Server;
use crate::AppendFault;
use feed_service::Window;
use proto_model::{Phase, Refusal};
use std::alloc::{AllocError, Global};
use std::sync::ledger::Ledger;
use tx_model::{Lock, MAX_PLACE, Record, Steps, Tx};

// So many records are not committed at most.
const WINDOW: u64 = 1024;

impl Server {
    /// Assigns the next id to a transaction, whose client and request wait under it from then on, or refuses it. A
    /// refused transaction leaves no trace. Each probed row of the lock table is a step.
    pub fn append<L: Ledger>(&mut self, tx: Tx, steps: &mut Steps<L>) -> Result<u64, AppendFault>
        ensures taken { OnOk result
            (append_refusal (config_of self.old) (state_of self.old) tx ≡ None) }
        ensures id { IfOk result (λ id. id ≡ length self.old.log + 1) }
        ensures after { OnOk result (state_of self.new ≡
            after_append (config_of self.old) (state_of self.old) tx) }
        ensures config { config_of self.new ≡ config_of self.old }

        // Nothing else stands in the way of a transaction.
        ensures assigned { IsTakeable (config_of self.old) (state_of self.old) tx →
            (result ≡ Ok (length self.old.log + 1)) ⊎ (result ≡ Err AppendFault.Memory) }

        // The refusals. Running out of memory is one only where no other is, or where the lock that refuses is to be told.
        ensures refused { IfErr result
            (IsRefusedBy (append_refusal (config_of self.old) (state_of self.old) tx)) }
        ensures valid { IfErr result IsValidFault }
        ensures memory { result ≡ Err AppendFault.Memory →
            takes_memory (append_refusal (config_of self.old) (state_of self.old) tx) ≡ true }
        ensures kept { OnErr result (self.new ≡ self.old) }

        ensures cost { steps.new ≤ steps.old + (config_of self.old).rows * length (named_locks tx) }
    {
        self.admit(&tx, steps)?;
        match self.assign(tx) {
            Ok(id) => Ok(id),
            Err(_) => Err(AppendFault::Memory),
        }
    }

    // Whether a transaction is taken.
    pub(crate) fn admit<L: Ledger>(&self, tx: &Tx, steps: &mut Steps<L>) -> Result<(), AppendFault>
        ensures taken { OnOk result
            (append_refusal (config_of self.now) (state_of self.now) tx.now ≡ None) }
        ensures refused { IfErr result
            (IsRefusedBy (append_refusal (config_of self.now) (state_of self.now) tx.now)) }
        ensures valid { IfErr result IsValidFault }
        ensures memory { result ≡ Err AppendFault.Memory →
            IsLockRefusal (append_refusal (config_of self.now) (state_of self.now) tx.now) }
        ensures running { OnOk result ((state_of self.now).phase ≡ Phase.Running) }
        ensures room { OnOk result (length self.now.log < last_id) }
        ensures cost { steps.new ≤
            steps.old + (config_of self.now).rows * length (named_locks tx.now) }
    {
        self.check_running()?;
        let last = self.log.len();
        if tx.mark() > last {
            return Err(AppendFault::MarkAhead(last));
        }
        if let Err(at) = self.locks.admit(tx, steps) {
            return Err(locked(self.alloc, tx, at.place, at.mark));
        }
        check_room(last, self.committed())
    }

    // Whether the server takes transactions.
    fn check_running(&self) -> Result<(), AppendFault>
        ensures running { OnOk result ((state_of self.now).phase ≡ Phase.Running) }
        ensures refused { IfErr result (λ fault. (refusal : Option Refusal) →
            refusal_of fault ≡ refusal_in (state_of self.now).phase refusal) }
        ensures valid { IfErr result IsValidFault }
        ensures memory { result ≢ Err AppendFault.Memory }
    {
        match self.nodes.phase() {
            Phase::Running => Ok(()),
            Phase::Closed(session) => Err(AppendFault::Closed(session)),
            Phase::Idle => Err(AppendFault::NotRunning(Phase::Idle)),
            Phase::Opening => Err(AppendFault::NotRunning(Phase::Opening)),
            Phase::Fetching => Err(AppendFault::NotRunning(Phase::Fetching)),
            Phase::Repairing => Err(AppendFault::NotRunning(Phase::Repairing)),
        }
    }

    // Gives a transaction the next id.
    pub(crate) fn assign(&mut self, tx: Tx) -> Result<u64, AllocError>
        requires running { (state_of self.old).phase ≡ Phase.Running }
        requires room { length self.old.log < last_id }
        ensures id { IfOk result (λ id. id ≡ length self.old.log + 1) }
        ensures after { OnOk result (state_of self.new ≡ assigned (state_of self.old) tx) }
        ensures config { config_of self.new ≡ config_of self.old }
        ensures kept { OnErr result (self.new ≡ self.old) }
    {
        let id = self.log.len() + 1;
        self.log.reserve()?;
        self.waiting.add(id, tx.client(), tx.request())?;
        self.locks.note(id, &tx);
        let entry = assigned_record(id, self.nodes.session(), tx);
        push_reserved(&mut self.log, entry);
        Ok(id)
    }
}

// Adds a record for which there is room.
fn push_reserved(log: &mut Window, entry: Record)
    requires room { 1 ≤ log.old.room }
    requires next { entry.id ≡ length log.old.log + 1 }
    requires valid { IsRecord entry }
    ensures { log.new.log ≡ log.old.log ++ entry ∷ [] }
{
    match log.push(entry) {
        Ok(()) => {}
        Err(_) => unreachable!(),
    }
}

// The record of an id. A transaction is always a valid one.
fn assigned_record(id: u64, session: u64, tx: Tx) -> Record
    requires id { IsPlace id }
    requires session { IsPlace session }
    ensures value { result ≡ record { id = id; session = session; tx = tx } }
    ensures valid { IsRecord result }
{
    let _ = tx.reads();
    Record { id, session, tx }
}

// The fault that tells the lock of this place among the named ones.
fn locked(alloc: Global, tx: &Tx, place: u8, mark: u64) -> AppendFault
    requires { place < length (named_locks tx.now) }
    ensures told { (result ≡ AppendFault.Memory) ⊎
        (result ≡ AppendFault.Locked (slice_index_or (named_locks tx.now) place []) mark) }
    ensures valid { IsValidFault result }
{
    match named_lock(tx, place).copy(alloc) {
        Ok(lock) => {
            // So the name is one.
            let _name = lock.bytes();
            AppendFault::Locked(lock, mark)
        }
        Err(_) => AppendFault::Memory,
    }
}

// A named lock by its place: read locks stand before write locks.
fn named_lock<'a>(tx: &'a Tx, place: u8) -> &'a Lock
    requires { place < length (named_locks tx.now) }
    ensures { result.now ≡ slice_index_or (named_locks tx.now) place [] }
{
    let reads = tx.reads();
    let writes = tx.writes();
    let place = place as usize;
    if place < reads.len() {
        &reads[place]
    } else {
        &writes[place - reads.len()]
    }
}

// Whether there is room for one more record after so many, of which so many are committed.
fn check_room(last: u64, committed: u64) -> Result<(), AppendFault>
    requires { committed ≤ last }
    ensures ok { OnOk result (no_room last committed ≡ None) }
    ensures room { OnOk result (last ≢ last_id) }
    ensures err { IfErr result (λ fault. refusal_of fault ≡ no_room last committed) }
    ensures valid { IfErr result IsValidFault }
    ensures memory { result ≢ Err AppendFault.Memory }
{
    if last - committed == WINDOW {
        return Err(AppendFault::WindowFull);
    }
    if last == MAX_PLACE {
        return Err(AppendFault::LogFull);
    }
    Ok(())
}
