ghost use Rattle.std.specs.Prelude.{◌≡◌, ◌<◌, ◌≤◌, ◌+◌, ◌*◌, ◌++◌, ◌∷◌, [], List, ℕ, length, IfOk, IfErr, OnOk, IfSome, IfNone, Some, None};
ghost use Rattle.tx_model.specs.declared.record.Record.{Record};
ghost use Rattle.tx_model.specs.Transactions.{named_locks, held_locks};
ghost use Rattle.tx_model.specs.Hashes.{slot_of};
ghost use Rattle.tx_model.specs.Probes.{probed_mark, first_above, admission};
ghost use Rattle.lock_table.specs.Tables.{table_shape, probe_of, conflict_of, TableStandsFor, AreRaised};

use crate::hash::find_slot;
use std::alloc::{AllocError, Global};
use std::marker::Model;
use std::sync::ledger::Ledger;
use tx_model::{Lock, Steps, Tx};

/// The lock that refuses a transaction.
#[derive(Clone, Copy, Debug, PartialEq, Eq)]
pub struct LockedAt {
    /// Its place among the named locks, counted from 0.
    pub place: u8,
    /// Its probed mark.
    pub mark: u64,
}

/// A table of 1 to 8 rows with 1 to 4,096 slots each.
#[derive(Drop)]
pub struct LockTable {
    rows: u8,
    slots: u32,
    entries: Vec<u64>,
}

impl Model for LockTable {
    ghost use Rattle.lock_table.specs.Tables.{Table};
    ghost use Rattle.lock_table.specs.Layout.{table_by, IsLockTable};

    ghost Value = { Table };

    ghost view = { table_by };

    ghost invariant = { IsLockTable };
}

impl LockTable {
    /// A table whose entries are all `start`.
    pub fn new(alloc: Global, rows: u8, slots: u32, start: u64) -> Result<LockTable, AllocError>
        requires rows { (1 ≤ rows) × (rows ≤ 8) }
        requires slots { (1 ≤ slots) × (slots ≤ 4096) }
        ensures shape { IfOk result (λ t. table_shape t ≡ record { rows = rows; slots = slots }) }
        ensures stands { IfOk result (λ t. TableStandsFor t start []) }
    {
        let entries = vec![in alloc; start; rows as usize * slots as usize]?;
        Ok(LockTable {
            rows,
            slots,
            entries,
        })
    }

    /// Sets all entries to `start`, so that nothing which was noted counts any more.
    pub fn reset(&mut self, start: u64)
        ensures shape { table_shape self.new ≡ table_shape self.old }
        ensures stands { TableStandsFor self.new start [] }
    {
        self.entries.fill(start);
    }

    /// The lock's probed mark: the least of its entries.
    pub fn probe<L: Ledger>(&self, lock: &Lock, steps: &mut Steps<L>) -> u64
        ensures value { result ≡ probe_of self.now lock.now }
        ensures stands { (start : ℕ) (log : List Record) → TableStandsFor self.now start log →
            result ≡ probed_mark (table_shape self.now) start log lock.now }
        ensures cost { steps.new ≡ steps.old + self.now.rows }
    {
        steps.tick();
        let mut least = self.entries[find_entry(self.rows, self.slots, 0, lock)];
        for row in 1..self.rows {
            steps.tick();
            least = least.min(self.entries[find_entry(self.rows, self.slots, row, lock)]);
        }
        least
    }

    /// Whether each named lock's probed mark is at most the transaction's mark. Else the first named lock of which that
    /// is not true, read locks before write locks.
    pub fn admit<L: Ledger>(&self, tx: &Tx, steps: &mut Steps<L>) -> Result<(), LockedAt>
        ensures ok { OnOk result (conflict_of self.now tx.now ≡ None) }
        ensures err { IfErr result (λ at. conflict_of self.now tx.now ≡ Some (record { place = at.place; mark = at.mark })) }

        // The same over each log that the table stands for.
        ensures stands_ok { OnOk result ((start : ℕ) (log : List Record) → TableStandsFor self.now start log →
            admission (table_shape self.now) start log tx.now ≡ None) }
        ensures stands_err { IfErr result (λ at. (start : ℕ) (log : List Record) → TableStandsFor self.now start log →
            admission (table_shape self.now) start log tx.now ≡ Some (record { place = at.place; mark = at.mark })) }

        ensures place { IfErr result (λ at. at.place < length (named_locks tx.now)) }
        ensures cost { steps.new ≤ steps.old + self.now.rows * length (named_locks tx.now) }
    {
        let reads = tx.reads();
        let writes = tx.writes();
        if let Some(at) = self.find_above(reads, tx.mark(), 0, steps) {
            return Err(at);
        }
        match self.find_above(writes, tx.mark(), reads.len() as u8, steps) {
            Some(at) => Err(at),
            None => Ok(()),
        }
    }

    // The first of some named locks whose probed mark is above `mark`. `from` is the place of the first of them.
    fn find_above<L: Ledger>(
        &self,
        locks: &[Lock],
        mark: u64,
        from: u8,
        steps: &mut Steps<L>,
    ) -> Option<LockedAt>
        requires { from + length locks.now ≤ 64 }
        ensures some { IfSome result (λ at. first_above (probe_of self.now) mark from locks.now ≡ Some (record { place = at.place; mark = at.mark })) }
        ensures none { IfNone result (first_above (probe_of self.now) mark from locks.now ≡ None) }
        ensures place { IfSome result (λ at. at.place < from + length locks.now) }
        ensures cost { steps.new ≤ steps.old + self.now.rows * length locks.now }
    {
        let mut place = from;
        for lock in locks {
            let found = self.probe(lock, steps);
            if found > mark {
                return Some(LockedAt { place, mark: found });
            }
            place += 1;
        }
        None
    }

    /// Notes that a record of this id and transaction stands in the log: the entries of each write lock are raised to
    /// the id. An entry that is above it already stays.
    pub fn note(&mut self, id: u64, tx: &Tx)
        ensures raised { AreRaised id (held_locks tx.now) self.old self.new }
        ensures stands { (start : ℕ) (log : List Record) (r : Record) → r.id ≡ id → r.tx ≡ tx.now →
            TableStandsFor self.old start log → TableStandsFor self.new start (log ++ r ∷ []) }
    {
        for lock in tx.writes() {
            self.raise(lock, id);
        }
    }

    // Raises the entries of one lock to an id.
    fn raise(&mut self, lock: &Lock, id: u64)
        ensures { AreRaised id (lock.now ∷ []) self.old self.new }
    {
        for row in 0..self.rows {
            let at = find_entry(self.rows, self.slots, row, lock);
            self.entries[at] = self.entries[at].max(id);
        }
    }
}

// The place of a lock's entry of one row among all entries.
fn find_entry(rows: u8, slots: u32, row: u8, lock: &Lock) -> usize
    requires some { 1 ≤ slots }
    requires few { slots ≤ 4096 }
    requires within { row < rows }
    ensures value { result ≡ row * slots + slot_of slots row lock.now }
    ensures within { result < rows * slots }
{
    row as usize * slots as usize + find_slot(slots, row, lock) as usize
}
