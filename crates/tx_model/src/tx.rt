ghost use Rattle.std.specs.Prelude.{◌≡◌, ◌≢◌, ◌↔◌, ◌≤◌, ◌<◌, ◌+◌, ◌++◌, length, IfOk, IsPermutation, true};
ghost use Rattle.std.specs.Bool.{OnTrue, OnFalse};
ghost use Rattle.std.specs.List.{AllAdjacentBelow};
ghost use Rattle.tx_model.specs.Transactions.{IsTransaction, transaction_of, AreLocks, IsBefore, are_apart, HasDouble, Says};

use crate::Lock;
use std::alloc::{AllocError, Global};
use std::cmp::Ordering;
use std::marker::Model;
use std::rc::Rc;

/// Locks of a transaction at most, read and write locks together.
pub const MAX_LOCKS: usize = 64;

/// Bytes of a payload at most.
pub const MAX_PAYLOAD: usize = 65536;

/// Why there is no such transaction. Of several reasons the first of these is told.
#[derive(Clone, Copy, Debug, PartialEq, Eq)]
pub enum TxFault {
    /// More than 64 locks in both lists together.
    TooManyLocks,
    /// A name stands twice in both lists together.
    DoubleLock,
    /// More than 65,536 bytes.
    PayloadTooLong,
    Memory,
}

impl From<AllocError> for TxFault {
    ghost use Rattle.tx_model.specs.declared.tx.TxFault.TheVariants.{Memory};

    ghost from_gives = { λ _ fault. fault ≡ Memory };

    fn from(_e: AllocError) -> TxFault {
        TxFault::Memory
    }
}

/// A transaction: which client built it, with which request number and at which mark, the locks that it names, and
/// what it says to the application. Copies share it.
#[derive(Drop)]
pub struct Tx {
    parts: Rc<Parts, Global>,
}

#[derive(Drop)]
struct Parts {
    client: u64,
    request: u64,
    mark: u64,
    reads: Vec<Lock>,
    writes: Vec<Lock>,
    payload: Vec<u8>,
}

impl Model for Tx {
    ghost use Rattle.tx_model.specs.Transactions.{Transaction};
    ghost use Rattle.tx_model.specs.TxLayout.{said_by, IsTx};

    ghost Value = { Transaction };

    ghost view = { said_by };

    ghost invariant = { IsTx };
}

impl Tx {
    /// The transaction that says this, with both lists put in byte order.
    pub fn new(
        alloc: Global,
        client: u64,
        request: u64,
        mark: u64,
        mut reads: Vec<Lock>,
        mut writes: Vec<Lock>,
        payload: Vec<u8>,
    ) -> Result<Tx, TxFault>
        ensures ok { IfOk result
            (λ tx. Says tx client request mark reads.items writes.items payload.items) }

        // The refusals, in their order. Memory is taken once none of them stands.
        ensures locks { (result ≡ Err TxFault.TooManyLocks) ↔
            (MAX_LOCKS < length reads.items + length writes.items) }
        ensures double { (result ≡ Err TxFault.DoubleLock) ↔
            ((length reads.items + length writes.items ≤ MAX_LOCKS)
            × HasDouble (reads.items ++ writes.items)) }
        ensures payload { (result ≡ Err TxFault.PayloadTooLong) ↔
            ((length reads.items + length writes.items ≤ MAX_LOCKS)
            × ¬ HasDouble (reads.items ++ writes.items)
            × (MAX_PAYLOAD < length payload.items)) }
    {
        if reads.len() + writes.len() > MAX_LOCKS {
            return Err(TxFault::TooManyLocks);
        }
        if !sort_locks(&mut reads, &mut writes) {
            return Err(TxFault::DoubleLock);
        }
        if payload.len() > MAX_PAYLOAD {
            return Err(TxFault::PayloadTooLong);
        }
        let tx = Tx::of_lists(alloc, client, request, mark, reads, writes, payload)?;
        Ok(tx)
    }

    /// The transaction with both lists as they stand, where all of it is known to be in form, as a decoder has tested it.
    pub fn of_lists(
        alloc: Global,
        client: u64,
        request: u64,
        mark: u64,
        reads: Vec<Lock>,
        writes: Vec<Lock>,
        payload: Vec<u8>,
    ) -> Result<Tx, AllocError>
        requires { IsTransaction
            (transaction_of client request mark reads.items writes.items payload.items) }
        ensures { IfOk result (λ tx.
            tx ≡ transaction_of client request mark reads.items writes.items payload.items) }
    {
        let parts = Parts {
            client,
            request,
            mark,
            reads,
            writes,
            payload,
        };
        let parts = Rc::new(alloc, parts)?;
        Ok(Tx { parts })
    }

    pub fn client(&self) -> u64
        ensures { result ≡ self.now.client }
    {
        self.parts.client
    }

    pub fn request(&self) -> u64
        ensures { result ≡ self.now.request }
    {
        self.parts.request
    }

    pub fn mark(&self) -> u64
        ensures { result ≡ self.now.mark }
    {
        self.parts.mark
    }

    /// The read locks, in byte order.
    pub fn reads(&self) -> &[Lock]
        ensures value { result.now ≡ self.now.reads }
        ensures valid { IsTransaction self.now }
    {
        &self.parts.reads
    }

    /// The write locks, in byte order.
    pub fn writes(&self) -> &[Lock]
        ensures value { result.now ≡ self.now.writes }
        ensures valid { IsTransaction self.now }
    {
        &self.parts.writes
    }

    pub fn payload(&self) -> &[u8]
        ensures value { result.now ≡ self.now.payload }
        ensures valid { IsTransaction self.now }
    {
        &self.parts.payload
    }

    /// An equal transaction.
    pub fn copy(&self, _alloc: Global) -> Result<Tx, AllocError>
        ensures { IfOk result (λ tx. tx ≡ self.now) }
    {
        let parts = self.parts.clone()?;
        Ok(Tx { parts })
    }
}

// Puts both lists in byte order, and says whether each name stands once in both together.
fn sort_locks(reads: &mut [Lock], writes: &mut [Lock]) -> bool
    ensures reads { IsPermutation reads.old reads.new }
    ensures writes { IsPermutation writes.old writes.new }
    ensures locks { OnTrue result (AreLocks reads.new × AreLocks writes.new) }
    ensures apart { OnTrue result (are_apart reads.new writes.new ≡ true) }
    ensures once { OnTrue result (¬ HasDouble (reads.old ++ writes.old)) }
    ensures double { OnFalse result (HasDouble (reads.old ++ writes.old)) }
{
    reads.sort_unstable();
    writes.sort_unstable();
    if !are_locks(reads) {
        return false;
    }
    if !are_locks(writes) {
        return false;
    }
    are_apart(reads, writes)
}

// Whether the names rise strictly.
fn are_locks(locks: &[Lock]) -> bool
    ensures rise { OnTrue result (AreLocks locks.now) }
    ensures stall { OnFalse result (¬ AllAdjacentBelow IsBefore locks.now (length locks.now)) }
{
    let mut last: &[u8] = &[];
    for lock in locks {
        let name = lock.bytes();
        if !last.cmp(name).is_lt() {
            return false;
        }
        last = name;
    }
    true
}

// Whether no name stands in both lists, which are in byte order.
fn are_apart(reads: &[Lock], writes: &[Lock]) -> bool
    requires reads { AreLocks reads.now }
    requires writes { AreLocks writes.now }
    ensures { result ≡ are_apart reads.now writes.now }
{
    let mut read = 0;
    let mut write = 0;
    while read < reads.len() && write < writes.len() {
        match reads[read].cmp(&writes[write]) {
            Ordering::Less => read += 1,
            Ordering::Greater => write += 1,
            Ordering::Equal => return false,
        }
    }
    true
}
