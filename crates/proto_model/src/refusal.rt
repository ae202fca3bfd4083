use crate::Phase;
use std::alloc::{AllocError, Global};
use tx_model::Lock;

/// Why a server refuses an append. Of several reasons the first of these is told.
#[derive(Drop)]
pub enum Refusal {
    /// The server is in this phase, which is not running.
    NotRunning(Phase),
    /// The server was closed by this later session.
    Closed(u64),
    /// The mark is above the server's last id, which is this.
    MarkAhead(u64),
    /// A later transaction may have written this lock: its probed mark, which is above the transaction's mark.
    Locked(Lock, u64),
    /// There are 1,024 records that are not committed.
    WindowFull,
    /// The last id is the greatest one.
    LogFull,
}

/// Why a server refuses to show a part of its log. Of several reasons the first of these is told.
#[derive(Clone, Copy, PartialEq, Eq)]
pub enum ReadRefusal {
    /// The server is in this phase, in which it has no log to show.
    NotRunning(Phase),
    /// There is no record of the id 0.
    BadId,
    /// The id is above the committed mark, which is this.
    NotYet(u64),
}

/// Why a client builds no transaction. Of several reasons the first of these is told.
#[derive(Debug, Drop)]
pub enum BuildFault {
    /// The ops are no op text: one more than the length of the longest prefix that begins one.
    BadOps(u64),
    /// There are more than 64 locks in both lists together.
    TooManyLocks,
    /// A name stands twice in both lists together.
    DoubleLock,
    /// The ops have more than 65,536 bytes.
    PayloadTooLong,
    /// An op touches this key, the least such one, which is no write lock.
    Unlocked(Lock),
    /// The next request number would be 2^64 - 1.
    LastRequest,
    Memory,
}

impl Refusal {
    ghost use Rattle.std.specs.Prelude.{◌≡◌, IfOk};

    /// An equal refusal.
    pub fn copy(&self, alloc: Global) -> Result<Refusal, AllocError>
        ensures { IfOk result (λ copy. copy ≡ self.now) }
    {
        Ok(match self {
            Refusal::NotRunning(phase) => Refusal::NotRunning(*phase),
            Refusal::Closed(session) => Refusal::Closed(*session),
            Refusal::MarkAhead(last) => Refusal::MarkAhead(*last),
            Refusal::Locked(lock, mark) => Refusal::Locked(lock.copy(alloc)?, *mark),
            Refusal::WindowFull => Refusal::WindowFull,
            Refusal::LogFull => Refusal::LogFull,
        })
    }
}
