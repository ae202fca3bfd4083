ghost use Rattle.std.specs.Prelude.{◌≡◌};

use proto_model::{Phase, ReadRefusal, Refusal};
use tx_model::Lock;

/// Why an append is not taken. Of several reasons the first of these is told.
#[derive(Debug, Drop)]
pub enum AppendFault {
    /// The server is idle, opening, fetching or repairing.
    NotRunning(Phase),
    /// The server was closed by this later session.
    Closed(u64),
    /// The mark is above the server's last id, which is this.
    MarkAhead(u64),
    /// A later transaction may have written this lock: its probed mark, which is above the transaction's mark.
    Locked(Lock, u64),
    /// There are 1,024 records that are not committed.
    WindowFull,
    /// The last id is the greatest one, 2^48 - 1.
    LogFull,
    Memory,
}

/// Why no part of the log is shown. Of several reasons the first of these is told.
#[derive(Clone, Copy, Debug, PartialEq, Eq)]
pub enum ReadFault {
    /// The server is idle, opening, fetching or repairing.
    NotRunning(Phase),
    /// There is no record of the id 0.
    BadId,
    /// The id is above the committed mark, which is this.
    NotYet(u64),
    Memory,
}

impl AppendFault {
    ghost use Rattle.partition_server.specs.Faults.{refusal_of};

    /// What a client is told. There is nothing to tell of running out of memory.
    pub fn refusal(self) -> Option<Refusal>
        ensures { result ≡ refusal_of self }
    {
        match self {
            AppendFault::NotRunning(phase) => Some(Refusal::NotRunning(phase)),
            AppendFault::Closed(session) => Some(Refusal::Closed(session)),
            AppendFault::MarkAhead(last) => Some(Refusal::MarkAhead(last)),
            AppendFault::Locked(lock, mark) => Some(Refusal::Locked(lock, mark)),
            AppendFault::WindowFull => Some(Refusal::WindowFull),
            AppendFault::LogFull => Some(Refusal::LogFull),
            AppendFault::Memory => None,
        }
    }
}

impl ReadFault {
    ghost use Rattle.std.specs.Prelude.{◌≢◌, Some};
    ghost use Rattle.partition_server.specs.Faults.{read_refusal_of};

    // The fault that tells a refusal.
    pub(crate) fn of(refusal: ReadRefusal) -> ReadFault
        ensures told { read_refusal_of result ≡ Some refusal }
        ensures memory { result ≢ ReadFault.Memory }
    {
        match refusal {
            ReadRefusal::NotRunning(phase) => ReadFault::NotRunning(phase),
            ReadRefusal::BadId => ReadFault::BadId,
            ReadRefusal::NotYet(committed) => ReadFault::NotYet(committed),
        }
    }

    /// What a client is told. There is nothing to tell of running out of memory.
    pub fn refusal(self) -> Option<ReadRefusal>
        ensures { result ≡ read_refusal_of self }
    {
        match self {
            ReadFault::NotRunning(phase) => Some(ReadRefusal::NotRunning(phase)),
            ReadFault::BadId => Some(ReadRefusal::BadId),
            ReadFault::NotYet(committed) => Some(ReadRefusal::NotYet(committed)),
            ReadFault::Memory => None,
        }
    }
}
