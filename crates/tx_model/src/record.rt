ghost use Rattle.std.specs.Prelude.{◌≡◌, IfOk};

use crate::lock::copy_locks;
use crate::{Locks, Tx};
use std::alloc::{AllocError, Global};
use std::marker::Model;

/// The greatest place of a record, and the greatest number of a session: 2^48 - 1.
pub const MAX_PLACE: u64 = 0xffff_ffff_ffff;

/// Heads of a message at most.
pub const MAX_HEADS: usize = 16;

/// A transaction in its place in the log.
#[derive(Drop)]
pub struct Record {
    /// The place, from 1 to 2^48 - 1.
    pub id: u64,
    /// The session of the server that assigned the place, from 1 to 2^48 - 1.
    pub session: u64,
    pub tx: Tx,
}

/// A record without client, request and payload: what a client needs to know of a record before it asks for it whole.
#[derive(Drop)]
pub struct Head {
    pub id: u64,
    pub session: u64,
    pub mark: u64,
    pub reads: Locks,
    pub writes: Locks,
}

impl Record {
    ghost use Rattle.tx_model.specs.Records.{head_of};

    /// The record without client, request and payload.
    pub fn head(&self, alloc: Global) -> Result<Head, AllocError>
        ensures { IfOk result (λ head. head ≡ head_of self.now) }
    {
        let reads = copy_locks(alloc, self.tx.reads())?;
        let writes = copy_locks(alloc, self.tx.writes())?;
        Ok(Head {
            id: self.id,
            session: self.session,
            mark: self.tx.mark(),
            reads: Locks::new(reads),
            writes: Locks::new(writes),
        })
    }

    /// An equal record.
    pub fn copy(&self, alloc: Global) -> Result<Record, AllocError>
        ensures { IfOk result (λ copy. copy ≡ self.now) }
    {
        let tx = self.tx.copy(alloc)?;
        Ok(Record {
            id: self.id,
            session: self.session,
            tx,
        })
    }
}

impl Head {
    /// An equal head.
    pub fn copy(&self, alloc: Global) -> Result<Head, AllocError>
        ensures { IfOk result (λ copy. copy ≡ self.now) }
    {
        let reads = copy_locks(alloc, self.reads.items())?;
        let writes = copy_locks(alloc, self.writes.items())?;
        Ok(Head {
            id: self.id,
            session: self.session,
            mark: self.mark,
            reads: Locks::new(reads),
            writes: Locks::new(writes),
        })
    }
}

/// A list of heads, as a server's answer holds it.
#[derive(Drop)]
pub struct Heads {
    items: Vec<Head>,
}

impl Model for Heads {
    ghost use Rattle.std.specs.Prelude.{List};
    ghost use Rattle.tx_model.specs.declared.record.Head.{Head as HeadValue};

    ghost Value = { List HeadValue };

    ghost view = { λ h. h.items.items };
}

impl Heads {
    pub fn new(items: Vec<Head>) -> Heads
        ensures { result ≡ items.items }
    {
        Heads { items }
    }

    pub fn items(&self) -> &[Head]
        ensures { result.now ≡ self.now }
    {
        &self.items
    }
}
