//! A store, and what is known of it without its disk.
ghost use Rattle.std.specs.Prelude.{◌≡◌, ◌↔◌, ◌+◌, true, None};
ghost use Rattle.tx_model.specs.Spelling.{IsCount};
ghost use Rattle.disk_model.specs.declared.fuse.Fuse.TheVariants.{Off};
ghost use Rattle.disk_model.specs.MemDisk.{renewed};
ghost use Rattle.partition_store.specs.Stores.{staged_count, IsInRange};

use disk_model::{Disk, MemDisk};
use meta_journal::Journal;
use proto_model::Status;
use segment_store::Segment;
use std::alloc::Global;
use std::marker::Model;

/// The log of a storage node, in the files of a disk: file 0 is a journal of what was promised, adopted and committed, and
/// each adoption begins a file of records, from file 2 on. What is staged is lost with a crash.
///
/// What is said of its state is said where its disk tells its content. After `Disk` and `Damaged` it is shut, and only
/// loading it again goes on.
#[derive(Drop)]
pub struct Store<D: Disk> {
    pub(crate) alloc: Global,
    pub(crate) disk: D,
    pub(crate) journal: Journal,
    pub(crate) status: Status,
    pub(crate) closed: Vec<Segment>,
    pub(crate) last: Option<Segment>,
    pub(crate) staged: Option<Segment>,
    pub(crate) shut: bool,
}

impl<D: Disk> Model for Store<D> {
    ghost use Rattle.partition_store.specs.Stores.{Kept, IsKept};

    ghost Value = { Kept D };

    ghost view = { λ s. record {
      disk = s.disk;
      journal = s.journal;
      status = s.status;
      closed = s.closed.items;
      last = s.last;
      staged = s.staged;
      shut = s.shut;
    } };

    ghost invariant = { λ s. IsKept D.tells D.history (record {
      disk = s.disk;
      journal = s.journal;
      status = s.status;
      closed = s.closed.items;
      last = s.last;
      staged = s.staged;
      shut = s.shut;
    }) };
}

impl<D: Disk> Store<D> {
    /// The numbers of its state, and the greatest number of a file used so far, where file 1 counts as used. Once it is
    /// shut, they are those of before the call that shut it.
    pub fn status(&self) -> Status
        ensures value { result ≡ self.now.status }
        ensures range { IsInRange result }
    {
        self.status
    }

    /// How many records are staged.
    pub fn staged(&self) -> u64
        ensures none { result ≡ 0 ↔ (self.now.staged ≡ None) }
        ensures value { result ≡ staged_count self.now.staged }
        ensures range { IsCount (self.now.status.low + result) }
    {
        match &self.staged {
            None => 0,
            Some(segment) => segment.count(),
        }
    }

    /// Whether it is shut.
    pub fn is_shut(&self) -> bool
        ensures { result ≡ self.now.shut }
    {
        self.shut
    }

    /// Closes it, so that only loading it again goes on.
    pub fn shut(&mut self)
        ensures { self.new ≡ record self.old { shut = true } }
    {
        self.shut = true;
    }

    /// The disk.
    pub fn disk(&self) -> &D
        ensures { result.now ≡ self.now.disk }
    {
        &self.disk
    }

    /// The disk, as it is.
    pub fn into_disk(self) -> D
        ensures { result ≡ self.disk }
    {
        self.disk
    }
}

impl Store<MemDisk> {
    /// Sets the fuse of its disk. Its state and its files stay as they are.
    pub fn fuse(&mut self, bytes: u64)
        ensures { self.new ≡ record self.old {
          disk = record self.old.disk { fuse = renewed self.old.disk.fuse bytes };
        } }
    {
        self.disk.fuse(bytes);
    }

    /// Takes the fuse of its disk away. Its state and its files stay as they are.
    pub fn crash(&mut self)
        ensures { self.new ≡ record self.old { disk = record self.old.disk { fuse = Off } } }
    {
        self.disk.crash();
    }
}
