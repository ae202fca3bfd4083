//! A segment, and what is known of its records without the disk.
ghost use Rattle.std.specs.Prelude.{◌≡◌, ◌↔◌, ℕ, List, ◌+◌, ◌^◌, ◌<◌, [], min, drop, OnErr, OnOk, IsTrue};
ghost use Rattle.segment_store.specs.Index.{count_of, IsIndexOf, IsNext};

use std::alloc::{AllocError, Global};
use std::marker::Model;

/// The records of one file, each in its frame, with ids that go on from a first one. It keeps where each frame begins;
/// the records stay on the disk.
#[derive(Drop)]
pub struct Segment {
    pub(crate) alloc: Global,
    pub(crate) file: u32,
    pub(crate) first: u64,
    pub(crate) starts: Vec<u64>,
    pub(crate) end: u64,
}

impl Model for Segment {
    ghost use Rattle.segment_store.specs.Index.{Index};

    ghost Value = { Index };

    ghost view = { λ s. record { file = s.file; first = s.first; starts = s.starts.items; end = s.end } };
}

impl Segment {
    /// No record yet of a file whose first one will have this id. It takes no memory and reads nothing.
    pub fn new(alloc: Global, file: u32, first: u64) -> Segment
        ensures none { result ≡ record { file = file; first = first; starts = []; end = 0 } }
        ensures index { (bytes : List ℕ) → IsIndexOf result bytes }
    {
        Segment {
            alloc,
            file,
            first,
            starts: Vec::new(alloc),
            end: 0,
        }
    }

    /// The id of its first record, or of the one to come.
    pub fn first(&self) -> u64
        ensures { result ≡ self.now.first }
    {
        self.first
    }

    /// Its file.
    pub fn file(&self) -> u32
        ensures { result ≡ self.now.file }
    {
        self.file
    }

    /// Where its last frame ends in the file.
    pub fn end(&self) -> u64
        ensures { result ≡ self.now.end }
    {
        self.end
    }

    /// How many records it has.
    pub fn count(&self) -> u64
        ensures { result ≡ count_of self.now }
    {
        self.starts.len() as u64
    }

    /// Drops the records with ids above `first + len - 1`. The file keeps them.
    pub fn close(&mut self, len: u64)
        ensures place { (self.new.file ≡ self.old.file) × (self.new.first ≡ self.old.first) }
        ensures count { count_of self.new ≡ min len (count_of self.old) }
        ensures index { (bytes : List ℕ) → IsIndexOf self.old bytes → IsIndexOf self.new bytes }
    {
        if len < self.count() {
            self.end = self.starts[len as usize];
            self.starts.truncate(len as usize);
        }
    }

    // Whether it is the id of the record after the last.
    pub(crate) fn is_next(&self, id: u64) -> bool
        ensures { IsTrue result ↔ (id ≡ self.now.first + count_of self.now) }
    {
        self.first <= id && id - self.first == self.count()
    }

    // Takes in the next record, whose frame has this length and stands where the last frame ends.
    pub(crate) fn note(&mut self, len: usize) -> Result<(), AllocError>
        requires room { self.old.end + len < 2 ^ 64 }
        ensures place { (self.new.file ≡ self.old.file) × (self.new.first ≡ self.old.first) }
        ensures count { OnOk result (count_of self.new ≡ count_of self.old + 1) }
        ensures end { OnOk result (self.new.end ≡ self.old.end + len) }
        ensures index { OnOk result ((all : List ℕ) → IsIndexOf self.old all →
            IsNext self.old len (drop self.old.end all) → IsIndexOf self.new all) }
        ensures err { OnErr result (self.new ≡ self.old) }
    {
        self.starts.push(self.end)?;
        self.end += len as u64;
        Ok(())
    }
}
