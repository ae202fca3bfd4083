ghost use Rattle.std.specs.Prelude.{◌≡◌, ◌≢◌, ◌⊎◌, ◌↔◌, ◌+◌, ◌-◌, ◌^◌, ◌<◌, ◌≤◌, [], ◌∷◌, ◌++◌, ◌==◌, ℕ, List, length, take, min, if◌then◌else◌, Contains, IsTrue, IsErr, Err, IfOk, OnOk, IsErrOf, OnErr};
ghost use Rattle.io_core.specs.Causes.{counted, HasCause, HasCauseOrMemory, HasWant};
ghost use Rattle.disk_model.specs.File.{IsDuring, written, shortened, settled, overlaid};
ghost use Rattle.disk_model.specs.History.{EachMoment, IsRead, KeepsWorking};
ghost use Rattle.disk_model.specs.Replay.{bytes_of, IsFrontWritten};
ghost use Rattle.disk_model.specs.declared.fuse.Fuse.TheVariants.{Off};
ghost use Rattle.disk_model.specs.MemDisk.{mem_history, IsReliable, IsUnfailing, MustFail, let_through, renewed, refused, call_after, write_after, cut_after};

use crate::Disk;
use crate::change::{Bytes, Change};
use crate::fuse::Fuse;
use io_core::{Failed, Fault};
use std::alloc::{AllocError, Global};
use std::collections::BTreeMap;
use std::marker::Model;

/// A disk in memory. A crash leaves what is read, and of a write in progress the front that was kept.
///
/// Calls of chosen numbers fail and change no byte. A fuse lets so many written bytes through, and then each call
/// fails until the crash.
#[derive(Drop)]
pub struct MemDisk {
    alloc: Global,
    files: BTreeMap<u32, Vec<u8>>,
    changes: Vec<Change>,
    fails: Vec<u64>,
    fuse: Fuse,
    calls: u64,
    faults: u64,
    wants: u64,
}

impl Model for MemDisk {
    ghost use Rattle.disk_model.specs.MemDisk.{MemState};

    ghost Value = { MemState };

    ghost use Rattle.std.specs.Prelude.{◌≡◌, ℕ};
    ghost use Rattle.disk_model.specs.Replay.{bytes_of, history_of};

    ghost view = { λ m. record { changes = m.changes.items; fails = m.fails.items; fuse = m.fuse; calls = m.calls; faults = m.faults; wants = m.wants } };

    ghost invariant = { λ m. (q : ℕ) → bytes_of m.files q
        ≡ ((history_of m.changes.items).now q).reads };
}

impl MemDisk {
    /// An empty disk.
    pub fn new(alloc: Global) -> MemDisk
        ensures { result ≡ record { changes = []; fails = []; fuse = Off; calls = 0; faults = 0; wants = 0 } }
    {
        MemDisk::failing(alloc, Vec::new(alloc))
    }

    /// An empty disk. Call number k, counted from 1 and up to the greatest `u64`, fails where k stands in `fails`. A
    /// call that runs out of memory is not counted.
    pub fn failing(alloc: Global, fails: Vec<u64>) -> MemDisk
        ensures { result
            ≡ record { changes = []; fails = fails.items; fuse = Off; calls = 0; faults = 0; wants = 0 } }
    {
        MemDisk {
            alloc,
            files: BTreeMap::new(alloc),
            changes: Vec::new(alloc),
            fails,
            fuse: Fuse::Off,
            calls: 0,
            faults: 0,
            wants: 0,
        }
    }

    /// Sets a fuse: so many bytes are written from now on, and then each call fails. A fuse that has made a call fail
    /// stays as it is until the crash.
    pub fn fuse(&mut self, bytes: u64)
        ensures { self.new ≡ record self.old { fuse = renewed self.old.fuse bytes } }
    {
        self.fuse = self.fuse.renewed(bytes);
    }

    /// Takes the fuse away. What was written stays.
    pub fn crash(&mut self)
        ensures { self.new ≡ record self.old { fuse = Off } }
    {
        self.fuse = Fuse::Off;
    }

    /// What a file holds.
    pub fn bytes(&self, file: u32) -> &[u8]
        ensures { result.now ≡ ((mem_history self.now).now file).reads }
    {
        shown(&self.files, file)
    }

    // Whether the next call fails whatever it is, which is then counted.
    fn refuses(&mut self) -> bool
        ensures must { IsTrue result ↔ MustFail self.old }
        ensures after { self.new ≡ (if result then refused self.old else self.old) }
        ensures later { self.old.faults ≤ self.new.faults }
    {
        let call = self.calls.saturating_add(1);
        if self.fails.contains(&call) || self.fuse.is_spent() {
            self.fuse = self.fuse.tripped();
            self.calls = call;
            self.faults = self.faults.saturating_add(1);
            return true;
        }
        false
    }
}

// The bytes of a file.
fn shown(files: &BTreeMap<u32, Vec<u8>>, file: u32) -> &[u8]
    ensures { result.now ≡ bytes_of files.now file }
{
    match files.get(&file) {
        Some(bytes) => bytes,
        None => &[],
    }
}

// Puts these bytes over those from this place on, in place.
fn overlay(content: &mut Vec<u8>, at: usize, bytes: &[u8]) -> Result<(), AllocError>
    requires { at ≤ length content.old.items }
    ensures ok { OnOk result (content.new.items ≡ overlaid content.old.items at bytes.now) }
    ensures room { OnOk result (at + length bytes.now < 2 ^ 64) }
    ensures err { OnErr result (content.new.items ≡ content.old.items) }
{
    let inside = bytes.len().min(content.len() - at);
    let (over, more) = bytes.split_at(inside);
    content.extend_from_slice(more)?;
    content[at..at + inside].copy_from_slice(over);
    Ok(())
}

// Puts these bytes into a file.
fn put(
    alloc: Global,
    files: &mut BTreeMap<u32, Vec<u8>>,
    file: u32,
    at: usize,
    bytes: &[u8],
) -> Result<(), AllocError>
    requires { at ≤ length (bytes_of files.old file) }
    ensures ok { OnOk result
        ((q : ℕ) → bytes_of files.new q
        ≡ (if q == file then overlaid (bytes_of files.old file) at bytes.now
        else bytes_of files.old q)) }
    ensures room { OnOk result (at + length bytes.now < 2 ^ 64) }
    ensures err { OnErr result ((q : ℕ) → bytes_of files.new q ≡ bytes_of files.old q) }
{
    match files.get_mut(&file) {
        Some(content) => overlay(content, at, bytes),
        None => create(alloc, files, file, bytes),
    }
}

// Makes a file of these bytes.
fn create(
    alloc: Global,
    files: &mut BTreeMap<u32, Vec<u8>>,
    file: u32,
    bytes: &[u8],
) -> Result<(), AllocError>
    ensures ok { OnOk result
        ((q : ℕ) → bytes_of files.new q ≡ (if q == file then bytes.now else bytes_of files.old q)) }
    ensures room { length bytes.now < 2 ^ 64 }
    ensures err { OnErr result ((q : ℕ) → bytes_of files.new q ≡ bytes_of files.old q) }
{
    files.insert(file, Vec::from_slice(alloc, bytes)?)?;
    Ok(())
}

// Cuts a file.
fn shorten(files: &mut BTreeMap<u32, Vec<u8>>, file: u32, len: usize)
    ensures { (q : ℕ) → bytes_of files.new q
        ≡ (if q == file then take len (bytes_of files.old file) else bytes_of files.old q) }
{
    if let Some(content) = files.get_mut(&file) {
        content.truncate(len);
    }
}

// The calls that may run out of memory, which is not counted yet.
impl MemDisk {
    fn try_write(&mut self, file: u32, at: u64, bytes: &[u8]) -> Result<(), Fault>
        requires { at ≤ length ((mem_history self.old).now file).reads }
        ensures moments { EachMoment file
            (IsDuring (at ≡ length ((mem_history self.old).now file).reads)
            (written at bytes.now ((mem_history self.old).now file)))
            (mem_history self.old) (mem_history self.new) }
        ensures reads { OnOk result (
            ((mem_history self.new).now file).reads
            ≡ overlaid ((mem_history self.old).now file).reads at bytes.now) }
        ensures room { OnOk result (at + length bytes.now < 2 ^ 64) }
        ensures memory { result ≡ Err Fault.Memory → self.new ≡ self.old }
        ensures cause { HasCauseOrMemory self.old.faults self.new.faults result }
        ensures keeps { KeepsWorking IsReliable IsUnfailing self.old self.new
            (result ≡ Err Fault.Failed) }

        // Meanwhile the file reads as before with a front of the bytes written, and a crash leaves just that.
        ensures fronts { EachMoment file
            (λ f. IsFrontWritten at (let_through self.old.fuse (length bytes.now)) bytes.now
            ((mem_history self.old).now file).reads f)
            (mem_history self.old) (mem_history self.new) }

        // A call that must fail changes no byte. Any other one keeps what the fuse lets through, and fails where that
        // is not all.
        ensures must { MustFail self.old →
            (result ≡ Err Fault.Failed) × (self.new ≡ refused self.old) }
        ensures fails { IsErrOf result Fault.Failed →
            MustFail self.old ⊎ (let_through self.old.fuse (length bytes.now) < length bytes.now) }
        ensures all { OnOk result
            (let_through self.old.fuse (length bytes.now) ≡ length bytes.now) }
        ensures after { (result ≢ Err Fault.Memory) → ¬ MustFail self.old →
            self.new ≡ write_after self.old file at bytes.now result }
    {
        if self.refuses() {
            return Err(Fault::Failed);
        }
        let kept = self.fuse.let_through(bytes.len());
        let (front, _) = bytes.split_at(kept);
        let change = Change::Write(file, at, Bytes::from_slice(self.alloc, front)?);
        self.changes.reserve(1)?;
        put(self.alloc, &mut self.files, file, at as usize, front)?;
        self.changes.push(change)?;
        self.fuse = self.fuse.used(bytes.len());
        self.calls = self.calls.saturating_add(1);
        if kept < bytes.len() {
            self.faults = self.faults.saturating_add(1);
            return Err(Fault::Failed);
        }
        Ok(())
    }

    fn try_cut(&mut self, file: u32, len: u64) -> Result<(), Fault>
        ensures moments { EachMoment file
            (IsDuring (Unit {0}) (shortened len ((mem_history self.old).now file)))
            (mem_history self.old) (mem_history self.new) }
        ensures reads { OnOk result (
            ((mem_history self.new).now file).reads
            ≡ take len ((mem_history self.old).now file).reads) }
        ensures memory { result ≡ Err Fault.Memory → self.new ≡ self.old }
        ensures cause { HasCauseOrMemory self.old.faults self.new.faults result }
        ensures keeps { KeepsWorking IsReliable IsUnfailing self.old self.new
            (result ≡ Err Fault.Failed) }

        ensures fails { IsErrOf result Fault.Failed ↔ MustFail self.old }
        ensures after { (result ≢ Err Fault.Memory) →
            self.new ≡ cut_after self.old file len result }
    {
        if self.refuses() {
            return Err(Fault::Failed);
        }
        self.changes.reserve(1)?;
        shorten(&mut self.files, file, len as usize);
        self.changes.push(Change::Cut(file, len))?;
        self.calls = self.calls.saturating_add(1);
        Ok(())
    }

    // Counts that memory ran out.
    fn wanted(&mut self) -> Fault
        ensures memory { result ≡ Fault.Memory }
        ensures after { self.new ≡ record self.old { wants = counted self.old.wants } }
        ensures later { self.old.wants ≤ self.new.wants }
    {
        self.wants = self.wants.saturating_add(1);
        Fault::Memory
    }
}

impl Disk for MemDisk {
    ghost use Rattle.disk_model.specs.MemDisk.{mem_history, IsReliable, IsUnfailing};
    ghost use Rattle.disk_model.specs.Laws.{mem_sound, mem_plain};

    ghost tells = { Unit {0} };

    ghost plain = { Unit {0} };

    ghost history = { mem_history };

    ghost faults = { λ m. m.faults };

    ghost wants = { λ m. m.wants };

    ghost reliable = { IsReliable };

    ghost unfailing = { IsUnfailing };

    ghost sound = { λ m t. mem_sound m.changes };

    ghost settles = { λ m t p. mem_plain m.changes };

    fn len(&mut self, file: u32) -> Result<u64, Failed>
        ensures len { IfOk result (λ n. Unit {0} →
            n ≡ length ((mem_history self.old).now file).reads) }
        ensures same { Unit {0} → mem_history self.new ≡ mem_history self.old }
        ensures cause { HasCause self.old.faults self.new.faults result }
        ensures keeps { KeepsWorking IsReliable IsUnfailing self.old self.new (IsErr result) }

        ensures fails { IsErr result ↔ MustFail self.old }
        ensures after { self.new ≡ call_after self.old result }
    {
        if self.refuses() {
            return Err(Failed);
        }
        self.calls = self.calls.saturating_add(1);
        Ok(shown(&self.files, file).len() as u64)
    }

    fn read(&mut self, file: u32, at: u64, into: &mut [u8]) -> Result<usize, Failed>
        ensures bound { IfOk result (λ n. n ≤ length into.old) }
        ensures room { IfOk result (λ n. at + n < 2 ^ 64) }
        ensures read { IfOk result (λ n. Unit {0} →
            IsRead ((mem_history self.old).now file).reads at into.new n) }
        ensures same { Unit {0} → mem_history self.new ≡ mem_history self.old }
        ensures cause { HasCause self.old.faults self.new.faults result }
        ensures keeps { KeepsWorking IsReliable IsUnfailing self.old self.new (IsErr result) }

        ensures fails { IsErr result ↔ MustFail self.old }
        ensures count { IfOk result
            (λ n. n ≡ min (length into.old) (length ((mem_history self.old).now file).reads - at)) }
        ensures after { self.new ≡ call_after self.old result }
    {
        if self.refuses() {
            return Err(Failed);
        }
        self.calls = self.calls.saturating_add(1);
        Ok(copy_from(into, shown(&self.files, file), at))
    }

    fn write_at(&mut self, file: u32, at: u64, bytes: &[u8]) -> Result<(), Fault>
        requires { Unit {0} → at ≤ length ((mem_history self.old).now file).reads }
        ensures moments { Unit {0} → EachMoment file
            (IsDuring (at ≡ length ((mem_history self.old).now file).reads)
            (written at bytes.now ((mem_history self.old).now file)))
            (mem_history self.old) (mem_history self.new) }
        ensures reads { OnOk result (Unit {0} →
            ((mem_history self.new).now file).reads
            ≡ overlaid ((mem_history self.old).now file).reads at bytes.now) }
        ensures room { OnOk result (at + length bytes.now < 2 ^ 64) }
        ensures memory { result ≡ Err Fault.Memory → Unit {0} →
            mem_history self.new ≡ mem_history self.old }
        ensures cause { HasCauseOrMemory self.old.faults self.new.faults result }
        ensures want { HasWant self.old.wants self.new.wants result }
        ensures keeps { KeepsWorking IsReliable IsUnfailing self.old self.new
            (result ≡ Err Fault.Failed) }

        // Meanwhile the file reads as before with a front of the bytes written, and a crash leaves just that.
        ensures fronts { EachMoment file
            (λ f. IsFrontWritten at (let_through self.old.fuse (length bytes.now)) bytes.now
            ((mem_history self.old).now file).reads f)
            (mem_history self.old) (mem_history self.new) }

        // A call that must fail changes no byte. Any other one keeps what the fuse lets through, and fails where that
        // is not all.
        ensures must { MustFail self.old →
            (result ≡ Err Fault.Failed) × (self.new ≡ refused self.old) }
        ensures fails { IsErrOf result Fault.Failed →
            MustFail self.old ⊎ (let_through self.old.fuse (length bytes.now) < length bytes.now) }
        ensures all { OnOk result
            (let_through self.old.fuse (length bytes.now) ≡ length bytes.now) }
        ensures after { ¬ MustFail self.old →
            self.new ≡ write_after self.old file at bytes.now result }
    {
        match self.try_write(file, at, bytes) {
            Ok(()) => Ok(()),
            Err(Fault::Failed) => Err(Fault::Failed),
            Err(Fault::Memory) => Err(self.wanted()),
        }
    }

    fn cut(&mut self, file: u32, len: u64) -> Result<(), Fault>
        ensures moments { Unit {0} → EachMoment file
            (IsDuring (Unit {0}) (shortened len ((mem_history self.old).now file)))
            (mem_history self.old) (mem_history self.new) }
        ensures reads { OnOk result (Unit {0} →
            ((mem_history self.new).now file).reads
            ≡ take len ((mem_history self.old).now file).reads) }
        ensures memory { result ≡ Err Fault.Memory → Unit {0} →
            mem_history self.new ≡ mem_history self.old }
        ensures cause { HasCauseOrMemory self.old.faults self.new.faults result }
        ensures want { HasWant self.old.wants self.new.wants result }
        ensures keeps { KeepsWorking IsReliable IsUnfailing self.old self.new
            (result ≡ Err Fault.Failed) }

        ensures fails { IsErrOf result Fault.Failed ↔ MustFail self.old }
        ensures after { self.new ≡ cut_after self.old file len result }
    {
        match self.try_cut(file, len) {
            Ok(()) => Ok(()),
            Err(Fault::Failed) => Err(Fault::Failed),
            Err(Fault::Memory) => Err(self.wanted()),
        }
    }

    fn sync(&mut self, file: u32) -> Result<(), Failed>
        ensures moments { Unit {0} → EachMoment file
            (λ f. f ≡ settled ((mem_history self.old).now file).reads)
            (mem_history self.old) (mem_history self.new) }
        ensures synced { OnOk result (Unit {0} →
            (mem_history self.new).now file ≡ settled ((mem_history self.old).now file).reads) }
        ensures cause { HasCause self.old.faults self.new.faults result }
        ensures keeps { KeepsWorking IsReliable IsUnfailing self.old self.new (IsErr result) }

        ensures fails { IsErr result ↔ MustFail self.old }
        ensures after { self.new ≡ call_after self.old result }
    {
        if self.refuses() {
            return Err(Failed);
        }
        self.calls = self.calls.saturating_add(1);
        Ok(())
    }
}

// Copies what stands from this place on, as much as there is room for.
fn copy_from(into: &mut [u8], bytes: &[u8], at: u64) -> usize
    ensures count { result ≡ min (length into.old) (length bytes.now - at) }
    ensures read { IsRead bytes.now at into.new result }
{
    if at >= bytes.len() as u64 {
        return 0;
    }
    let (_, rest) = bytes.split_at(at as usize);
    let count = into.len().min(rest.len());
    into[..count].copy_from_slice(&rest[..count]);
    count
}
