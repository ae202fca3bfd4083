//! Bytes of a file, read a piece at a time.
ghost use Rattle.std.specs.Prelude.{◌≡◌, ◌+◌, ◌-◌, ◌^◌, ◌<◌, ◌≤◌, ◌++◌, [], length, take, drop, min, IfOk, OnOk, IsErrOf};
ghost use Rattle.disk_model.specs.History.{KeepsWorking};
ghost use Rattle.disk_model.specs.LoadFaults.{IsNotDamaged, HasDiskCause};
ghost use Rattle.disk_model.specs.declared.unloaded.LoadFault.TheVariants.{Disk as Broke};

use crate::{Disk, LoadFault};
use std::alloc::{AllocError, Global};

/// A stretch of a file, of which the bytes before `next` were read and those before `end` are wanted. What was read and
/// is not used yet stands in `bytes`.
#[derive(Drop)]
pub struct Stretch {
    pub file: u32,
    pub next: u64,
    pub end: u64,
    pub piece: Vec<u8>,
    pub bytes: Vec<u8>,
}

impl Stretch {
    /// Nothing is read yet. A call of the disk reads this many bytes at most.
    pub fn new(
        alloc: Global,
        file: u32,
        from: u64,
        end: u64,
        piece: usize,
    ) -> Result<Stretch, AllocError>
        ensures place { IfOk result (λ s. (s.file ≡ file) × (s.next ≡ from) × (s.end ≡ end)) }
        ensures none { IfOk result (λ s. s.bytes.items ≡ []) }
        ensures piece { IfOk result (λ s. length s.piece.items ≡ piece) }
    {
        Ok(Stretch {
            file,
            next: from,
            end,
            piece: vec![in alloc; 0u8; piece]?,
            bytes: Vec::new(alloc),
        })
    }

    /// Reads the next piece, and answers how many bytes it has: none at the end of the stretch or of the file.
    pub fn refill<D: Disk>(&mut self, disk: &mut D) -> Result<usize, LoadFault>
        requires within { self.old.next ≤ self.old.end }
        requires piece { 0 < length self.old.piece.items }
        ensures same { (self.new.file ≡ self.old.file) × (self.new.end ≡ self.old.end)
            × (length self.new.piece.items ≡ length self.old.piece.items) }
        ensures read { IfOk result
            (λ n. (self.new.next ≡ self.old.next + n) × (self.new.next ≤ self.new.end)
            × (length self.new.bytes.items ≡ length self.old.bytes.items + n)) }
        ensures bound { OnOk result (self.new.next < 2 ^ 64) }
        ensures bytes { IfOk result (λ n. D.tells →
            let file = ((D.history disk.old).now self.old.file).reads in
            self.new.bytes.items ≡ self.old.bytes.items ++ take n (drop self.old.next file)) }
        ensures none { IfOk result (λ n. n ≡ 0 → D.tells →
            min self.old.end (length ((D.history disk.old).now self.old.file).reads)
            ≤ self.old.next) }
        ensures history { D.tells → D.history disk.new ≡ D.history disk.old }
        ensures not_damaged { IsNotDamaged result }
        ensures cause { HasDiskCause (D.faults disk.old) (D.faults disk.new) result }
        ensures keeps { KeepsWorking D.reliable D.unfailing disk.old disk.new
            (IsErrOf result Broke) }
    {
        let count = disk.read(self.file, self.next, &mut self.piece)?;
        let n = (count as u64).min(self.end - self.next);
        self.bytes.extend_from_slice(&self.piece[..n as usize])?;
        self.next += n;
        Ok(n as usize)
    }

    /// Lets go of the first bytes, which are used.
    pub fn forget(&mut self, used: usize)
        requires { used ≤ length self.old.bytes.items }
        ensures same { (self.new.file ≡ self.old.file) × (self.new.next ≡ self.old.next)
            × (self.new.end ≡ self.old.end)
            × (length self.new.piece.items ≡ length self.old.piece.items) }
        ensures bytes { self.new.bytes.items ≡ drop used self.old.bytes.items }
    {
        self.bytes.copy_within(used.., 0);
        self.bytes.truncate(self.bytes.len() - used);
    }
}
