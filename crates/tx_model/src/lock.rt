ghost use Rattle.std.specs.Prelude.{◌≡◌, ◌↔◌, ◌<◌, Some, [], List, ℕ, bytes_eq, length, refl, IfOk};
ghost use Rattle.tx_model.specs.Transactions.{IsName};
ghost use Rattle.std.specs.Rc.{rc_slice_items};
ghost use Rattle.std.specs.Ordering.{nat_cmp};
ghost use Rattle.std.specs.Cmp.{partial_equiv_from_equiv};
ghost use Rattle.std.specs.Cmp.Lexicographic.{slice_cmp, nat_list_eq_equiv, nat_list_cmp_total, texts_ties, texts_po};

use std::alloc::{AllocError, Global};
use std::cmp::Ordering;
use std::marker::Model;
use std::rc::RcSlice;

/// Bytes of a lock's name at most.
pub const MAX_NAME: usize = 64;

/// The name of a lock, of 1 to 64 bytes. Copies share the bytes.
#[derive(Debug, Drop)]
pub struct Lock {
    name: RcSlice<u8, Global>,
}

/// Why bytes are no lock's name.
#[derive(Clone, Copy, Debug, PartialEq, Eq)]
pub enum LockFault {
    /// There is no byte.
    Empty,
    /// There are more than 64 bytes.
    TooLong,
    Memory,
}

impl From<AllocError> for LockFault {
    ghost use Rattle.tx_model.specs.declared.lock.LockFault.TheVariants.{Memory};

    ghost from_gives = { λ _ fault. fault ≡ Memory };

    fn from(_e: AllocError) -> LockFault {
        LockFault::Memory
    }
}

impl Model for Lock {
    ghost Value = { List ℕ };

    ghost view = { λ l. rc_slice_items l.name };

    ghost invariant = { λ l. IsName (rc_slice_items l.name) };
}

impl Lock {
    /// The lock of this name.
    pub fn new(alloc: Global, name: &[u8]) -> Result<Lock, LockFault>
        ensures ok { IfOk result (λ lock. lock ≡ name.now) }
        ensures empty { (result ≡ Err LockFault.Empty) ↔ (name.now ≡ []) }
        ensures long { (result ≡ Err LockFault.TooLong) ↔ (MAX_NAME < length name.now) }
    {
        if name.is_empty() {
            return Err(LockFault::Empty);
        }
        if name.len() > MAX_NAME {
            return Err(LockFault::TooLong);
        }
        let name = RcSlice::from_slice(alloc, name)?;
        Ok(Lock { name })
    }

    /// The lock of bytes that are known to be a name, as a decoder has tested them.
    pub fn of_name(alloc: Global, name: &[u8]) -> Result<Lock, AllocError>
        requires { IsName name.now }
        ensures { IfOk result (λ lock. lock ≡ name.now) }
    {
        let name = RcSlice::from_slice(alloc, name)?;
        Ok(Lock { name })
    }

    /// The bytes of the name.
    pub fn bytes(&self) -> &[u8]
        ensures value { result.now ≡ self.now }
        ensures name { IsName self.now }
    {
        self.name.as_slice()
    }

    /// An equal lock.
    pub fn copy(&self, _alloc: Global) -> Result<Lock, AllocError>
        ensures { IfOk result (λ lock. lock ≡ self.now) }
    {
        let name = self.name.clone()?;
        Ok(Lock { name })
    }
}

/// A list of locks, as a head, an event or a script line holds it.
#[derive(Drop)]
pub struct Locks {
    items: Vec<Lock>,
}

impl Model for Locks {
    ghost Value = { List (List ℕ) };

    ghost view = { λ l. l.items.items };
}

impl Locks {
    pub fn new(items: Vec<Lock>) -> Locks
        ensures { result ≡ items.items }
    {
        Locks { items }
    }

    pub fn items(&self) -> &[Lock]
        ensures { result.now ≡ self.now }
    {
        &self.items
    }

    /// An equal list.
    pub fn copy(&self, alloc: Global) -> Result<Locks, AllocError>
        ensures { IfOk result (λ copy. copy ≡ self.now) }
    {
        let items = copy_locks(alloc, &self.items)?;
        Ok(Locks { items })
    }

    pub fn into_items(self) -> Vec<Lock>
        ensures { result.items ≡ self }
    {
        self.items
    }
}

/// An equal list of locks.
pub(crate) fn copy_locks(alloc: Global, locks: &[Lock]) -> Result<Vec<Lock>, AllocError>
    ensures { IfOk result (λ copies. copies.items ≡ locks.now) }
{
    let mut copies = Vec::with_capacity(alloc, locks.len())?;
    for lock in locks {
        copies.push(lock.copy(alloc)?)?;
    }
    Ok(copies)
}

impl PartialEq for Lock {
    ghost eq = { λ a b. bytes_eq a b };

    ghost laws = { partial_equiv_from_equiv nat_list_eq_equiv };

    fn eq(&self, other: &Lock) -> bool {
        self.bytes() == other.bytes()
    }
}

impl Eq for Lock {
    ghost laws = { nat_list_eq_equiv };
}

impl PartialOrd for Lock {
    ghost partial_cmp = { λ a b. Some (slice_cmp nat_cmp a b) };

    ghost laws = { texts_po };

    fn partial_cmp(&self, other: &Lock) -> Option<Ordering> {
        Some(self.cmp(other))
    }
}

impl Ord for Lock {
    ghost cmp = { λ a b. slice_cmp nat_cmp a b };

    ghost total = { nat_list_cmp_total };

    ghost matches_partial_cmp = { λ a b. refl };

    ghost matches_eq = { texts_ties };

    fn cmp(&self, other: &Lock) -> Ordering {
        self.bytes().cmp(other.bytes())
    }
}
