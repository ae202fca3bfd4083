ghost use Rattle.std.specs.Prelude.{◌≡◌, ◌<◌, ◌≤◌};
ghost use Rattle.tx_model.specs.Hashes.{fnv_from, slot_of};

use tx_model::Lock;

/// The state of FNV-1a of 64 bits before any byte.
pub(crate) const START: u64 = 0xcbf29ce484222325;

/// The state of FNV-1a of 64 bits after more bytes.
pub(crate) fn hash_from(start: u64, bytes: &[u8]) -> u64
    ensures { result ≡ fnv_from start bytes.now }
{
    let mut state = start;
    for byte in bytes {
        state = (state ^ u64::from(*byte)).wrapping_mul(0x100000001b3);
    }
    state
}

/// The slot of a lock in a row.
#[tactic(auto, unfolding(tx_model::specs::Hashes::slot_of, tx_model::specs::Hashes::fnv))]
pub(crate) fn find_slot(slots: u32, row: u8, lock: &Lock) -> u32
    requires { 1 ≤ slots }
    ensures value { result ≡ slot_of slots row lock.now }
    ensures within { result < slots }
{
    let state = hash_from(hash_from(START, &[row]), lock.bytes());
    (state % u64::from(slots)) as u32
}
