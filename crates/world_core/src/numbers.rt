ghost use Rattle.std.specs.Prelude.{◌≡◌, ◌≤◌, length};
ghost use Rattle.tx_model.specs.Spelling.{IsCount};
ghost use Rattle.proto_model.specs.Tables.{put};
ghost use Rattle.session_register.specs.Registers.{cas_answer, number_after, IsCas};
ghost use Rattle.world_core.specs.Kept.{numbers_of};

use session_register::{Cas, MemRegister, Register};

/// The register's number.
pub(crate) fn read_number(register: &mut MemRegister) -> u64
    ensures value { result ≡ register.old }
    ensures same { register.new ≡ register.old }
{
    match register.read() {
        Ok(number) => number,
        Err(_) => unreachable!(),
    }
}

/// A compare-and-set of the register.
pub(crate) fn compare_and_set(register: &mut MemRegister, from: u64) -> Cas
    requires { IsCount from }
    ensures answer { result ≡ cas_answer register.old from }
    ensures number { register.new ≡ number_after register.old result }
    ensures range { IsCas result }
{
    match register.cas(from) {
        Ok(answer) => answer,
        Err(_) => unreachable!(),
    }
}

/// A server keeps a number for its next compare-and-set, or none.
pub(crate) fn keep(kept: &mut [Option<u64>], v: u8, number: Option<u64>)
    requires { (1 ≤ v) × (v ≤ length kept.old) }
    ensures numbers { numbers_of kept.new ≡ put (numbers_of kept.old) v number }
    ensures size { length kept.new ≡ length kept.old }
{
    kept[v as usize - 1] = number;
}

/// The number that a server keeps.
pub(crate) fn number_of(kept: &[Option<u64>], v: u8) -> Option<u64>
    requires { (1 ≤ v) × (v ≤ length kept.now) }
    ensures { result ≡ numbers_of kept.now v }
{
    kept[v as usize - 1]
}
