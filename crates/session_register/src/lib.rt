//! The register of session numbers: one number, which a compare-and-set makes one more. In memory, and in a file of a disk.
#![tactic(auto)]

mod disk;
mod entries;
mod loading;
mod memory;
mod register;

pub use disk::DiskRegister;
pub use memory::MemRegister;
pub use register::{Cas, Register, RegisterFault};
