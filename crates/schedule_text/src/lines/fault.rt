use super::Name;
use thiserror::Error;

/// Why a line is not read.
#[derive(Clone, Copy, Debug, PartialEq, Eq, Error)]
pub enum LineFault {
    /// The line is in no form, and stops at this place to begin one. The first byte's place is 1, and none is above 513.
    #[error("the line is in no form from place {0} on")]
    Bad(u64),
    /// The line is in form, and the first of its numbers that is out of range has this name.
    #[error("the number `{0}` is out of its range")]
    Range(Name),
    #[error("out of memory")]
    Memory,
}
