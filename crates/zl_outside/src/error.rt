use std::alloc::{AllocError, AllocFailed};

/// There was no memory left.
#[derive(Clone, Copy, Debug, PartialEq, Eq)]
pub struct Memory;

/// A sink took a piece only in part, or not at all.
#[derive(Clone, Copy, Debug, PartialEq, Eq)]
pub struct Failed;

/// Why a file wasn't read.
#[derive(Clone, Copy, Debug, PartialEq, Eq)]
pub enum ReadAnswer {
    /// The file couldn't be opened, or a read of it failed.
    Failed,
    /// There was no memory left.
    Memory,
}

impl From<AllocError> for Memory {
    fn from(_: AllocError) -> Memory {
        Memory
    }
}

impl<T: Drop> From<AllocFailed<T>> for Memory {
    fn from(_: AllocFailed<T>) -> Memory {
        Memory
    }
}

impl From<AllocError> for ReadAnswer {
    ghost use Rattle.std.specs.Prelude.{◌≡◌};
    ghost use Rattle.zl_outside.specs.declared.error.ReadAnswer.TheVariants as answers;

    ghost from_gives = { λ _ answer. answer ≡ answers.Memory };

    fn from(_: AllocError) -> ReadAnswer {
        ReadAnswer::Memory
    }
}
