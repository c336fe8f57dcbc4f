//! The error that the parts of the reader return for tokens that don't form a program.
ghost use Rattle.std.specs.Prelude.{◌≡◌};
ghost use Rattle.program_reader.specs.declared.fault.ReadFailure.TheVariants.{Memory};

use program_tree::error::ReadErrorKind;
use std::alloc::{AllocError, AllocFailed};

/// An error, and the number of tokens that are left, its own token included.
#[derive(Clone, Copy)]
pub(crate) struct Fault {
    pub kind: ReadErrorKind,
    pub left: usize,
}

/// Out of memory (an allocation failed), or the first error of the tokens.
#[derive(Clone, Copy)]
pub(crate) enum ReadFailure {
    Memory,
    Fault(Fault),
}

impl From<AllocError> for ReadFailure {
    ghost from_gives = { λ _ e. e ≡ Memory };

    fn from(_error: AllocError) -> Self {
        ReadFailure::Memory
    }
}

impl<T: Drop> From<AllocFailed<T>> for ReadFailure {
    ghost from_gives = { λ _ e. e ≡ Memory };

    fn from(_error: AllocFailed<T>) -> Self {
        ReadFailure::Memory
    }
}
