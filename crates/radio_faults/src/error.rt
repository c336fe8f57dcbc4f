//! The errors of texts of faults.
ghost use Rattle.std.specs.Prelude.{◌≡◌};
ghost use Rattle.radio_faults.specs.declared.error.FaultsError.TheVariants.{Memory};

use std::alloc::{AllocError, AllocFailed};

/// The reason why a text isn't read as faults.
#[derive(Clone, Copy, Debug, PartialEq, Eq)]
pub enum FaultsError {
    /// An allocation failed.
    Memory,
    /// A line that isn't the text of a fault: its number among all lines, from 1, and a column, from 1. There the line
    /// first differs from the text of the fault that begins the same and has as many words.
    NotAFault { line: usize, column: usize },
}

impl From<AllocError> for FaultsError {
    ghost from_gives = { λ _ e. e ≡ Memory };

    fn from(_error: AllocError) -> Self {
        FaultsError::Memory
    }
}

impl<T: Drop> From<AllocFailed<T>> for FaultsError {
    ghost from_gives = { λ _ e. e ≡ Memory };

    fn from(_error: AllocFailed<T>) -> Self {
        FaultsError::Memory
    }
}
