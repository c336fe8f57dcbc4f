//! The errors of texts of claims.
ghost use Rattle.std.specs.Prelude.{◌≡◌};
ghost use Rattle.claim_text.specs.declared.error.ClaimsError.TheVariants.{Memory};
ghost use Rattle.claim_text.specs.declared.error.Unread.TheVariants.{Memory as NoMemory};

use std::alloc::{AllocError, AllocFailed};

/// The reason why a text isn't read as claims.
#[derive(Clone, Copy, Debug, PartialEq, Eq)]
pub enum ClaimsError {
    /// An allocation failed.
    Memory,
    /// A line that isn't read as a claim: its number among all lines, from 1, and a column, from 1. There the reader
    /// stopped, or there the line first differs from the text of the claim that was read. The contracts say only that
    /// the column is in the line or just behind it.
    NotAClaim { line: usize, column: usize },
}

/// The reason why a part of a line isn't read.
#[derive(Clone, Copy)]
pub enum Unread {
    /// An allocation failed.
    Memory,
    /// The line doesn't go on like a claim.
    Unexpected,
}

impl From<AllocError> for ClaimsError {
    ghost from_gives = { λ _ e. e ≡ Memory };

    fn from(_error: AllocError) -> Self {
        ClaimsError::Memory
    }
}

impl<T: Drop> From<AllocFailed<T>> for ClaimsError {
    ghost from_gives = { λ _ e. e ≡ Memory };

    fn from(_error: AllocFailed<T>) -> Self {
        ClaimsError::Memory
    }
}

impl From<AllocError> for Unread {
    ghost from_gives = { λ _ e. e ≡ NoMemory };

    fn from(_error: AllocError) -> Self {
        Unread::Memory
    }
}

impl<T: Drop> From<AllocFailed<T>> for Unread {
    ghost from_gives = { λ _ e. e ≡ NoMemory };

    fn from(_error: AllocFailed<T>) -> Self {
        Unread::Memory
    }
}
