//! The errors in a medium's numbers and losses.
ghost use Rattle.std.specs.Prelude.{◌≡◌};

use std::alloc::{AllocError, AllocFailed};

/// The reason for which no medium can have these numbers and losses.
#[derive(Clone, Copy, Debug, PartialEq, Eq)]
pub enum MediumError {
    /// Out of memory: an allocation failed.
    Memory = 1,
    /// The least delay is 0.
    ZeroBase = 2,
    /// The divisor of the square of the distance is 0.
    ZeroPer = 3,
    /// A loss names a mote that doesn't exist, names the same mote twice, or loses one of 0 packets; or two losses
    /// have the same sender and receiver.
    BadLoss = 4,
}

impl MediumError {
    ghost use Rattle.radio_medium.specs.Errors.{medium_fault_number};

    /// The number by which the error is printed.
    pub fn number(self) -> u8
        ensures number { result ≡ medium_fault_number self }
    {
        self as u8
    }
}

impl From<AllocError> for MediumError {
    ghost use Rattle.radio_medium.specs.declared.error.MediumError.TheVariants.{Memory};

    ghost from_gives = { λ _ e. e ≡ Memory };

    fn from(_error: AllocError) -> MediumError {
        MediumError::Memory
    }
}

impl<T: Drop> From<AllocFailed<T>> for MediumError {
    ghost use Rattle.radio_medium.specs.declared.error.MediumError.TheVariants.{Memory};

    ghost from_gives = { λ _ e. e ≡ Memory };

    fn from(_error: AllocFailed<T>) -> MediumError {
        MediumError::Memory
    }
}
