//! The errors of writing a report.
ghost use Rattle.std.specs.Prelude.{◌≡◌};
ghost use Rattle.trace_printer.specs.declared.error.PrintError.TheVariants as fault;

use crate::output::WriteFault;
use std::alloc::AllocError;

/// The reason why a report isn't complete. Each reason has the number that is printed for it.
#[derive(Clone, Copy, Debug, PartialEq, Eq)]
pub enum PrintError {
    /// The writer failed or took no byte.
    Write = 1,
    /// An allocation failed.
    Memory = 2,
}

impl PrintError {
    ghost use Rattle.trace_printer.specs.PrintErrors.{print_fault_number};

    /// Returns the number that is printed for this error.
    pub fn number(self) -> u8
        ensures number { result ≡ print_fault_number self }
    {
        self as u8
    }
}

impl From<AllocError> for PrintError {
    ghost from_gives = { λ _ e. e ≡ fault.Memory };

    fn from(_error: AllocError) -> Self {
        PrintError::Memory
    }
}

impl From<WriteFault> for PrintError {
    ghost from_gives = { λ _ e. e ≡ fault.Write };

    fn from(_error: WriteFault) -> Self {
        PrintError::Write
    }
}
