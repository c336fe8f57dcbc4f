//! The errors of a scenario.
ghost use Rattle.std.specs.Prelude.{◌≡◌};

use mote_net::ProgramName;
use program_tree::ReadError;
use radio_medium::MediumError;
use std::alloc::{AllocError, AllocFailed};

/// A fault of a document's tables. It is reported as the fault of the scenario with the same name.
#[derive(Clone, Copy, Debug, PartialEq, Eq)]
pub enum TableFault {
    MissingKey,
    UnknownKey,
    WrongKind,
    OutOfRange,
    UnknownProgram,
}

/// The reason for which a text describes no net: its first fault, or an allocation that failed in any part of the
/// reading.
#[derive(Debug, PartialEq, Eq, Drop)]
pub enum ScenarioError {
    /// The text isn't TOML.
    Toml,
    /// A table lacks a key that it needs.
    MissingKey,
    /// A table has a key that isn't allowed in it, or the name of a program has a form that isn't allowed.
    UnknownKey,
    /// A value isn't of the kind that its key needs.
    WrongKind,
    /// A number or a count is outside its limits, or the text is too long.
    OutOfRange,
    /// The program of a mote, or of the length of a queue, isn't among the programs.
    UnknownProgram,
    /// The program with this name can't be read.
    Program(ProgramName, ReadError),
    /// No medium can have these numbers and losses.
    Medium(MediumError),
    /// An allocation failed.
    Memory,
}

impl ScenarioError {
    ghost use Rattle.net_scenario.specs.FaultNumbers.{scenario_fault_number};

    /// The number that is printed.
    pub fn number(&self) -> u8
        ensures number { result ≡ scenario_fault_number self.now }
    {
        match self {
            ScenarioError::Toml => 1,
            ScenarioError::MissingKey => 2,
            ScenarioError::UnknownKey => 3,
            ScenarioError::WrongKind => 4,
            ScenarioError::OutOfRange => 5,
            ScenarioError::UnknownProgram => 6,
            ScenarioError::Program(_, _) => 7,
            ScenarioError::Medium(_) => 8,
            ScenarioError::Memory => 9,
        }
    }
}

impl From<TableFault> for ScenarioError {
    ghost use Rattle.net_scenario.specs.Errors.{of_table};

    ghost from_gives = { λ f e. e ≡ of_table f };

    fn from(fault: TableFault) -> ScenarioError {
        match fault {
            TableFault::MissingKey => ScenarioError::MissingKey,
            TableFault::UnknownKey => ScenarioError::UnknownKey,
            TableFault::WrongKind => ScenarioError::WrongKind,
            TableFault::OutOfRange => ScenarioError::OutOfRange,
            TableFault::UnknownProgram => ScenarioError::UnknownProgram,
        }
    }
}

impl From<MediumError> for ScenarioError {
    ghost use Rattle.net_scenario.specs.FaultNumbers.{of_medium};

    ghost from_gives = { λ m e. e ≡ of_medium m };

    fn from(error: MediumError) -> ScenarioError {
        match error {
            MediumError::Memory => ScenarioError::Memory,
            _ => ScenarioError::Medium(error),
        }
    }
}

impl From<AllocError> for ScenarioError {
    ghost use Rattle.net_scenario.specs.declared.error.ScenarioError.TheVariants.{Memory};

    ghost from_gives = { λ _ e. e ≡ Memory };

    fn from(_error: AllocError) -> ScenarioError {
        ScenarioError::Memory
    }
}

impl<T: Drop> From<AllocFailed<T>> for ScenarioError {
    ghost use Rattle.net_scenario.specs.declared.error.ScenarioError.TheVariants.{Memory};

    ghost from_gives = { λ _ e. e ≡ Memory };

    fn from(_error: AllocFailed<T>) -> ScenarioError {
        ScenarioError::Memory
    }
}
