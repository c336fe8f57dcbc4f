//! The errors of a check, and the lines that report them.
ghost use Rattle.std.specs.Prelude.{◌≡◌, Some};
ghost use Rattle.claim_check.specs.FaultLines.{fault_line};
ghost use Rattle.claim_check.specs.declared.error.CheckError.TheVariants as check;
ghost use Rattle.simulation.specs.declared.error.SimError.TheVariants as fault;
ghost use Rattle.trace_printer.specs.declared.error.PrintError.TheVariants as print;

use claim_text::ClaimsError;
use radio_faults::FaultsError;
use simulation::{InputError, RunError, ScenarioError, SimError};
use std::alloc::AllocError;
use std::fmt;
use trace_printer::{PrintError, WriteFault};

/// The reason why a check has no answers, or why they weren't written.
#[derive(Drop)]
pub enum CheckError {
    /// An error of the scenario, or of its run, or a failed allocation.
    Simulation(SimError),
    /// The claims couldn't be read as a text.
    Input(InputError),
    /// An error in the claims.
    Claims(ClaimsError),
    /// The faults couldn't be read as a text.
    FaultsInput(InputError),
    /// An error in the faults.
    Faults(FaultsError),
    /// The net doesn't have the motes or the link that the fault with this number, from 1, names.
    NotInNet(usize),
    /// A survey of so many claims isn't possible.
    TooManyClaims,
    /// A survey of a net that may have so many faults isn't possible.
    TooManyFaults,
    /// A proper prefix of the answers or of the report has been written.
    Print(PrintError),
}

impl From<SimError> for CheckError {
    ghost from_gives = { λ x e. e ≡ check.Simulation x };

    fn from(error: SimError) -> Self {
        CheckError::Simulation(error)
    }
}

impl From<ScenarioError> for CheckError {
    ghost from_gives = { λ x e. e ≡ check.Simulation (fault.Scenario x) };

    fn from(error: ScenarioError) -> Self {
        CheckError::Simulation(SimError::Scenario(error))
    }
}

impl From<RunError> for CheckError {
    ghost from_gives = { λ x e. e ≡ check.Simulation (fault.Run x) };

    fn from(error: RunError) -> Self {
        CheckError::Simulation(SimError::Run(error))
    }
}

impl From<AllocError> for CheckError {
    ghost from_gives = { λ _ e. e ≡ check.Simulation fault.Memory };

    fn from(_error: AllocError) -> Self {
        CheckError::Simulation(SimError::Memory)
    }
}

impl From<InputError> for CheckError {
    ghost from_gives = { λ x e. e ≡ check.Input x };

    fn from(error: InputError) -> Self {
        CheckError::Input(error)
    }
}

impl From<ClaimsError> for CheckError {
    ghost from_gives = { λ x e. e ≡ check.Claims x };

    fn from(error: ClaimsError) -> Self {
        CheckError::Claims(error)
    }
}

impl From<FaultsError> for CheckError {
    ghost from_gives = { λ x e. e ≡ check.Faults x };

    fn from(error: FaultsError) -> Self {
        CheckError::Faults(error)
    }
}

impl From<PrintError> for CheckError {
    ghost from_gives = { λ x e. e ≡ check.Print x };

    fn from(error: PrintError) -> Self {
        CheckError::Print(error)
    }
}

impl From<WriteFault> for CheckError {
    ghost from_gives = { λ _ e. e ≡ check.Print print.Write };

    fn from(_error: WriteFault) -> Self {
        CheckError::Print(PrintError::Write)
    }
}

impl fmt::Display for CheckError {
    ghost output = { λ e. Some (fault_line e) };

    fn fmt<W: fmt::Write>(&self, f: &mut fmt::Formatter<W>) -> fmt::Result {
        match self {
            CheckError::Simulation(error) => write!(f, "{error}"),
            CheckError::Input(InputError::Read) => write!(f, "read fault of the claims"),
            CheckError::Input(InputError::TooLong) => write!(f, "claims too long"),
            CheckError::Input(InputError::NotText) => write!(f, "claims are not UTF-8"),
            CheckError::Input(InputError::Memory) => write!(f, "out of memory"),
            CheckError::Claims(ClaimsError::Memory) => write!(f, "out of memory"),
            CheckError::Claims(ClaimsError::NotAClaim { line, column }) => {
                write!(f, "claims fault line {line} column {column}")
            }
            CheckError::FaultsInput(InputError::Read) => write!(f, "read fault of the faults"),
            CheckError::FaultsInput(InputError::TooLong) => write!(f, "faults too long"),
            CheckError::FaultsInput(InputError::NotText) => write!(f, "faults are not UTF-8"),
            CheckError::FaultsInput(InputError::Memory) => write!(f, "out of memory"),
            CheckError::Faults(FaultsError::Memory) => write!(f, "out of memory"),
            CheckError::Faults(FaultsError::NotAFault { line, column }) => {
                write!(f, "faults fault line {line} column {column}")
            }
            CheckError::NotInNet(number) => {
                write!(
                    f,
                    "fault {number} names a mote or a link that the net doesn't have"
                )
            }
            CheckError::TooManyClaims => write!(f, "too many claims for a survey"),
            CheckError::TooManyFaults => write!(f, "too many faults for a survey"),
            CheckError::Print(PrintError::Write) => write!(f, "write fault"),
            CheckError::Print(PrintError::Memory) => write!(f, "out of memory"),
        }
    }
}
