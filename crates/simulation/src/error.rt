//! The errors of a simulation, and the lines that report them.
ghost use Rattle.std.specs.Prelude.{◌≡◌, Some};
ghost use Rattle.simulation.specs.FaultLines.{fault_line};
ghost use Rattle.simulation.specs.Simulation.{sim_fault};
ghost use Rattle.simulation.specs.declared.error.SimError.TheVariants as fault;

use crate::input::InputError;
use net_scenario::ScenarioError;
use radio_medium::MediumError;
use std::fmt;
use trace_printer::PrintError;
use window_workers::RunError;

/// The reason why a simulation didn't write a complete report.
#[derive(Debug, PartialEq, Eq, Drop)]
pub enum SimError {
    /// A call of the reader failed.
    Read,
    /// More than 1,048,576 bytes arrived.
    TooLong,
    /// The bytes aren't UTF-8.
    NotText,
    /// The first error in the scenario.
    Scenario(ScenarioError),
    /// The run of the net didn't reach its end.
    Run(RunError),
    /// A prefix of the report has been written.
    Print(PrintError),
    /// An allocation failed outside the parts above.
    Memory,
}

impl From<InputError> for SimError {
    ghost from_gives = { λ x e. e ≡ sim_fault x };

    fn from(error: InputError) -> Self {
        match error {
            InputError::Read => SimError::Read,
            InputError::TooLong => SimError::TooLong,
            InputError::NotText => SimError::NotText,
            InputError::Memory => SimError::Memory,
        }
    }
}

impl From<ScenarioError> for SimError {
    ghost from_gives = { λ x e. e ≡ fault.Scenario x };

    fn from(error: ScenarioError) -> Self {
        SimError::Scenario(error)
    }
}

impl From<RunError> for SimError {
    ghost from_gives = { λ x e. e ≡ fault.Run x };

    fn from(error: RunError) -> Self {
        SimError::Run(error)
    }
}

impl From<PrintError> for SimError {
    ghost from_gives = { λ x e. e ≡ fault.Print x };

    fn from(error: PrintError) -> Self {
        SimError::Print(error)
    }
}

impl fmt::Display for SimError {
    ghost output = { λ fault. Some (fault_line fault) };

    fn fmt<W: fmt::Write>(&self, f: &mut fmt::Formatter<W>) -> fmt::Result {
        match self {
            SimError::Read => write!(f, "read fault"),
            SimError::TooLong => write!(f, "scenario too long"),
            SimError::NotText => write!(f, "scenario is not UTF-8"),
            SimError::Scenario(ScenarioError::Program(name, error)) => {
                let name = name.as_str();
                let kind = error.kind.number();
                let line = error.line;
                write!(f, "program {name} fault {kind} line {line}")
            }
            SimError::Scenario(ScenarioError::Medium(MediumError::Memory)) => write!(
                f,
                "out of memory"
            ),
            SimError::Scenario(ScenarioError::Medium(error)) => {
                let kind = error.number();
                write!(f, "medium fault {kind}")
            }
            SimError::Scenario(ScenarioError::Memory) => write!(f, "out of memory"),
            SimError::Scenario(error) => {
                let kind = error.number();
                write!(f, "scenario fault {kind}")
            }
            SimError::Run(error) => write!(f, "{error}"),
            SimError::Print(PrintError::Write) => write!(f, "write fault"),
            SimError::Print(PrintError::Memory) => write!(f, "out of memory"),
            SimError::Memory => write!(f, "out of memory"),
        }
    }
}
