//! The reasons for which a run has no report.

ghost use Rattle.std.specs.Prelude.{◌≡◌, Some};
ghost use Rattle.serial_run.specs.declared.error.RunError.TheVariants.{Memory};

use std::alloc::AllocError;
use std::error::Error;
use std::fmt;

/// The reason for which a run has no report.
#[derive(Clone, Copy, Debug, PartialEq, Eq)]
pub enum RunError {
    /// The number of workers isn't from 1 to 16.
    Workers = 1,
    /// The partition has too few or too many entries: it must name one worker for each mote of the net.
    CutLength = 2,
    /// The partition assigns a mote to a worker that doesn't exist.
    CutWorker = 3,
    /// Out of memory: an allocation failed.
    Memory = 4,
    /// A thread couldn't be started, the gate refused a start, or the executor in a thread returned an error. With
    /// null messages, also a copy that a worker may not get yet: the protocol sends none, but no contract of a single
    /// thread can exclude it.
    Thread = 5,
    /// Never returned: a worker stops only after another worker failed, and then the other's error is reported.
    Stopped = 6,
}

impl fmt::Display for RunError {
    ghost use Rattle.serial_run.specs.RunErrors.{text_of_run_error};

    ghost output = { λ e. Some (text_of_run_error e) };

    fn fmt<W: fmt::Write>(&self, f: &mut fmt::Formatter<W>) -> fmt::Result {
        match self {
            RunError::Workers => f.write_str("run fault 1"),
            RunError::CutLength => f.write_str("run fault 2"),
            RunError::CutWorker => f.write_str("run fault 3"),
            RunError::Memory => f.write_str("out of memory"),
            RunError::Thread => f.write_str("run fault 5"),
            RunError::Stopped => f.write_str("run fault 6"),
        }
    }
}

impl Error for RunError {}

impl From<AllocError> for RunError {
    ghost from_gives = { λ _ e. e ≡ Memory };

    fn from(_: AllocError) -> RunError {
        RunError::Memory
    }
}
