//! The work of a worker in its thread.

ghost use Rattle.std.specs.Prelude.{◌≡◌};
ghost use Rattle.fork_join.specs.Gravest.{graver, gravest, is_own_failure};

use crate::stop::Watch;
use std::alloc::{AllocError, AllocFailed};
use std::sync::ledger::Ledger;

/// The reason why a worker gave up, or wasn't started.
#[derive(Clone, Copy, Debug, PartialEq, Eq)]
pub enum WorkerError {
    /// Out of memory: an allocation failed.
    Memory,
    /// A thread couldn't be started, or its work failed.
    Thread,
    /// The worker stopped because another worker failed or wasn't started. [`crate::fork_join`] never returns this
    /// error.
    Stopped,
}

impl WorkerError {
    /// Returns whether the worker itself failed.
    pub(crate) fn is_own(self) -> bool
        ensures value { result ≡ is_own_failure self }
    {
        match self {
            WorkerError::Memory | WorkerError::Thread => true,
            WorkerError::Stopped => false,
        }
    }

    /// Compares two reasons, and returns the reason that is reported: `Memory` and `Thread` take precedence over
    /// `Stopped`; otherwise, the first reason is reported.
    fn graver(self, other: WorkerError) -> WorkerError
        ensures value { result ≡ graver self other }
    {
        match self {
            WorkerError::Stopped => other,
            WorkerError::Memory | WorkerError::Thread => self,
        }
    }
}

/// Returns the reported reason after one more worker gave up, for the reason `other`.
pub(crate) fn gravest(so_far: Option<WorkerError>, other: WorkerError) -> WorkerError
    ensures value { result ≡ gravest so_far other }
{
    match so_far {
        Some(first) => first.graver(other),
        None => other,
    }
}

impl From<AllocError> for WorkerError {
    ghost use Rattle.fork_join.specs.declared.work.WorkerError.{WorkerError};

    ghost from_gives = { λ _ e. e ≡ WorkerError.Memory };

    fn from(_: AllocError) -> WorkerError {
        WorkerError::Memory
    }
}

impl<T: Drop> From<AllocFailed<T>> for WorkerError {
    ghost use Rattle.fork_join.specs.declared.work.WorkerError.{WorkerError};

    ghost from_gives = { λ _ e. e ≡ WorkerError.Memory };

    fn from(_: AllocFailed<T>) -> WorkerError {
        WorkerError::Memory
    }
}

/// The work that all workers do, each on its own record `T`.
pub trait Work<T> {
    ghost use Rattle.std.specs.Prelude.{◌≡◌, true, IfErr, IfOk};
    ghost use Rattle.fork_join.specs.declared.work.WorkerError.{WorkerError};
    ghost use Rattle.fork_join.specs.declared.work.WorkerError.TheVariants.{Stopped};

    /// The condition on a worker's record.
    ghost ready: { Self → T → Type 0 };

    /// The effect of the work on the record.
    ghost makes: { Self → T → T → Type 0 };

    /// Works on the record of one worker. Workers that wait for one another read the flag while they wait: the flag is
    /// set if a worker or a start has failed.
    ///
    /// # Errors
    /// `Stopped` only if the worker saw that the flag was set.
    fn work<L: Ledger>(&self, worker: T, watch: &mut Watch<'_, L>) -> Result<T, WorkerError>
        requires ready { ready self.now worker }
        ensures makes { IfOk result (makes self.now worker) }
        ensures seen { IfErr result (λ e. e ≡ Stopped → watch.new.seen ≡ true) };

    /// Returns whether a worker's thread may start. It is called before each start; `false` counts as a failed start.
    fn may_start(&self, worker: &T) -> bool;
}
