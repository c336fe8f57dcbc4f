//! The workers' errors, as errors of the run.

ghost use Rattle.std.specs.Prelude.{◌≡◌, true};
ghost use Rattle.fork_join.specs.Gravest.{is_own_failure};
ghost use Rattle.window_workers.specs.Fits.{of_refused};

use fork_join::WorkerError;
use serial_run::RunError;

/// Returns the error of the run for a worker's error. The worker itself failed: it didn't stop because another one
/// failed.
pub fn of_refused(refused: WorkerError) -> RunError
    requires is_own { is_own_failure refused ≡ true }
    ensures value { result ≡ of_refused refused }
{
    match refused {
        WorkerError::Memory => RunError::Memory,
        WorkerError::Thread => RunError::Thread,
        WorkerError::Stopped => unreachable!(),
    }
}
