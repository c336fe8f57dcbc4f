//! The test whether a partition fits a net.

ghost use Rattle.std.specs.Prelude.{◌≡◌, nat_lt};
ghost use Rattle.std.specs.List.{list_all};
ghost use Rattle.window_workers.specs.Fits.{cut_fault};

use serial_run::RunError;

/// The largest number of workers that a run may have.
pub const MOST_WORKERS: u16 = 16;

/// Returns whether the number of each mote's worker is below `workers`.
fn are_there(workers: usize, owners: &[u16]) -> bool
    ensures value { result ≡ list_all (λ worker. nat_lt worker workers) owners.now }
{
    owners.iter().all(|worker| usize::from(*worker) < workers)
}

/// Returns the first error in a partition of this many motes among this many workers, if there is one. `owners` is the
/// worker of each mote.
pub fn fault_of(motes: u16, workers: usize, owners: &[u16]) -> Option<RunError>
    ensures value { result ≡ cut_fault motes workers owners.now }
{
    if workers == 0 || workers > usize::from(MOST_WORKERS) {
        return Some(RunError::Workers);
    }
    if owners.len() != usize::from(motes) {
        return Some(RunError::CutLength);
    }
    if !are_there(workers, owners) {
        return Some(RunError::CutWorker);
    }
    None
}
