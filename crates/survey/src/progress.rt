//! The progress of a survey.

/// Somebody who is told how far a survey has come.
pub trait Progress {
    /// Is called before a batch of runs, with the first set of the batch.
    fn tell(&self, next: &[u64]);
}

/// Nobody: nothing is told.
pub struct NoProgress;

impl Progress for NoProgress {
    fn tell(&self, _next: &[u64]) {}
}
