//! The progress of a survey, on standard error.

use net_survey::Progress;
use std::io::Eprint;

/// Writes a line before each part of the runs.
#[derive(Clone, Copy)]
pub struct Told<'a, T> {
    pub rt: &'a T,
}

impl<'a, T: Eprint> Progress for Told<'a, T> {
    fn tell(&self, next: &[u64]) {
        let size = next.len();
        let _ = eprintln!(self.rt; "motecheck: sets of {size} faults");
    }
}
