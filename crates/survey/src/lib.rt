//! Surveys: the minimal sets of faults that break a claim, where the faults that may change a run depend on the faults that
//! it has. After a loss a mote may send again, and this copy can be lost too.
//!
//! A survey tries the smallest sets first. The run with a set offers the faults that may change it, and the sets of the
//! next size have one more of these. Each set is tried once, in one order of its faults. A set needs no run if for each
//! claim a smaller set within it is known to break the claim. The runs are made one after another, or in threads.
#![tactic(auto)]

mod batch;
mod broken;
mod level;
mod progress;
mod record;
mod search;
mod sets;
mod task;
mod trial;
mod workers;

pub use broken::{Broken, Survey};
pub use progress::{NoProgress, Progress};
pub use search::{Limits, survey, survey_with};
pub use sets::is_within;
pub use task::{Outcome, Task};
pub use trial::{Trial, try_in_turn};
pub use workers::survey_in_threads;
