//! Runs workers, each in a thread of its own, and joins all threads.
#![tactic(auto)]

mod fork;
mod stop;
mod work;

pub use fork::fork_join;
pub use stop::Watch;
pub use work::{Work, WorkerError};
