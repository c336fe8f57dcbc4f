//! Runs with joins: in each window, each worker has a thread, and all threads are joined at the window's end.

mod next;
mod run;
mod window;
mod worker;

pub use run::run_by_joins;
