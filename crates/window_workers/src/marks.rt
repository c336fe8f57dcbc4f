//! Runs with marks: workers live for the whole run, and exchange copies and marks through their inboxes.

mod run;
mod thread;

pub use run::run_by_marks;
