//! Runs of a net with workers. The run on one thread and its laws are re-exported from `serial_run`.
#![tactic(auto)]

mod ended;
mod fits;
mod group;
mod joins;
pub mod laws;
mod marks;
mod medium_log;
mod refusal;
mod sync;
mod threads;
mod traces;
mod windows;
mod worker;
mod workers;

pub use copy_exchange::Cut;
pub use fits::MOST_WORKERS;
pub use mote_net::{LogLine, Report};
pub use serial_run::{RunError, run_serial};
pub use sync::SyncKind;
pub use worker_window::{Gate, MoteWindow, NoGate, WindowOut};
pub use workers::{run_inboxes, run_workers};
