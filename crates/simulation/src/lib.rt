//! Simulates motes, from the bytes of a scenario to the bytes of its report; and the command that does it.
#![tactic(auto)]

mod by_workers;
mod command;
mod command_line;
mod end_to_end;
mod error;
mod fault_line;
mod input;
pub mod laws;
mod options;
mod process;

pub use command::{run_command, simulate_alone, simulate_asked, status_of};
pub use command_line::{Asked, asked_by};
pub use end_to_end::{simulate, simulate_serial};
pub use error::SimError;
pub use input::{InputError, read_text};
pub use net_scenario::ScenarioError;
pub use options::{CutKind, Options};
pub use process::run_process;
pub use trace_printer::PrintError;
pub use window_workers::{Gate, NoGate, RunError, SyncKind};
