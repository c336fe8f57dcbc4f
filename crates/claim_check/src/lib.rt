//! Checks claims about the run of a scenario, or about its runs with sets of faults, from the bytes of both to the bytes
//! of the answers; and the command that does it.
#![tactic(auto)]

mod answers;
mod checking;
mod command;
mod command_line;
mod conflicts;
mod error;
mod fault_line;
mod faults;
mod input;
mod names;
mod numbers;
mod output;
mod plan;
mod process;
mod progress;
mod surveying;

pub use answers::Answers;
pub use checking::{check, check_serial, report, report_serial};
pub use command::{answer, answer_serial, check_asked, run_command, status_of};
pub use command_line::{Asked, Options, asked_by, options_by};
pub use error::CheckError;
pub use input::run_input;
pub use plan::Faults;
pub use process::run_process;
pub use surveying::{MOST, check_serial_with_faults, check_with_faults};
