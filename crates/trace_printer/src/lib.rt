//! Writes the report of a net's run as text, on one thread or with workers.
#![tactic(auto)]

mod by_workers;
mod error;
mod lines;
mod names;
mod numbered;
mod output;
mod page;
mod report;
mod report_lines;
mod round;
mod short;
mod words;

pub use by_workers::write_report_by;
pub use error::PrintError;
pub use numbered::{count_lines, put_part};
pub use output::WriteFault;
pub use page::Page;
pub use report::{write_medium, write_report};
