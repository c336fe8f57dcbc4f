//! A net to be simulated: the last moment, the medium with the places of the motes, and for each mote its program and
//! the length of its queue. The report of a run: the traces, and the fate of each packet. This crate reads and writes
//! no texts. `net_scenario` reads a net from a text, and `trace_printer` writes a report as a text. The crates that
//! run a net depend on this crate, and not on those two, so they can be checked before those two.
#![tactic(auto)]

mod net;
mod program_name;
mod programs;
mod report;

pub use net::{MoteSetup, Net};
pub use program_name::ProgramName;
pub use programs::NamedProgram;
pub use report::{LogLine, Report};
