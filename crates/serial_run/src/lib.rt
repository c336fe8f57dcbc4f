//! The run of a net on one thread, which takes all turns in the order of moment, then mote number; the same run with
//! faults; and the laws of such runs. Nothing in the net is changed for a fault: the medium tells the fates of a packet, and
//! then the faults change them; and while a mote is off, nothing happens in its turns; after
//! that it is made anew.
#![tactic(auto)]

mod engine;
mod error;
pub mod laws;
mod sends;
mod serial;

pub use error::RunError;
pub use mote_net::{LogLine, Report};
pub use serial::{run_serial, run_with_faults};
