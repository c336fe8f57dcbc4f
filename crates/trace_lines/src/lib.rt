//! The lines of a trace, and the output of a mote's run: its lines and the packets that the mote sent.
#![tactic(auto)]

mod line;
mod out;

pub use line::{Line, What};
pub use out::Out;
