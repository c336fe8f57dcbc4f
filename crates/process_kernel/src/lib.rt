//! The process kernel of a mote: its processes, their events, polls and timers, and the packets that it receives.
#![tactic(auto)]

mod advance;
mod boot;
mod call;
mod delivery;
mod event;
mod kernel;
mod laws;
mod list;
mod look;
mod machine;
mod operation;
mod polls;
mod post;
mod process;
mod radio;
mod ring;
mod room;
mod run;
mod table;
mod timer;

pub use kernel::{Kernel, KernelError, Ran};
pub use laws::{halted_for_good, left_is_pending};
pub use radio_packet::{Arrival, Sent};
pub use trace_lines::{Line, Out, What};
