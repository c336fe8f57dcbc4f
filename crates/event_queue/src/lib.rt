//! The event queue of a mote: posted events in the order in which they were accepted, each with its serial.
#![tactic(auto)]

mod queue;

pub use queue::{EventQueue, Full, Posted};
