//! The timers of a mote: the timer list, and the list of the callbacks that wait for their timers.
#![tactic(auto)]

mod callbacks;
pub mod laws;
mod number_list;
mod timer;
mod timers;

pub use callbacks::Callbacks;
pub use timers::Timers;
