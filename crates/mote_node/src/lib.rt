//! A mote of a net: its turns and its next wake.
#![tactic(auto)]

mod laws;
mod mote;
mod turn;

pub use laws::{halted_turn_does_nothing, turns_rise, wakes_in_time, wakes_later};
pub use mote::{Mote, MoteError, TurnOut};
