//! The radio medium: the motes that hear a mote, the delay of a packet, and the fates of its copies.
#![tactic(auto)]

mod error;
mod groups;
pub mod laws;
mod link;
mod losses;
mod medium;
mod place;
mod reach;

pub use error::MediumError;
pub use losses::Loss;
pub use medium::Medium;
pub use place::Place;
pub use radio_packet::{Fate, RadioCopy};
