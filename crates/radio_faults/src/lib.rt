//! Faults of a net: broken links and silent motes, single copies that are lost or late, and motes that are off. Nothing in a
//! net is changed for a fault: the medium tells the fates of a packet, and then the faults change the fates of the copies
//! that they name; and a mote takes its turns, but not while it is off, and boots again after that. The laws of nets with
//! faults are for any kind of mote.
//!
//! The text of a fault is one line of regular words:
//!
//! ```text
//! link 1 to 2 is broken
//! mote 3 is silent
//! packet 3 of mote 2 is lost on the way to mote 5
//! packet 3 of mote 2 is lost
//! packet 3 of mote 2 is 4 late on the way to mote 5
//! mote 4 is off from 40 on
//! mote 4 is off from 40 to 80
//! mote 4 restarts at 40
//! ```
//!
//! A line is read exactly as it is written: its words are parted by one space, and its numbers have no zeros in front.
#![tactic(auto)]

mod error;
mod fates;
mod fault;
pub mod laws;
mod lines;
pub mod net_laws;
mod off;
mod text;
pub mod text_laws;
mod words;

pub use error::FaultsError;
pub use fates::fates_with;
pub use fault::Fault;
pub use lines::read_faults;
pub use off::{boots, is_off, next_boot, sooner};
pub use text::FaultText;
