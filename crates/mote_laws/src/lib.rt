//! Laws of the traces of a mote.
#![tactic(auto)]

pub mod laws;
