//! Laws of the traces of a kernel. Before them, the delivery of events: the traces in which events are delivered in the
//! order in which they were accepted.
#![tactic(auto)]

pub mod delivery;
pub mod laws;
