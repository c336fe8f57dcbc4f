//! The agenda of a net, with a bucket of pending events for each moment; the traces of the net; and the net's new
//! motes.
#![tactic(auto)]

mod agenda;
mod bucket;
mod mote;
mod spread;
mod traces;

pub use agenda::Agenda;
pub use bucket::{Bucket, PendingEvent};
pub use mote::new_mote;
pub use spread::Lists;
pub use traces::{add_lines, extend_trace};
