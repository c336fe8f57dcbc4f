//! The result of a single mote's window (`mote_window`).

use mote_node::Mote;
use process_kernel::Line;
use radio_packet::Sent;

/// The mote after its window, the lines and packets of its turns in the window, and the moment of its next wake, if it
/// has one.
#[derive(Drop)]
pub struct WindowOut {
    pub mote: Mote,
    pub lines: Vec<Line>,
    pub sends: Vec<Sent>,
    pub wake: Option<u64>,
}
