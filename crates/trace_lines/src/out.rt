//! The output of a kernel's runs.

ghost use Rattle.std.specs.Prelude.{◌≡◌, []};

use crate::line::Line;
use radio_packet::Sent;
use std::alloc::Global;

/// The output of a kernel's runs: the lines and the sent packets, each in order.
#[derive(Debug, Drop)]
pub struct Out {
    pub lines: Vec<Line>,
    pub sends: Vec<Sent>,
}

impl Out {
    /// An output with no lines and no packets.
    pub fn new(alloc: Global) -> Out
        ensures lines { result.lines.items ≡ [] }
        ensures sends { result.sends.items ≡ [] }
    {
        Out {
            lines: Vec::new(alloc),
            sends: Vec::new(alloc),
        }
    }
}
