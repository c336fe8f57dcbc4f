//! The report of a run of a net.
use radio_packet::{Fate, Sent};
use trace_lines::Line;

/// A packet with the fates of its copies, sorted by receiver.
#[derive(Debug, Drop)]
pub struct LogLine {
    pub sent: Sent,
    pub fates: Vec<Fate>,
}

/// The trace of each mote, by its number; the log of the medium, in the order of sending; and the number of copies
/// that were still on their way at the end.
#[derive(Debug, Drop)]
pub struct Report {
    pub traces: Vec<Vec<Line>>,
    pub medium: Vec<LogLine>,
    pub left: u64,
}
