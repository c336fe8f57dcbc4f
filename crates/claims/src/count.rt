//! What claims count.
ghost use Rattle.std.specs.Prelude.{◌≡◌};
ghost use Rattle.mote_net.specs.Report.{report_of};
ghost use Rattle.claims.specs.Counts.{number_of, rows_of};

use crate::lines::Lines;
use crate::medium::{Copies, Packets};
use mote_net::Report;

/// The number of lines of the report's text: each trace with its heading, the log with its heading, and the copies that
/// are left.
fn rows(report: &Report) -> u128
    ensures value { result ≡ rows_of (report_of report.now) }
{
    let mut lines = 0;
    for trace in &report.traces {
        lines += trace.len() as u128;
    }
    lines + report.traces.len() as u128 + report.medium.len() as u128 + 2
}

/// What a claim counts.
#[derive(Drop)]
pub enum Count {
    /// Lines of traces.
    Lines(Lines),
    /// Packets that were sent.
    Packets(Packets),
    /// Copies of packets in the medium.
    Copies(Copies),
    /// Copies that are still on their way at the end.
    Left,
    /// Lines of the report's text.
    Rows,
}

impl Count {
    /// The number in a report.
    pub fn number(&self, report: &Report) -> u128
        ensures value { result ≡ number_of self.now (report_of report.now) }
    {
        match self {
            Count::Lines(lines) => lines.count(report),
            Count::Packets(packets) => packets.count(report),
            Count::Copies(copies) => copies.count(report),
            Count::Left => u128::from(report.left),
            Count::Rows => rows(report),
        }
    }
}
