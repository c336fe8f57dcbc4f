//! Packets and copies in the log of the medium.
ghost use Rattle.std.specs.Prelude.{◌≡◌, ◌≤◌, ◌*◌, length, count_by};
ghost use Rattle.mote_net.specs.Report.{report_of, line_model};
ghost use Rattle.claims.specs.Medium.{is_such_packet, packets_of, is_such_copy, has_fate, copies_of, copies_in};

use crate::set::{Set, Span, wants};
use mote_net::{LogLine, Report};
use radio_packet::{Fate, Sent};

/// The packets that some motes send in some moments.
#[derive(Drop)]
pub struct Packets {
    pub sender: Option<Set>,
    pub when: Span,
}

/// What becomes of a copy in the medium.
#[derive(Clone, Copy)]
pub enum CopyFate {
    /// The medium loses it; it was sent in these moments.
    Lost(Span),
    /// The medium loses it, or it arrives by this moment.
    Due(u64),
}

/// The copies to some motes of which something becomes.
#[derive(Drop)]
pub struct Copies {
    pub to: Option<Set>,
    pub fate: CopyFate,
}

impl Packets {
    fn has(&self, sent: &Sent) -> bool
        ensures value { result ≡ is_such_packet self.now sent.now }
    {
        self.when.has(sent.at) && wants(&self.sender, Some(u64::from(sent.sender)))
    }

    fn count_sent(&self, report: &Report) -> usize
        ensures value { result ≡ count_by (λ l. is_such_packet self.now l.sent) report.now.medium.items }
    {
        report
            .medium
            .iter()
            .filter(|line| self.has(&line.sent))
            .count()
    }

    /// The number of such packets.
    pub fn count(&self, report: &Report) -> u128
        ensures value { result ≡ packets_of self.now (report_of report.now) }
    {
        self.count_sent(report) as u128
    }
}

impl CopyFate {
    fn is_of(&self, sent: &Sent, arrival: Option<u64>) -> bool
        ensures value { result ≡ has_fate self.now sent.now arrival }
    {
        match self {
            CopyFate::Lost(when) => arrival.is_none() && when.has(sent.at),
            CopyFate::Due(end) => match arrival {
                None => true,
                Some(at) => at <= *end,
            },
        }
    }
}

impl Copies {
    fn has(&self, sent: &Sent, fate: &Fate) -> bool
        ensures value { result ≡ is_such_copy self.now sent.now fate.now }
    {
        wants(&self.to, Some(u64::from(fate.to))) && self.fate.is_of(sent, fate.at)
    }

    fn count_in(&self, line: &LogLine) -> usize
        ensures value { result ≡ copies_in self.now (line_model line.now) }
    {
        line.fates
            .iter()
            .filter(|fate| self.has(&line.sent, fate))
            .count()
    }

    /// The number of such copies.
    pub fn count(&self, report: &Report) -> u128
        ensures value { result ≡ copies_of self.now (report_of report.now) }
    {
        let mut count = 0;
        for line in &report.medium {
            count += self.count_in(line) as u128;
        }
        count
    }
}
