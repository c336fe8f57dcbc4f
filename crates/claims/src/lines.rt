//! Lines, and how many there are.
ghost use Rattle.std.specs.Prelude.{◌≡◌, slice_get};
ghost use Rattle.mote_net.specs.Report.{report_of};
ghost use Rattle.claims.specs.PerMote.{count_in, is_counted, counted_in};
ghost use Rattle.claims.specs.Lines.{is_wanted, count_of, wanted_lines};
ghost use Rattle.claims.specs.Seen.{IsSeenBy};

use crate::order::Order;
use crate::seen::Seen;
use crate::trace::{Deed, Found, Watched, trace_of};
use mote_net::Report;

/// The lines of a deed, or those of them that have an order.
#[derive(Drop)]
pub struct Lines {
    pub deed: Deed,
    pub order: Option<Order>,
}

impl Lines {
    fn begin(&self, report: &Report) -> Seen
        ensures seen { IsSeenBy self.now.order (report_of report.now) result }
    {
        match &self.order {
            None => Seen {
                is_sorted: false,
                line: None,
                event: None,
            },
            Some(order) => order.begin(report),
        }
    }

    fn are_in_order(&self, report: &Report, seen: &mut Seen, line: &Found) -> bool
        requires { IsSeenBy self.now.order (report_of report.now) seen.old }
        ensures seen { IsSeenBy self.now.order (report_of report.now) seen.new }
        ensures value { result ≡ is_wanted self.now.order (report_of report.now) line.now }
    {
        match &self.order {
            None => true,
            Some(order) => order.admits(report, seen, line),
        }
    }

    fn counts(&self, report: &Report, watch: Watched, seen: &mut Seen, line: &Found) -> bool
        requires { IsSeenBy self.now.order (report_of report.now) seen.old }
        ensures seen { IsSeenBy self.now.order (report_of report.now) seen.new }
        ensures value { result ≡ is_counted self.now (report_of report.now) watch line.now }
    {
        self.deed.shows(watch, &line.line) && self.are_in_order(report, seen, line)
    }

    fn count_in(&self, report: &Report, watch: Watched, start: Seen) -> usize
        requires { IsSeenBy self.now.order (report_of report.now) start }
        ensures value { result ≡ count_in (is_wanted self.now.order (report_of report.now)) (report_of report.now)
            self.now.deed watch }
    {
        let mut seen = start;
        let mut count = 0;
        for (place, line) in trace_of(report, watch.mote).iter().enumerate() {
            let found = Found {
                mote: watch.mote,
                place,
                line: *line,
            };
            if self.counts(report, watch, &mut seen, &found) {
                count += 1;
            }
        }
        count
    }

    /// The number of lines in a report.
    pub fn count(&self, report: &Report) -> u128
        ensures value { result ≡ count_of self.now (report_of report.now) }
    {
        let start = self.begin(report);
        let mut count = 0;
        for watch in &self.deed.watches {
            count += self.count_in(report, *watch, start) as u128;
        }
        count
    }

    fn line_in(&self, report: &Report, watch: Watched, start: Seen, index: u64) -> Option<Found>
        requires { IsSeenBy self.now.order (report_of report.now) start }
        ensures value { result ≡ slice_get (counted_in self.now (report_of report.now) watch) index }
    {
        let mut seen = start;
        let mut left = index;
        for (place, line) in trace_of(report, watch.mote).iter().enumerate() {
            let found = Found {
                mote: watch.mote,
                place,
                line: *line,
            };
            if self.counts(report, watch, &mut seen, &found) {
                if left == 0 {
                    return Some(found);
                }
                left -= 1;
            }
        }
        None
    }

    /// The line at an index among the lines that are counted, mote by mote.
    pub fn line_at(&self, report: &Report, index: u64) -> Option<Found>
        ensures value { result ≡ slice_get (wanted_lines self.now (report_of report.now)) index }
    {
        let start = self.begin(report);
        let mut left = index;
        for watch in &self.deed.watches {
            let count = self.count_in(report, *watch, start) as u64;
            if left < count {
                return self.line_in(report, *watch, start, left);
            }
            left -= count;
        }
        None
    }
}
