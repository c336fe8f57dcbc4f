//! The values of two deeds, compared.
ghost use Rattle.std.specs.Prelude.{◌≡◌, ◌==◌, length};
ghost use Rattle.std.specs.List.{list_any, list_all};
ghost use Rattle.mote_net.specs.Report.{report_of};
ghost use Rattle.claims.specs.Traces.{lines_of};
ghost use Rattle.claims.specs.PerMote.{any_in, is_placed, is_like, meets_so};
ghost use Rattle.claims.specs.Compared.{has_same_value, often, rank, meets, is_compared};

use crate::limits::Limits;
use crate::set::is_this;
use crate::trace::{Deed, Found, Watched, trace_of};
use crate::values::Mark;
use mote_net::Report;

/// How the values of the lines of two deeds are compared. Two lines that have no value have the same value.
#[derive(Clone, Copy)]
pub enum Way {
    /// The last lines have the same value.
    Last,
    /// The lines have the same values in the order of the moments.
    InTime,
    /// The lines have the same values, each as often.
    AnyOrder,
    /// Each value of the first lines is that of so many of the others.
    Each(Limits),
}

/// The lines of a deed, whose values are compared with those of another deed.
#[derive(Drop)]
pub struct Comparison {
    pub deed: Deed,
    pub way: Way,
    pub other: Deed,
}

/// A place in time among the lines of a deed.
#[derive(Clone, Copy)]
enum Place {
    /// So many lines are earlier.
    After(u128),
    /// No line is later.
    Last,
}

impl Found {
    /// Returns whether both lines have the same value, or neither has one.
    pub fn has_same_value(&self, other: &Found) -> bool
        ensures value { result ≡ has_same_value self.now other.now }
    {
        match self.value() {
            None => other.value().is_none(),
            Some(value) => is_this(value, other.value()),
        }
    }
}

impl Deed {
    fn often(&self, report: &Report, line: &Found) -> u128
        ensures value { result ≡ often (lines_of (report_of report.now) self.now) line.now }
    {
        self.count_marked(report, Mark::SameValue(*line))
    }

    fn rank(&self, report: &Report, line: &Found) -> u128
        ensures value { result ≡ rank (lines_of (report_of report.now) self.now) line.now }
    {
        self.count_marked(report, Mark::EarlierThan(*line))
    }

    fn is_placed(&self, report: &Report, place: Place, line: &Found) -> bool
        ensures value { result ≡ is_placed (lines_of (report_of report.now) self.now) place line.now }
    {
        match place {
            Place::After(number) => self.rank(report, line) == number,
            Place::Last => self.is_last(report, line),
        }
    }

    fn is_like(&self, report: &Report, place: Place, model: &Found, line: &Found) -> bool
        ensures value { result ≡ is_like (lines_of (report_of report.now) self.now) place model.now line.now }
    {
        model.has_same_value(line) && self.is_placed(report, place, line)
    }

    fn has_like_in(&self, report: &Report, place: Place, model: &Found, watch: Watched) -> bool
        ensures value { result ≡ any_in (is_like (lines_of (report_of report.now) self.now) place model.now) (report_of
            report.now) self.now watch }
    {
        trace_of(report, watch.mote).iter().enumerate().any(|(index, line)| {
            self.shows(watch, line)
                && self.is_like(
                    report,
                    place,
                    model,
                    &Found {
                        mote: watch.mote,
                        place: index,
                        line: *line,
                    },
                )
        })
    }

    fn has_like_somewhere(&self, report: &Report, place: Place, model: &Found) -> bool
        ensures value { result ≡ list_any (any_in (is_like (lines_of (report_of report.now) self.now) place model.now)
            (report_of report.now) self.now) self.now.watches.items }
    {
        self.watches
            .iter()
            .any(|watch| self.has_like_in(report, place, model, *watch))
    }

    /// Returns whether a line with the value of a line of another deed is at a place in time.
    fn has_like(&self, report: &Report, place: Place, model: &Found) -> bool
        ensures value { result ≡ list_any (is_like (lines_of (report_of report.now) self.now) place model.now)
            (lines_of (report_of report.now) self.now) }
    {
        self.has_like_somewhere(report, place, model)
    }
}

impl Comparison {
    fn meets(&self, report: &Report, line: &Found) -> bool
        ensures value { result ≡ meets self.now.way (lines_of (report_of report.now) self.now.deed) (lines_of
            (report_of report.now) self.now.other) line.now }
    {
        match self.way {
            Way::Last => {
                self.deed.is_last(report, line) && self.other.has_like(report, Place::Last, line)
            }
            Way::InTime => {
                let place = Place::After(self.deed.rank(report, line));
                self.other.has_like(report, place, line)
            }
            Way::AnyOrder => self.deed.often(report, line) == self.other.often(report, line),
            Way::Each(limits) => limits.admits(self.other.often(report, line)),
        }
    }

    fn meets_so(&self, report: &Report, is_so: bool, line: &Found) -> bool
        ensures value { result ≡ meets_so self.now (report_of report.now) is_so line.now }
    {
        let is_met = self.meets(report, line);
        if is_so { is_met } else { !is_met }
    }

    fn has_in(&self, report: &Report, is_so: bool, watch: Watched) -> bool
        ensures value { result ≡ any_in (meets_so self.now (report_of report.now) is_so) (report_of report.now)
            self.now.deed watch }
    {
        trace_of(report, watch.mote).iter().enumerate().any(|(index, line)| {
            self.deed.shows(watch, line)
                && self.meets_so(
                    report,
                    is_so,
                    &Found {
                        mote: watch.mote,
                        place: index,
                        line: *line,
                    },
                )
        })
    }

    fn has_somewhere(&self, report: &Report, is_so: bool) -> bool
        ensures value { result ≡ list_any (any_in (meets_so self.now (report_of report.now) is_so) (report_of
            report.now) self.now.deed) self.now.deed.watches.items }
    {
        self.deed
            .watches
            .iter()
            .any(|watch| self.has_in(report, is_so, *watch))
    }

    fn some_meets(&self, report: &Report) -> bool
        ensures value { result ≡ list_any (meets self.now.way (lines_of (report_of report.now) self.now.deed) (lines_of
            (report_of report.now) self.now.other)) (lines_of (report_of report.now) self.now.deed) }
    {
        self.has_somewhere(report, true)
    }

    fn each_meets(&self, report: &Report) -> bool
        ensures value { result ≡ list_all (meets self.now.way (lines_of (report_of report.now) self.now.deed) (lines_of
            (report_of report.now) self.now.other)) (lines_of (report_of report.now) self.now.deed) }
    {
        !self.has_somewhere(report, false)
    }

    fn are_as_many(&self, report: &Report) -> bool
        ensures value { result ≡ (length (lines_of (report_of report.now) self.now.deed) ==
            length (lines_of (report_of report.now) self.now.other)) }
    {
        self.deed.count_marked(report, Mark::Any) == self.other.count_marked(report, Mark::Any)
    }

    /// Returns whether the values of the two deeds compare as the claim says.
    pub fn holds(&self, report: &Report) -> bool
        ensures value { result ≡ is_compared self.now (report_of report.now) }
    {
        match self.way {
            Way::Last => self.some_meets(report),
            Way::Each(_) => self.each_meets(report),
            Way::InTime | Way::AnyOrder => self.are_as_many(report) && self.each_meets(report),
        }
    }
}
