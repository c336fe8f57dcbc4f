//! The values of lines, in the order of the moments.
ghost use Rattle.std.specs.Prelude.{◌≡◌, ◌==◌, ◌&&◌, length, count_by};
ghost use Rattle.std.specs.List.{list_all, list_any, enumerate_from};
ghost use Rattle.mote_net.specs.Report.{report_of};
ghost use Rattle.claims.specs.Sets.{is_this};
ghost use Rattle.claims.specs.Traces.{lines_of};
ghost use Rattle.claims.specs.PerMote.{any_in, count_in, has_mark};
ghost use Rattle.claims.specs.Values.{is_earlier, value_of, has_value, is_such, is_there, have_values, is_value};
ghost use Rattle.claims.specs.Values.{is_as_often, have_in_any_order, is_last, ends_in, last_has};

use crate::set::{Set, is_this};
use crate::trace::{Deed, Found, Watched, trace_of};
use crate::what::Said;
use mote_net::Report;

impl Found {
    /// Returns whether this line is earlier than another one, in the order of the lines of several motes: by their
    /// moments, then by their motes, then by their places in the trace.
    pub fn is_earlier(&self, other: &Found) -> bool
        ensures value { result ≡ is_earlier self.now other.now }
    {
        self.line.at < other.line.at
            || self.line.at == other.line.at
                && (self.mote < other.mote || self.mote == other.mote && self.place < other.place)
    }

    /// The value of the line, if it has one.
    pub fn value(&self) -> Option<u64>
        ensures value { result ≡ value_of self.now }
    {
        Said::by(&self.line.what).value
    }

    fn has_value(&self, set: &Set) -> bool
        ensures value { result ≡ has_value set.now self.now }
    {
        match self.value() {
            None => false,
            Some(number) => set.has(number),
        }
    }

    fn is_value(&self, number: u64) -> bool
        ensures value { result ≡ is_value number self.now }
    {
        is_this(number, self.value())
    }
}

fn count_equal(values: &[u64], number: u64) -> usize
    ensures value { result ≡ count_by (λ v. v == number) values.now }
{
    values.iter().filter(|value| **value == number).count()
}

/// Lines that are counted: any line, those earlier than a line, those with a value, or those with the value of a line.
#[derive(Clone, Copy)]
pub(crate) enum Mark {
    Any,
    EarlierThan(Found),
    Value(u64),
    SameValue(Found),
}

impl Mark {
    fn is_on(self, line: &Found) -> bool
        ensures value { result ≡ has_mark self line.now }
    {
        match self {
            Mark::Any => true,
            Mark::EarlierThan(other) => line.is_earlier(&other),
            Mark::Value(number) => line.is_value(number),
            Mark::SameValue(other) => other.has_same_value(line),
        }
    }
}

impl Deed {
    fn count_marked_in(&self, report: &Report, mark: Mark, watch: Watched) -> usize
        ensures value { result ≡ count_in (has_mark mark) (report_of report.now) self.now watch }
    {
        trace_of(report, watch.mote)
            .iter()
            .enumerate()
            .filter(|(place, line)| {
                self.shows(watch, line)
                    && mark.is_on(&Found {
                        mote: watch.mote,
                        place: *place,
                        line: **line,
                    })
            })
            .count()
    }

    pub(crate) fn count_marked(&self, report: &Report, mark: Mark) -> u128
        ensures value { result ≡ count_by (has_mark mark) (lines_of (report_of report.now) self.now) }
    {
        let mut count = 0;
        for watch in &self.watches {
            count += self.count_marked_in(report, mark, *watch) as u128;
        }
        count
    }

    fn has_length(&self, report: &Report, wanted: usize) -> bool
        ensures value { result ≡ (wanted == length (lines_of (report_of report.now) self.now)) }
    {
        wanted as u128 == self.count_marked(report, Mark::Any)
    }

    fn is_at(&self, report: &Report, index: usize, line: &Found) -> bool
        ensures value { result ≡ (count_by (λ e. is_earlier e line.now) (lines_of (report_of report.now) self.now) ==
            index) }
    {
        self.count_marked(report, Mark::EarlierThan(*line)) == index as u128
    }

    fn is_there_in(&self, report: &Report, index: usize, set: &Set, watch: Watched) -> bool
        ensures value { result ≡ any_in (is_such (lines_of (report_of report.now) self.now) index set.now) (report_of
            report.now) self.now watch }
    {
        trace_of(report, watch.mote).iter().enumerate().any(|(place, line)| {
            self.shows(watch, line)
                && self.is_such(
                    report,
                    index,
                    set,
                    &Found {
                        mote: watch.mote,
                        place,
                        line: *line,
                    },
                )
        })
    }

    fn is_such(&self, report: &Report, index: usize, set: &Set, line: &Found) -> bool
        ensures value { result ≡ is_such (lines_of (report_of report.now) self.now) index set.now line.now }
    {
        line.has_value(set) && self.is_at(report, index, line)
    }

    fn is_there_somewhere(&self, report: &Report, index: usize, set: &Set) -> bool
        ensures value { result ≡ list_any (any_in (is_such (lines_of (report_of report.now) self.now) index set.now)
            (report_of report.now) self.now) self.now.watches.items }
    {
        self.watches
            .iter()
            .any(|watch| self.is_there_in(report, index, set, *watch))
    }

    fn is_there(&self, report: &Report, index: usize, set: &Set) -> bool
        ensures value { result ≡ is_there (lines_of (report_of report.now) self.now) index set.now }
    {
        self.is_there_somewhere(report, index, set)
    }

    fn are_there(&self, report: &Report, sets: &[Set]) -> bool
        ensures value { result ≡ list_all (λ e. is_there (lines_of (report_of report.now) self.now) e.0 e.1)
            (enumerate_from 0 sets.now) }
    {
        sets.iter()
            .enumerate()
            .all(|(index, set)| self.is_there(report, index, set))
    }

    /// Returns whether the values of the lines are in these sets, one by one, in the order of the moments.
    pub fn have_values(&self, report: &Report, sets: &[Set]) -> bool
        ensures value { result ≡ have_values sets.now (lines_of (report_of report.now) self.now) }
    {
        self.has_length(report, sets.len()) && self.are_there(report, sets)
    }

    fn has_as_often(&self, report: &Report, number: u64, values: &[u64]) -> bool
        ensures value { result ≡ is_as_often values.now (lines_of (report_of report.now) self.now) number }
    {
        self.count_marked(report, Mark::Value(number)) == count_equal(values, number) as u128
    }

    fn has_each_as_often(&self, report: &Report, values: &[u64]) -> bool
        ensures value { result ≡ list_all (is_as_often values.now (lines_of (report_of report.now) self.now))
            values.now }
    {
        values
            .iter()
            .all(|value| self.has_as_often(report, *value, values))
    }

    /// Returns whether the values of the lines are these, in any order.
    pub fn have_in_any_order(&self, report: &Report, values: &[u64]) -> bool
        ensures value { result ≡ have_in_any_order values.now (lines_of (report_of report.now) self.now) }
    {
        self.has_length(report, values.len()) && self.has_each_as_often(report, values)
    }

    fn has_later_in(&self, report: &Report, line: &Found, watch: Watched) -> bool
        ensures value { result ≡ any_in (is_earlier line.now) (report_of report.now) self.now watch }
    {
        trace_of(report, watch.mote).iter().enumerate().any(|(place, other)| {
            self.shows(watch, other)
                && line.is_earlier(&Found {
                    mote: watch.mote,
                    place,
                    line: *other,
                })
        })
    }

    fn has_later_somewhere(&self, report: &Report, line: &Found) -> bool
        ensures value { result ≡ list_any (any_in (is_earlier line.now) (report_of report.now) self.now)
            self.now.watches.items }
    {
        self.watches
            .iter()
            .any(|watch| self.has_later_in(report, line, *watch))
    }

    pub(crate) fn is_last(&self, report: &Report, line: &Found) -> bool
        ensures value { result ≡ is_last (lines_of (report_of report.now) self.now) line.now }
    {
        !self.has_later_somewhere(report, line)
    }

    fn ends_in(&self, report: &Report, set: &Set, line: &Found) -> bool
        ensures value { result ≡ ends_in set.now (lines_of (report_of report.now) self.now) line.now }
    {
        line.has_value(set) && self.is_last(report, line)
    }

    fn last_has_in(&self, report: &Report, set: &Set, watch: Watched) -> bool
        ensures value { result ≡ any_in (ends_in set.now (lines_of (report_of report.now) self.now)) (report_of
            report.now) self.now watch }
    {
        trace_of(report, watch.mote).iter().enumerate().any(|(place, line)| {
            self.shows(watch, line)
                && self.ends_in(
                    report,
                    set,
                    &Found {
                        mote: watch.mote,
                        place,
                        line: *line,
                    },
                )
        })
    }

    fn last_has_somewhere(&self, report: &Report, set: &Set) -> bool
        ensures value { result ≡ list_any (any_in (ends_in set.now (lines_of (report_of report.now) self.now))
            (report_of report.now) self.now) self.now.watches.items }
    {
        self.watches
            .iter()
            .any(|watch| self.last_has_in(report, set, *watch))
    }

    /// Returns whether there is a last line, and its value is in the set.
    pub fn last_has(&self, report: &Report, set: &Set) -> bool
        ensures value { result ≡ last_has set.now (lines_of (report_of report.now) self.now) }
    {
        self.last_has_somewhere(report, set)
    }
}
