//! The lines of a report that fit a pattern.
ghost use Rattle.std.specs.Prelude.{◌≡◌, ◌++◌, filter, OnOk, IfOk};
ghost use Rattle.std.specs.List.{list_any};
ghost use Rattle.mote_net.specs.Report.{report_of};
ghost use Rattle.claims.specs.Patterns.{fits};
ghost use Rattle.claims.specs.Traces.{trace_at, lines_of_mote, lines_of, shows};

use crate::pattern::Pattern;
use crate::set::Span;
use mote_net::Report;
use std::alloc::{AllocError, Global};
use trace_lines::{Line, What};

/// A mote, and the period in which its lines count.
#[derive(Clone, Copy)]
pub struct Watched {
    pub mote: u16,
    pub when: Span,
}

/// The lines of some motes, each in its period, that fit one of some patterns.
#[derive(Drop)]
pub struct Deed {
    pub watches: Vec<Watched>,
    pub patterns: Vec<Pattern>,
}

/// A line of a report, with its mote and its place in the mote's trace.
#[derive(Clone, Copy)]
pub struct Found {
    pub mote: u16,
    pub place: usize,
    pub line: Line,
}

impl Deed {
    fn add_lines(
        &self,
        report: &Report,
        watch: Watched,
        found: &mut Vec<Found>,
    ) -> Result<(), AllocError>
        ensures added { OnOk result (found.new.items ≡ found.old.items
            ++ filter (λ f. shows self.now watch f.line) (lines_of_mote (report_of report.now) watch.mote)) }
    {
        for (place, line) in trace_of(report, watch.mote).iter().enumerate() {
            if self.shows(watch, line) {
                found.push(Found {
                    mote: watch.mote,
                    place,
                    line: *line,
                })?;
            }
        }
        Ok(())
    }

    /// Returns the lines of the deed, mote by mote.
    ///
    /// # Errors
    /// `AllocError` if an allocation fails.
    pub fn lines(&self, alloc: Global, report: &Report) -> Result<Vec<Found>, AllocError>
        ensures value { IfOk result (λ ls. ls.items ≡ lines_of (report_of report.now) self.now) }
    {
        let mut found = Vec::new(alloc);
        for watch in &self.watches {
            self.add_lines(report, *watch, &mut found)?;
        }
        Ok(found)
    }

    fn fits(&self, what: &What) -> bool
        ensures value { result ≡ list_any (λ p. fits p what.now) self.now.patterns.items }
    {
        self.patterns.iter().any(|pattern| pattern.fits(what))
    }

    /// Returns whether a line of a mote is in its period, and fits one of the patterns.
    pub fn shows(&self, watch: Watched, line: &Line) -> bool
        ensures value { result ≡ shows self.now watch line.now }
    {
        watch.when.has(line.at) && self.fits(&line.what)
    }
}

/// The trace of a mote; a mote that isn't in the report has no lines.
pub fn trace_of(report: &Report, mote: u16) -> &[Line]
    ensures value { result.now ≡ trace_at (report_of report.now) mote }
{
    match report.traces.get(usize::from(mote)) {
        Some(trace) => trace.as_slice(),
        None => &[],
    }
}
