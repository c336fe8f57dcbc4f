//! The events of an order, seen along the lines of a mote.
ghost use Rattle.std.specs.Prelude.{◌≡◌, ℕ, true, ◌<◌, ◌∷◌, [], List, min, not, nat_lt, nat_le, is_some, slice_index_or};
ghost use Rattle.std.specs.Prelude.{if◌then◌else◌};
ghost use Rattle.std.specs.List.{list_any};
ghost use Rattle.mote_net.specs.Report.{ReportModel, report_of};
ghost use Rattle.trace_lines.specs.declared.line.Line.{Line};
ghost use Rattle.claims.specs.Orders.{is_related, is_ordered};
ghost use Rattle.claims.specs.Traces.{trace_at, lines_of, shows};
ghost use Rattle.claims.specs.Seen.{is_followed, reach, lasts, known_with, still_known, Stands, Extends, IsSeen};
ghost use Rattle.claims.specs.Seen.{rises_from, are_sorted};

use crate::order::{Order, Relation};
use crate::trace::{Found, Watched, trace_of};
use mote_net::Report;
use trace_lines::Line;

/// What is known of the events of an order once a line of a mote is decided: one event, which stands for all others.
#[derive(Clone, Copy)]
pub(crate) struct Seen {
    /// Whether the traces are sorted by moment.
    pub is_sorted: bool,
    /// The line.
    pub line: Option<Found>,
    /// Of the events to which the line has the relation, the one to which later lines of the mote have it longest.
    pub event: Option<Found>,
}

/// The moment from which on events are to be seen, and the event that stands for those before it.
#[derive(Clone, Copy)]
struct Start {
    from: u64,
    event: Option<Found>,
}

/// Returns whether lines are sorted by moment.
fn is_sorted(lines: &[Line]) -> bool
    ensures value { result ≡ rises_from 0 lines.now }
{
    let mut last = 0;
    for line in lines {
        if line.at < last {
            return false;
        }
        last = line.at;
    }
    true
}

/// The place of the first of sorted lines that isn't before a moment.
fn first_from(lines: &[Line], is_sorted: bool, from: u64) -> usize
    requires { is_sorted ≡ true → rises_from 0 lines.now ≡ true }
    ensures { (k : ℕ) (d : Line) → k < result → (slice_index_or lines.now k d).at < from }
{
    if is_sorted {
        lines.partition_point(|line| line.at < from)
    } else {
        0
    }
}

impl Found {
    /// Returns whether another line is this one, or a later one of the same mote.
    fn is_followed_by(&self, other: &Found) -> bool
        ensures value { result ≡ is_followed self.now other.now }
    {
        self.mote == other.mote && self.line.at <= other.line.at && self.place <= other.place
    }

    /// Returns whether lines of a mote have a relation to another event as long as to this one.
    fn is_outlasted_by(&self, other: &Found, mote: u16) -> bool
        ensures value { result ≡ lasts mote self.now other.now }
    {
        self.line.at < other.line.at
            || self.line.at == other.line.at
                && (other.mote != mote || self.mote == mote && self.place <= other.place)
    }
}

impl Relation {
    /// The last moment of an event to which a line may have the relation.
    fn reach(self, line: &Found) -> u64
        ensures value { result ≡ min (reach self line.now) 18446744073709551615 }
    {
        let moment = line.line.at;
        match self {
            Relation::After => moment,
            Relation::NotBefore => moment,
            Relation::Within(_) => moment,
            Relation::Followed(moments) => moment.saturating_add(moments),
        }
    }

    /// Returns whether an event is too late for a line to have the relation to it.
    fn is_passed_by(self, line: &Found, event: &Found) -> bool
        ensures value { result ≡ nat_lt (reach self line.now) event.now.line.at }
    {
        self.reach(line) < event.line.at
    }

    /// The event that is known once a line has been compared with one more event.
    fn known_with(self, line: &Found, event: &Found, known: Option<Found>) -> Option<Found>
        ensures value { result ≡ known_with self line.now event.now known }
    {
        match known {
            None => if self.relates(line, event) {
                Some(*event)
            } else {
                None
            },
            Some(other) => {
                if self.relates(line, event) && other.is_outlasted_by(event, line.mote) {
                    Some(*event)
                } else {
                    Some(other)
                }
            }
        }
    }

    /// The event that is known, if a line has the relation to it.
    fn still_known(self, line: &Found, known: Option<Found>) -> Option<Found>
        ensures value { result ≡ still_known self line.now known }
    {
        match known {
            None => None,
            Some(event) => if self.relates(line, &event) {
                Some(event)
            } else {
                None
            },
        }
    }
}

impl Order {
    /// What is known before any line.
    pub(crate) fn begin(&self, report: &Report) -> Seen
        ensures seen { IsSeen self.now (report_of report.now) result }
    {
        Seen {
            is_sorted: self.are_sorted(report),
            line: None,
            event: None,
        }
    }

    fn are_sorted(&self, report: &Report) -> bool
        ensures value { result ≡ are_sorted self.now (report_of report.now) }
    {
        self.event
            .watches
            .iter()
            .all(|watch| is_sorted(trace_of(report, watch.mote)))
    }

    fn start(&self, seen: Seen, line: &Found) -> Start
        ensures stands { (r : ReportModel) → IsSeen self.now r seen → Stands self.now r line.now
            (λ e. not (nat_le result.from e.line.at)) result.event }
    {
        match seen.line {
            None => Start {
                from: 0,
                event: None,
            },
            Some(before) => {
                if before.is_followed_by(line) {
                    Start {
                        from: self.relation.reach(&before),
                        event: self.relation.still_known(line, seen.event),
                    }
                } else {
                    Start {
                        from: 0,
                        event: None,
                    }
                }
            }
        }
    }

    fn known_with(
        &self,
        watch: Watched,
        line: &Found,
        event: &Found,
        known: Option<Found>,
    ) -> Option<Found>
        ensures value { result ≡ (if shows self.now.event watch event.now.line then known_with self.now.relation
            line.now event.now known else known) }
    {
        if self.event.shows(watch, &event.line) {
            self.relation.known_with(line, event, known)
        } else {
            known
        }
    }

    fn known_from(
        &self,
        report: &Report,
        is_sorted: bool,
        watch: Watched,
        line: &Found,
        start: Start,
    ) -> Option<Found>
        requires { is_sorted ≡ true → rises_from 0 (trace_at (report_of report.now) watch.mote) ≡ true }
        ensures extends { Extends self.now (report_of report.now) line.now start.from (watch ∷ []) start.event result }
    {
        let lines = trace_of(report, watch.mote);
        let first = first_from(lines, is_sorted, start.from);
        let mut known = start.event;
        for place in first..lines.len() {
            let event = Found {
                mote: watch.mote,
                place,
                line: lines[place],
            };
            if is_sorted && self.relation.is_passed_by(line, &event) {
                return known;
            }
            known = self.known_with(watch, line, &event, known);
        }
        known
    }

    fn known_after(
        &self,
        report: &Report,
        is_sorted: bool,
        line: &Found,
        start: Start,
    ) -> Option<Found>
        requires { is_sorted ≡ true → are_sorted self.now (report_of report.now) ≡ true }
        ensures extends { Extends self.now (report_of report.now) line.now start.from self.now.event.watches.items
            start.event result }
    {
        let mut known = start.event;
        for watch in &self.event.watches {
            known = self.known_from(
                report,
                is_sorted,
                *watch,
                line,
                Start {
                    from: start.from,
                    event: known,
                },
            );
        }
        known
    }

    fn see(&self, report: &Report, seen: Seen, line: &Found) -> Seen
        requires { IsSeen self.now (report_of report.now) seen }
        ensures seen { IsSeen self.now (report_of report.now) result }
        ensures some { is_some result.event ≡ list_any (is_related self.now.relation line.now) (lines_of (report_of
            report.now) self.now.event) }
    {
        Seen {
            is_sorted: seen.is_sorted,
            line: Some(*line),
            event: self.known_after(report, seen.is_sorted, line, self.start(seen, line)),
        }
    }

    /// Returns whether a line has, or doesn't have, the relation to some line of the event. If the traces of the event are
    /// sorted by moment, each is searched by halves for the moment up to which the last line of the mote was decided, and
    /// read from there. So all lines of a mote read the events once, but those at one moment are compared pairwise.
    pub(crate) fn admits(&self, report: &Report, seen: &mut Seen, line: &Found) -> bool
        requires { IsSeen self.now (report_of report.now) seen.old }
        ensures seen { IsSeen self.now (report_of report.now) seen.new }
        ensures value { result ≡ is_ordered self.now (report_of report.now) line.now }
    {
        *seen = self.see(report, *seen, line);
        let some = seen.event.is_some();
        if self.is_so { some } else { !some }
    }
}
