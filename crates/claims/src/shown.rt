//! The line that shows that a test is, or isn't, met.
ghost use Rattle.std.specs.Prelude.{◌≡◌};
ghost use Rattle.mote_net.specs.Report.{report_of};
ghost use Rattle.claims.specs.Witnesses.{line_beyond, spare_line, line_reaching, shown_line, shown_in};

use crate::{Case, Count, Found, Lines, Test};
use mote_net::Report;

fn line_beyond(lines: &Lines, report: &Report, most: Option<u64>) -> Option<Found>
    ensures value { result ≡ line_beyond lines.now (report_of report.now) most }
{
    match most {
        None => None,
        Some(most) => lines.line_at(report, most),
    }
}

/// The first line too many, if a test counts lines and there are too many.
pub(crate) fn spare_line(test: &Test, report: &Report) -> Option<Found>
    ensures value { result ≡ spare_line test.now (report_of report.now) }
{
    match test {
        Test::Count(Count::Lines(lines), limits) => line_beyond(lines, report, limits.most),
        Test::Count(_, _)
        | Test::Ratio(_)
        | Test::Values(_, _)
        | Test::AnyOrder(_, _)
        | Test::Last(_, _)
        | Test::Compared(_) => None,
    }
}

fn line_reaching(lines: &Lines, report: &Report, least: u64) -> Option<Found>
    ensures value { result ≡ line_reaching lines.now (report_of report.now) least }
{
    if least == 0 {
        None
    } else {
        lines.line_at(report, least - 1)
    }
}

fn shown_line(test: &Test, report: &Report) -> Option<Found>
    ensures value { result ≡ shown_line test.now (report_of report.now) }
{
    match test {
        Test::Count(Count::Lines(lines), limits) => line_reaching(lines, report, limits.least),
        Test::Count(_, _)
        | Test::Ratio(_)
        | Test::Values(_, _)
        | Test::AnyOrder(_, _)
        | Test::Last(_, _)
        | Test::Compared(_) => None,
    }
}

/// The line with which the first test of a case is met, counted mote by mote and not in time, if this test wants a number
/// of lines.
pub(crate) fn shown_in(case: &Case, report: &Report) -> Option<Found>
    ensures value { result ≡ shown_in (report_of report.now) case.now.tests.items }
{
    match case.tests.first() {
        None => None,
        Some(test) => shown_line(test, report),
    }
}
