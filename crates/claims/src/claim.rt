//! Claims.
ghost use Rattle.std.specs.Prelude.{◌≡◌};
ghost use Rattle.mote_net.specs.Report.{report_of};
ghost use Rattle.claims.specs.Claims.{test_holds, case_holds, holding_in, holds_in};

use crate::compared::Comparison;
use crate::count::Count;
use crate::limits::Limits;
use crate::ratio::Ratio;
use crate::set::Set;
use crate::trace::Deed;
use mote_net::Report;

/// A test of a report.
#[derive(Drop)]
pub enum Test {
    /// A number is within limits.
    Count(Count, Limits),
    /// A number times a factor is at most another number times a factor, or below it.
    Ratio(Ratio),
    /// The values of the lines are in these sets, one by one, in the order of the moments.
    Values(Deed, Vec<Set>),
    /// The values of the lines are these, in any order.
    AnyOrder(Deed, Vec<u64>),
    /// The value of the last line is in this set.
    Last(Deed, Set),
    /// The values of the lines compare in some way with those of other lines.
    Compared(Comparison),
}

/// A case: tests that all hold, or don't.
#[derive(Drop)]
pub struct Case {
    pub tests: Vec<Test>,
}

/// A claim: how many of some cases hold.
#[derive(Drop)]
pub struct Claim {
    pub limits: Limits,
    pub cases: Vec<Case>,
}

impl Test {
    /// Returns whether the test holds in a report.
    pub fn holds(&self, report: &Report) -> bool
        ensures value { result ≡ test_holds self.now (report_of report.now) }
    {
        match self {
            Test::Count(count, limits) => limits.admits(count.number(report)),
            Test::Ratio(ratio) => ratio.holds(report),
            Test::Values(deed, sets) => deed.have_values(report, sets.as_slice()),
            Test::AnyOrder(deed, values) => deed.have_in_any_order(report, values.as_slice()),
            Test::Last(deed, set) => deed.last_has(report, set),
            Test::Compared(comparison) => comparison.holds(report),
        }
    }
}

impl Case {
    /// Returns whether all tests of the case hold in a report.
    pub fn holds(&self, report: &Report) -> bool
        ensures value { result ≡ case_holds self.now (report_of report.now) }
    {
        self.tests.iter().all(|test| test.holds(report))
    }
}

/// The number of the cases of a claim that hold in a report.
pub fn holding(claim: &Claim, report: &Report) -> usize
    ensures value { result ≡ holding_in claim.now (report_of report.now) }
{
    claim.cases.iter().filter(|case| case.holds(report)).count()
}

/// Returns whether a report keeps a claim.
pub fn holds(claim: &Claim, report: &Report) -> bool
    ensures exact { result ≡ holds_in claim.now (report_of report.now) }
{
    claim.limits.admits(holding(claim, report) as u128)
}
