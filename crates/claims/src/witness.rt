//! Where a claim is broken.
ghost use Rattle.std.specs.Prelude.{◌≡◌, ◌<◌, ◌≤◌, Some, is_none, nat_le, IfOk, IfSome};
ghost use Rattle.mote_net.specs.Report.{report_of};
ghost use Rattle.claims.specs.Limits.{is_at_most};
ghost use Rattle.claims.specs.Claims.{case_holds, holding_in, holds_in};
ghost use Rattle.claims.specs.Witnesses.{is_kept};
ghost use Rattle.claims.specs.Shows.{Shows, ShowsTest};

use crate::difference::Difference;
use crate::shown::{shown_in, spare_line};
use crate::{Case, Claim, Found, holding};
use mote_net::Report;
use std::alloc::{AllocError, Global};

/// A test that doesn't hold: its place in its case; the first line too many, counted mote by mote and not in time; and
/// the values that are missing or superfluous. The line is `None` if the test doesn't count lines, or if there aren't too
/// many.
#[derive(Drop)]
pub struct BrokenTest {
    pub test: usize,
    pub line: Option<Found>,
    pub difference: Difference,
}

/// The first case that doesn't hold: its place in its claim, and the first test of it that doesn't hold.
#[derive(Drop)]
pub struct Witness {
    pub case: usize,
    pub broken: BrokenTest,
}

/// A case that holds, of more than the claim allows: its place, and the line with which its first test is met, counted
/// mote by mote and not in time. The line is `None` if this test wants no number of lines.
#[derive(Clone, Copy)]
pub struct Spare {
    pub case: usize,
    pub line: Option<Found>,
}

/// The reason why a report breaks a claim.
#[derive(Drop)]
pub enum Break {
    /// Too few cases hold. This is the first one that doesn't.
    Missing(Witness),
    /// Too many cases hold. This is the first one too many.
    Spare(Spare),
    /// All cases hold, but the claim wants more cases than it has.
    Fewer,
}

/// The first test of a case that doesn't hold.
fn broken_test(
    alloc: Global,
    case: &Case,
    report: &Report,
) -> Result<Option<BrokenTest>, AllocError>
    ensures none { IfOk result (λ b. is_none b ≡ case_holds case.now (report_of report.now)) }
    ensures shows { IfOk result (λ b. IfSome b (ShowsTest case.now (report_of report.now))) }
{
    for (place, test) in case.tests.iter().enumerate() {
        if !test.holds(report) {
            return Ok(Some(BrokenTest {
                test: place,
                line: spare_line(test, report),
                difference: Difference::of(alloc, test, report)?,
            }));
        }
    }
    Ok(None)
}

/// The first case that doesn't hold, or that there are too few cases.
fn one_missing(alloc: Global, claim: &Claim, report: &Report) -> Result<Break, AllocError>
    requires too_few { holding_in claim.now (report_of report.now) < claim.now.limits.least }
    ensures shows { IfOk result (Shows claim.now (report_of report.now)) }
{
    for (place, case) in claim.cases.iter().enumerate() {
        let found = broken_test(alloc, case, report)?;
        if let Some(broken) = found {
            return Ok(Break::Missing(Witness {
                case: place,
                broken,
            }));
        }
    }
    Ok(Break::Fewer)
}

/// The first case that holds after so many others.
fn spare_case(claim: &Claim, most: u64, report: &Report) -> Option<Break>
    requires most { claim.now.limits.most ≡ Some most }
    requires enough { claim.now.limits.least ≤ holding_in claim.now (report_of report.now) }
    ensures none { is_kept result ≡ nat_le (holding_in claim.now (report_of report.now)) most }
    ensures shows { IfSome result (Shows claim.now (report_of report.now)) }
{
    let mut left = most;
    for (place, case) in claim.cases.iter().enumerate() {
        if case.holds(report) {
            if left == 0 {
                return Some(Break::Spare(Spare {
                    case: place,
                    line: shown_in(case, report),
                }));
            }
            left -= 1;
        }
    }
    None
}

/// The first case too many that holds.
fn one_too_many(claim: &Claim, report: &Report) -> Option<Break>
    requires enough { claim.now.limits.least ≤ holding_in claim.now (report_of report.now) }
    ensures none { is_kept result ≡ is_at_most (holding_in claim.now (report_of report.now)) claim.now.limits.most }
    ensures shows { IfSome result (Shows claim.now (report_of report.now)) }
{
    match claim.limits.most {
        None => None,
        Some(most) => spare_case(claim, most, report),
    }
}

/// Returns the reason why a report breaks a claim, or `None` if it keeps the claim.
///
/// # Errors
/// `AllocError` if an allocation fails.
pub fn break_of(alloc: Global, claim: &Claim, report: &Report) -> Result<Option<Break>, AllocError>
    ensures decides { IfOk result (λ b. is_kept b ≡ holds_in claim.now (report_of report.now)) }
    ensures shows { IfOk result (λ b. IfSome b (Shows claim.now (report_of report.now))) }
{
    if (holding(claim, report) as u64) < claim.limits.least {
        Ok(Some(one_missing(alloc, claim, report)?))
    } else {
        Ok(one_too_many(claim, report))
    }
}
