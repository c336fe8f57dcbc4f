//! The verdicts on the report of a run with a set of faults.

ghost use Rattle.std.specs.Prelude.{◌≡◌, ◌<◌, ◌≤◌, ◌^◌, None, true, length, IfOk};
ghost use Rattle.survey.specs.FaultSet.{IsSet};
ghost use Rattle.radio_medium.specs.Medium.{medium_fault};
ghost use Rattle.mote_net.specs.Meaning.{net_of};
ghost use Rattle.mote_net.specs.Report.{report_of};
ghost use Rattle.serial_run.proofs.OneReport.{report_with};
ghost use Rattle.fault_keys.specs.Keys.{offered_keys};
ghost use Rattle.net_survey.specs.Chosen.{faults_at};
ghost use Rattle.net_survey.specs.Judged.{claim_holds};
ghost use Rattle.survey.specs.Answers.{AreAnswers};

use claims::{Claim, holds};
use fault_keys::{Candidates, offered_keys};
use mote_net::{Net, Report};
use radio_faults::Fault;
use serial_run::run_with_faults;
use std::alloc::{AllocError, Global};
use survey::{Outcome, Trial};

/// A net, the faults that it may have, and claims about its report.
#[derive(Drop)]
pub(crate) struct NetTrial<'a> {
    pub net: &'a Net,
    pub claims: &'a [Claim],
    pub candidates: &'a Candidates,
    ghost few_claims: { length claims.now < 2 ^ 16 },
    ghost few_fixed: { length candidates.now.fixed.items ≤ 2 ^ 32 },
    ghost few_copies: { length candidates.now.copies.items < 16 },
    ghost no_fault: { medium_fault (net_of net.now).radio ≡ None },
    ghost placed: { length (net_of net.now).radio.places ≡ length (net_of net.now).motes },
}

impl<'a> Trial for NetTrial<'a> {
    ghost use Rattle.std.specs.Prelude.{length};
    ghost use Rattle.mote_net.specs.Meaning.{net_of};
    ghost use Rattle.serial_run.proofs.OneReport.{report_with, report_with_is};
    ghost use Rattle.fault_keys.specs.Laws.{runs_of};
    ghost use Rattle.fault_keys.proofs.Members.{keys_offer_all};
    ghost use Rattle.net_survey.specs.Chosen.{faults_at};
    ghost use Rattle.net_survey.specs.Judged.{claim_holds};

    ghost runs = { λ t. runs_of t.candidates.now.fixed.items t.candidates.now.copies.items
        (λ set. report_with (faults_at t.candidates.now set) (net_of t.net.now)) (length t.claims.now)
        (claim_holds t.claims.now) };

    fn claims(&self) -> u16 {
        self.claims.len() as u16
    }

    fn try_set(&self, alloc: Global, set: &[u64], goes_on: bool) -> Result<Outcome, AllocError> {
        let faults = chosen(alloc, self.candidates, set)?;
        let report = run(alloc, self.net, &faults)?;
        let offers = offers_if(alloc, self.candidates, set, &report, goes_on)?;
        let answers = verdicts(alloc, self.claims, &report)?;
        Ok(Outcome { answers, offers })
    }

    ghost offers_all = { λ t. keys_offer_all (net_of t.net.now) t.candidates.now.fixed.items
        t.candidates.now.copies.items (λ set. report_with (faults_at t.candidates.now set) (net_of t.net.now))
        (λ set. report_with_is (faults_at t.candidates.now set) (net_of t.net.now) t.no_fault t.placed)
        (length t.claims.now) (claim_holds t.claims.now) };
}

/// The offered keys, if they are asked for.
fn offers_if(
    alloc: Global,
    candidates: &Candidates,
    set: &[u64],
    report: &Report,
    goes_on: bool,
) -> Result<Vec<u64>, AllocError>
    requires few_fixed { length candidates.now.fixed.items ≤ 2 ^ 32 }
    requires few_copies { length candidates.now.copies.items < 16 }
    ensures value { IfOk result (λ v. goes_on ≡ true → v.items ≡ offered_keys candidates.now.fixed.items
        candidates.now.copies.items set.now (report_of report.now)) }
{
    if goes_on {
        offered_keys(alloc, candidates, set, report)
    } else {
        Ok(Vec::new(alloc))
    }
}

/// The faults of a set of keys.
fn chosen(alloc: Global, candidates: &Candidates, set: &[u64]) -> Result<Vec<Fault>, AllocError>
    ensures faults { IfOk result (λ faults. faults.items ≡ faults_at candidates.now set.now) }
{
    let mut faults = Vec::new(alloc);
    for key in set {
        faults.push(candidates.fault(*key))?;
    }
    Ok(faults)
}

/// Runs a net with faults.
fn run(alloc: Global, net: &Net, faults: &[Fault]) -> Result<Report, AllocError>
    ensures is_report { IfOk result (λ r. report_of r ≡ report_with faults.now (net_of net.now)) }
{
    check_medium(net);
    run_with_faults(alloc, net, faults)
}

/// Does nothing. By its contract, the medium of a net has no error, and has a place for each mote.
pub(crate) fn check_medium(net: &Net)
    ensures no_fault { medium_fault (net_of net.now).radio ≡ None }
    ensures placed { length (net_of net.now).radio.places ≡ length (net_of net.now).motes }
{
    let _ahead = net.medium().lookahead(net.end());
}

/// For each claim, whether it holds in a report.
fn verdicts(alloc: Global, claims: &[Claim], report: &Report) -> Result<Vec<bool>, AllocError>
    ensures answers { IfOk result (λ all.
        AreAnswers (claim_holds claims.now (report_of report.now)) (length claims.now) all.items) }
{
    let mut all = Vec::new(alloc);
    for number in 0..claims.len() {
        all.push(nth_holds(claims, number, report))?;
    }
    Ok(all)
}

/// Returns whether the claim with this number holds in a report.
#[tactic(auto, using(crate::proofs::Nth::nth_holds))]
fn nth_holds(claims: &[Claim], number: usize, report: &Report) -> bool
    requires number { number < length claims.now }
    ensures value { result ≡ claim_holds claims.now (report_of report.now) number }
{
    holds(&claims[number], report)
}
