//! The answers to claims about a report.
ghost use Rattle.std.specs.Prelude.{IfOk};
ghost use Rattle.mote_net.specs.Report.{report_of};
ghost use Rattle.claim_check.specs.Promises.{AnswersAll, AnswersOne, AnswersWith};

use crate::faults::unused_in;
use claim_text::{write_break, write_claim};
use claims::{Claim, break_of};
use mote_net::Report;
use program_tree::Names;
use radio_faults::Fault;
use std::alloc::{AllocError, Global};

/// A line for each claim, and whether all claims hold.
#[derive(Drop)]
pub struct Answers {
    pub text: String,
    pub all_hold: bool,
}

/// The line that answers a claim, and whether the claim holds.
fn answer(
    alloc: Global,
    names: &Names,
    claim: &Claim,
    report: &Report,
) -> Result<Answers, AllocError>
    ensures answers_one { IfOk result (AnswersOne names.now (report_of report.now) claim.now) }
{
    let said = write_claim(alloc, names, claim)?;
    let broken = break_of(alloc, claim, report)?;
    match broken {
        None => Ok(Answers {
            text: format!(in alloc; "holds: {said}\n")?,
            all_hold: true,
        }),
        Some(found) => {
            let shown = write_break(alloc, names, claim, &found)?;
            Ok(Answers {
                text: format!(in alloc; "broken: {said} -- {shown}\n")?,
                all_hold: false,
            })
        }
    }
}

/// Answers the claims about a report. `names` is the names of the processes.
///
/// # Errors
/// If an allocation failed.
fn answers_to(
    alloc: Global,
    names: &Names,
    claims: &[Claim],
    report: &Report,
) -> Result<Answers, AllocError>
    ensures answers_all { IfOk result (AnswersAll names.now (report_of report.now) claims.now) }
{
    let mut text = String::new(alloc);
    let mut all_hold = true;
    for claim in claims {
        let one = answer(alloc, names, claim, report)?;
        text.push_str(one.text.as_str())?;
        all_hold = all_hold && one.all_hold;
    }
    Ok(Answers { text, all_hold })
}

/// Answers the claims about the report of a run with faults, and says which faults name no copy in it.
///
/// # Errors
/// If an allocation failed.
pub fn answers_with(
    alloc: Global,
    names: &Names,
    claims: &[Claim],
    faults: &[Fault],
    report: &Report,
) -> Result<Answers, AllocError>
    ensures answers_with { IfOk result (AnswersWith names.now (report_of report.now) claims.now faults.now) }
{
    let mut answers = answers_to(alloc, names, claims, report)?;
    let unused = unused_in(alloc, faults, report)?;
    answers.text.push_str(unused.as_str())?;
    Ok(answers)
}
