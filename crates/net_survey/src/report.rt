//! The text of a survey: for each claim whether it holds with every set of faults that the survey covered, and otherwise
//! the listed sets with which it doesn't.
//!
//! ```text
//! holds: mote 1: at least 1 line "print process flood value 7"
//! broken: mote 3: at least 1 line "print process flood value 7"
//!   if link 1 to 3 is broken and link 2 to 3 is broken
//!   if link 1 to 3 is broken and packet 0 of mote 2 is lost on the way to mote 3
//! covered: all sets of at most 2 faults; runs: 790
//! ```
//!
//! In the grammar, braces enclose what may be repeated or missing.
//!
//! ```text
//! survey = {CLAIM} COVERED
//! CLAIM  = VERDICT ": " TEXT LF {"  if " SET LF}                             TEXT is the text of the claim
//! VERDICT = "holds" | "not broken so far" | "broken"
//! SET    = "nothing is broken" | FAULT {" and " FAULT}                       FAULT is the text of a fault
//! COVERED = "covered: " SETS [" before the limit"] "; runs: " N LF
//! SETS   = "nothing" | "all sets of at most " N [" of " N] " faults"
//! ```
//!
//! A survey that stopped at the limit of runs says `not broken so far` of a claim that it found no set for; otherwise it
//! says `holds`. The sets are in the order in which the survey tries them: those of fewer faults first, and those of one
//! size by their first fault, then by their second. The number of faults that come into question is said if it doesn't
//! depend on the run.

ghost use Rattle.std.specs.Prelude.{◌≡◌, ◌++◌, string_bytes, IfOk, OnOk};
ghost use Rattle.net_survey.specs.SurveyText.{claims_text, covered_text, faults_text, is_complete, limit_text, most_text};
ghost use Rattle.net_survey.specs.SurveyText.{runs_text, sets_text, survey_text};

use crate::claim::put_claim;
use claims::Claim;
use fault_keys::Candidates;
use program_tree::Names;
use std::alloc::{AllocError, Global};
use survey::{Broken, Limits, Survey};

/// Returns `true` if a survey within these limits came to its end: it covers all sets that it may.
pub fn is_complete(limits: Limits, survey: &Survey) -> bool
    ensures value { result ≡ is_complete limits survey.now }
{
    u16::from(limits.faults) < survey.sizes
}

fn put_claims(
    alloc: Global,
    text: &mut String,
    names: &Names,
    candidates: &Candidates,
    is_complete: bool,
    broken: &[Broken],
    claims: &[Claim],
) -> Result<(), AllocError>
    ensures appended { OnOk result (string_bytes text.new ≡ string_bytes text.old
        ++ claims_text names.now candidates.now is_complete broken.now 0 claims.now) }
{
    for place in 0..claims.len() {
        put_claim(
            alloc,
            text,
            names,
            candidates,
            is_complete,
            broken,
            place,
            &claims[place],
        )?;
    }
    Ok(())
}

fn put_faults(alloc: Global, text: &mut String, candidates: &Candidates) -> Result<(), AllocError>
    ensures appended { OnOk result (string_bytes text.new ≡ string_bytes text.old ++ faults_text candidates.now) }
{
    if candidates.copies.is_empty() {
        let number = candidates.fixed.len();
        let faults = format!(in alloc; " of {number} faults")?;
        text.push_str(faults.as_str())
    } else {
        text.push_str(" faults")
    }
}

fn put_most(alloc: Global, text: &mut String, most: u16) -> Result<(), AllocError>
    ensures appended { OnOk result (string_bytes text.new ≡ string_bytes text.old ++ most_text most) }
{
    let sets = format!(in alloc; "all sets of at most {most}")?;
    text.push_str(sets.as_str())
}

fn put_sets(
    alloc: Global,
    text: &mut String,
    candidates: &Candidates,
    sizes: u16,
) -> Result<(), AllocError>
    ensures appended { OnOk result (string_bytes text.new ≡ string_bytes text.old ++ sets_text candidates.now sizes) }
{
    if sizes > 0 {
        put_most(alloc, text, sizes - 1)?;
        put_faults(alloc, text, candidates)
    } else {
        text.push_str("nothing")
    }
}

fn put_limit(text: &mut String, is_complete: bool) -> Result<(), AllocError>
    ensures appended { OnOk result (string_bytes text.new ≡ string_bytes text.old ++ limit_text is_complete) }
{
    if is_complete {
        Ok(())
    } else {
        text.push_str(" before the limit")
    }
}

fn put_runs(alloc: Global, text: &mut String, runs: u64) -> Result<(), AllocError>
    ensures appended { OnOk result (string_bytes text.new ≡ string_bytes text.old ++ runs_text runs) }
{
    let last = format!(in alloc; "; runs: {runs}\n")?;
    text.push_str(last.as_str())
}

/// Appends which sets are covered, and the number of runs.
fn put_covered(
    alloc: Global,
    text: &mut String,
    candidates: &Candidates,
    is_complete: bool,
    sizes: u16,
    runs: u64,
) -> Result<(), AllocError>
    ensures appended { OnOk result (string_bytes text.new
        ≡ string_bytes text.old ++ covered_text candidates.now is_complete sizes runs) }
{
    text.push_str("covered: ")?;
    put_sets(alloc, text, candidates, sizes)?;
    put_limit(text, is_complete)?;
    put_runs(alloc, text, runs)
}

/// Returns the text of a survey of these claims, with these candidates for faults, within these limits. `names` is the
/// names of the processes.
///
/// # Errors
/// `AllocError` if an allocation fails.
pub fn write_survey(
    alloc: Global,
    names: &Names,
    claims: &[Claim],
    candidates: &Candidates,
    limits: Limits,
    survey: &Survey,
) -> Result<String, AllocError>
    ensures text { IfOk result (λ t. string_bytes t
        ≡ survey_text names.now claims.now candidates.now limits survey.now) }
{
    let mut text = String::new(alloc);
    let complete = is_complete(limits, survey);
    let broken = survey.broken.as_slice();
    put_claims(
        alloc, &mut text, names, candidates, complete, broken, claims,
    )?;
    put_covered(
        alloc,
        &mut text,
        candidates,
        complete,
        survey.sizes,
        survey.trials,
    )?;
    Ok(text)
}
