//! Writes what a survey found about a claim.
ghost use Rattle.std.specs.Prelude.{◌≡◌, ◌++◌, string_bytes, OnOk};
ghost use Rattle.std.specs.List.{flat_map};
ghost use Rattle.net_survey.specs.SurveyText.{break_line, claim_text, is_broken, verdict_text};

use crate::fault::put_set;
use claim_text::write_claim;
use claims::Claim;
use fault_keys::Candidates;
use program_tree::Names;
use std::alloc::{AllocError, Global};
use survey::Broken;

/// Returns `true` if a set is listed for the claim with this number.
fn is_broken(broken: &[Broken], number: usize) -> bool
    ensures value { result ≡ is_broken broken.now number }
{
    broken.iter().any(|one| usize::from(one.claim) == number)
}

fn put_verdict(text: &mut String, is_complete: bool, is_broken: bool) -> Result<(), AllocError>
    ensures appended { OnOk result (string_bytes text.new
        ≡ string_bytes text.old ++ verdict_text is_complete is_broken) }
{
    if is_broken {
        text.push_str("broken: ")
    } else if is_complete {
        text.push_str("holds: ")
    } else {
        text.push_str("not broken so far: ")
    }
}

/// Appends the line of a set, if it is listed for the claim with this number.
fn put_break(
    alloc: Global,
    text: &mut String,
    candidates: &Candidates,
    number: usize,
    one: &Broken,
) -> Result<(), AllocError>
    ensures appended { OnOk result (string_bytes text.new
        ≡ string_bytes text.old ++ break_line candidates.now number one.now) }
{
    if usize::from(one.claim) != number {
        return Ok(());
    }
    text.push_str("  if ")?;
    put_set(alloc, text, candidates, one.faults.as_slice())?;
    text.push_str("\n")
}

fn put_breaks(
    alloc: Global,
    text: &mut String,
    candidates: &Candidates,
    number: usize,
    broken: &[Broken],
) -> Result<(), AllocError>
    ensures appended { OnOk result (string_bytes text.new
        ≡ string_bytes text.old ++ flat_map (break_line candidates.now number) broken.now) }
{
    for one in broken {
        put_break(alloc, text, candidates, number, one)?;
    }
    Ok(())
}

/// Appends the claim with this number, and the sets that are listed for it. `names` is the names of the processes;
/// `is_complete` tells whether the survey came to its end.
///
/// # Errors
/// `AllocError` if an allocation fails.
pub fn put_claim(
    alloc: Global,
    text: &mut String,
    names: &Names,
    candidates: &Candidates,
    is_complete: bool,
    broken: &[Broken],
    number: usize,
    claim: &Claim,
) -> Result<(), AllocError>
    ensures appended { OnOk result (string_bytes text.new
        ≡ string_bytes text.old ++ claim_text names.now candidates.now is_complete broken.now number claim.now) }
{
    put_verdict(text, is_complete, is_broken(broken, number))?;
    let said = write_claim(alloc, names, claim)?;
    text.push_str(said.as_str())?;
    text.push_str("\n")?;
    put_breaks(alloc, text, candidates, number, broken)
}
