//! Writes sets of faults.
ghost use Rattle.std.specs.Prelude.{◌≡◌, ◌++◌, string_bytes, OnOk};
ghost use Rattle.std.specs.List.{flat_map};
ghost use Rattle.radio_faults.specs.FaultText.{fault_text};
ghost use Rattle.net_survey.specs.Chosen.{faults_at};
ghost use Rattle.net_survey.specs.SurveyText.{next_fault, set_text};

use fault_keys::Candidates;
use radio_faults::{Fault, FaultText};
use std::alloc::{AllocError, Global};

fn put_fault(alloc: Global, text: &mut String, fault: Fault) -> Result<(), AllocError>
    ensures appended { OnOk result (string_bytes text.new ≡ string_bytes text.old ++ fault_text fault) }
{
    let shown = FaultText(fault);
    let line = format!(in alloc; "{shown}")?;
    text.push_str(line.as_str())
}

fn put_next_fault(alloc: Global, text: &mut String, fault: Fault) -> Result<(), AllocError>
    ensures appended { OnOk result (string_bytes text.new ≡ string_bytes text.old ++ next_fault fault) }
{
    text.push_str(" and ")?;
    put_fault(alloc, text, fault)
}

fn put_more_faults(
    alloc: Global,
    text: &mut String,
    candidates: &Candidates,
    set: &[u64],
) -> Result<(), AllocError>
    ensures appended { OnOk result (string_bytes text.new
        ≡ string_bytes text.old ++ flat_map next_fault (faults_at candidates.now set.now)) }
{
    for key in set {
        put_next_fault(alloc, text, candidates.fault(*key))?;
    }
    Ok(())
}

/// Appends the faults with the keys of a set.
///
/// # Errors
/// `AllocError` if an allocation fails.
pub fn put_set(
    alloc: Global,
    text: &mut String,
    candidates: &Candidates,
    set: &[u64],
) -> Result<(), AllocError>
    ensures appended { OnOk result (string_bytes text.new
        ≡ string_bytes text.old ++ set_text (faults_at candidates.now set.now)) }
{
    match set {
        [] => text.push_str("nothing is broken"),
        [first, more @ ..] => {
            put_fault(alloc, text, candidates.fault(*first))?;
            put_more_faults(alloc, text, candidates, more)
        }
    }
}
