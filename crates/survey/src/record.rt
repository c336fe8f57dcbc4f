//! The breaks found so far.

ghost use Rattle.std.specs.Prelude.{◌≡◌, ◌<◌, ◌↔◌, length, IsTrue, OnOk};
ghost use Rattle.std.specs.Bool.{MatchBool};
ghost use Rattle.survey.specs.FaultSet.{IsSet, IsWithin};
ghost use Rattle.survey.specs.Answers.{AreAnswers};
ghost use Rattle.survey.specs.Breaks.{breaks_of, AreSmallerSettled, HasBreak, IsSettled};
ghost use Rattle.survey.specs.Search.{AddsBreak, IsKept, ListsFor};
ghost use Rattle.survey.specs.Turns.{HasSmallerBreak, IsPruned, IsWorthRun};

use crate::broken::Broken;
use crate::sets::is_within;
use crate::trial::Trial;
use std::alloc::{AllocError, Global};

/// Whether a set within this one is listed for the claim.
fn has_break(found: &[Broken], set: &[u64], claim: u16) -> bool
    ensures has_break { IsTrue result ↔ HasBreak (breaks_of found.now) set.now claim }
{
    for known in found {
        if breaks(known, set, claim) {
            return true;
        }
    }
    false
}

/// Whether a listed break is of this claim, and its set is within this one.
fn breaks(known: &Broken, set: &[u64], claim: u16) -> bool
    ensures covers { IsTrue result ↔ ((known.now.claim ≡ claim) × IsWithin known.now.faults.items set.now) }
{
    known.claim == claim && is_within(&known.faults, set)
}

/// Whether a smaller set within this one is listed for the claim.
fn has_smaller_break(found: &[Broken], set: &[u64], claim: u16) -> bool
    ensures has_smaller { IsTrue result ↔ HasSmallerBreak (breaks_of found.now) set.now claim }
{
    for known in found {
        if breaks_smaller(known, set, claim) {
            return true;
        }
    }
    false
}

/// Whether a listed break is of this claim, and its set is a smaller one within this one.
fn breaks_smaller(known: &Broken, set: &[u64], claim: u16) -> bool
    ensures covers { IsTrue result ↔ ((known.now.claim ≡ claim) × (IsWithin known.now.faults.items set.now
        × (length known.now.faults.items < length set.now))) }
{
    known.faults.len() < set.len() && breaks(known, set, claim)
}

/// Whether a smaller set within this one is listed for each claim.
pub(crate) fn is_pruned(found: &[Broken], set: &[u64], claims: u16) -> bool
    ensures is_pruned { MatchBool result (IsPruned claims (breaks_of found.now) set.now)
        (IsWorthRun claims (breaks_of found.now) set.now) }
{
    for claim in 0..claims {
        if !has_smaller_break(found, set, claim) {
            return false;
        }
    }
    true
}

/// Lists the claims that a set breaks, if no set within it is listed for them.
///
/// # Errors
/// `AllocError` if an allocation fails.
pub(crate) fn record_set<T: Trial>(
    alloc: Global,
    trial: &T,
    found: &mut Vec<Broken>,
    set: &[u64],
    answers: &[bool],
) -> Result<(), AllocError>
    requires set { IsSet (T.runs trial.now).bound set.now }
    requires answers { AreAnswers ((T.runs trial.now).holds set.now) (T.runs trial.now).claims answers.now }
    requires kept { IsKept (T.runs trial.now).bound (length set.now) (T.runs trial.now).holds
        (T.runs trial.now).claims (breaks_of found.old.items) }
    requires smaller { AreSmallerSettled (T.runs trial.now).bound (length set.now) (T.runs trial.now).holds
        (T.runs trial.now).claims (breaks_of found.old.items) }
    ensures kept { OnOk result (IsKept (T.runs trial.now).bound (length set.now) (T.runs trial.now).holds
        (T.runs trial.now).claims (breaks_of found.new.items)) }
    ensures lists { OnOk result (ListsFor (breaks_of found.old.items) set.now (breaks_of found.new.items)) }
    ensures settled { OnOk result (IsSettled (T.runs trial.now).holds (T.runs trial.now).claims
        (breaks_of found.new.items) set.now) }
{
    for claim in 0..trial.claims() {
        if !answers[usize::from(claim)] {
            record_break(alloc, found, set, claim)?;
        }
    }
    Ok(())
}

/// Lists a set for a claim, if no set within it is listed.
///
/// # Errors
/// `AllocError` if an allocation fails.
fn record_break(
    alloc: Global,
    found: &mut Vec<Broken>,
    set: &[u64],
    claim: u16,
) -> Result<(), AllocError>
    ensures adds_break { OnOk result (AddsBreak (breaks_of found.old.items) set.now claim (breaks_of found.new.items)) }
{
    if !has_break(found, set, claim) {
        let faults = set.to_vec(alloc)?;
        found.push(Broken { faults, claim })?;
    }
    Ok(())
}
