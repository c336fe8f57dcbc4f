//! What is tried.

ghost use Rattle.std.specs.Prelude.{◌≡◌, true, List, IfOk};
ghost use Rattle.std.specs.List.{All};
ghost use Rattle.survey.specs.Answers.{AreAnswers};
ghost use Rattle.survey.specs.FaultSet.{IsSet};
ghost use Rattle.survey.specs.Premise.{Runs, OffersAll};
ghost use Rattle.survey.specs.Search.{AreOutcomes};

use crate::task::{Outcome, Task};
use std::alloc::{AllocError, Global};

/// Runs with sets of faults, in which each of some claims holds or doesn't hold.
pub trait Trial {
    /// What the run with each set answers and offers.
    ghost runs: { Self → Runs };

    /// How many claims there are.
    fn claims(&self) -> u16
        ensures value { result ≡ (runs self.now).claims };

    /// Runs with a set of faults. If `goes_on`, the outcome has the offered keys.
    ///
    /// # Errors
    /// `AllocError` if an allocation fails.
    fn try_set(&self, alloc: Global, set: &[u64], goes_on: bool) -> Result<Outcome, AllocError>
        requires is_set { IsSet (runs self.now).bound set.now }
        ensures answered { IfOk result (λ o. AreAnswers ((runs self.now).holds set.now) (runs self.now).claims
            o.answers.items) }
        ensures offered { IfOk result (λ o. goes_on ≡ true → o.offers.items ≡ (runs self.now).offers set.now) };

    /// All faults that may change a run are offered.
    ghost offers_all: { (t : Self) → OffersAll (runs t) };
}

/// Runs with the set of each task, one run after another.
///
/// # Errors
/// `AllocError` if an allocation fails.
pub fn try_in_turn<T: Trial>(
    alloc: Global,
    trial: &T,
    tasks: &[Task],
) -> Result<Vec<Outcome>, AllocError>
    requires are_sets { All (λ t. IsSet (T.runs trial.now).bound t.set.items) tasks.now }
    ensures outcomes { IfOk result (λ v. AreOutcomes (T.runs trial.now) tasks.now v.items) }
{
    let mut outcomes = Vec::new(alloc);
    for task in tasks {
        outcomes.push(trial.try_set(alloc, &task.set, task.goes_on)?)?;
    }
    Ok(outcomes)
}
