//! The sets that are tried together.

ghost use Rattle.std.specs.Prelude.{◌≡◌, ◌+◌, ◌<◌, ◌≤◌, ◌^◌, ◌∷◌, [], ℕ, length, List, IfOk, OnOk};
ghost use Rattle.std.specs.List.{All};
ghost use Rattle.survey.specs.FaultSet.{IsSet};
ghost use Rattle.survey.specs.Breaks.{breaks_of, AreSmallerSettled, IsSettled};
ghost use Rattle.survey.specs.Premise.{Runs};
ghost use Rattle.survey.specs.Search.{AddsNode, AreOutcomes, Course, FitsTask, GivesOutcomes, HasTried, IsInCourse, IsKept};
ghost use Rattle.survey.specs.Search.{IsOutcome, ListsFor, Looks, MayTry};

use crate::broken::Broken;
use crate::level::Level;
use crate::record::{is_pruned, record_set};
use crate::search::Limits;
use crate::task::{Node, Outcome, Task, awake};
use crate::trial::Trial;
use std::alloc::{AllocError, Global};

/// Lists the breaks of a set that was run, and adds its node if there is a next size.
///
/// # Errors
/// `AllocError` if an allocation fails.
fn end_task<T: Trial>(
    alloc: Global,
    trial: &T,
    found: &mut Vec<Broken>,
    nodes: &mut Vec<Node>,
    task: &Task,
    outcome: &Outcome,
) -> Result<(), AllocError>
    requires set { IsSet (T.runs trial.now).bound task.now.set.items }
    requires outcome { IsOutcome (T.runs trial.now) task.now outcome.now }
    requires kept { IsKept (T.runs trial.now).bound (length task.now.set.items) (T.runs trial.now).holds
        (T.runs trial.now).claims (breaks_of found.old.items) }
    requires smaller { AreSmallerSettled (T.runs trial.now).bound (length task.now.set.items)
        (T.runs trial.now).holds (T.runs trial.now).claims (breaks_of found.old.items) }
    ensures kept { OnOk result (IsKept (T.runs trial.now).bound (length task.now.set.items) (T.runs trial.now).holds
        (T.runs trial.now).claims (breaks_of found.new.items)) }
    ensures lists { OnOk result (ListsFor (breaks_of found.old.items) task.now.set.items
        (breaks_of found.new.items)) }
    ensures settled { OnOk result (IsSettled (T.runs trial.now).holds (T.runs trial.now).claims
        (breaks_of found.new.items) task.now.set.items) }
    ensures node { OnOk result (AddsNode (T.runs trial.now).offers task.now nodes.old.items nodes.new.items) }
{
    record_set(alloc, trial, found, &task.set, &outcome.answers)?;
    if task.goes_on {
        let next = awake(alloc, &task.asleep, &outcome.offers)?;
        let set = task.set.to_vec(alloc)?;
        let asleep = task.asleep.to_vec(alloc)?;
        nodes.push(Node { set, asleep, next })?;
    }
    Ok(())
}

/// Runs with the set of each task.
///
/// # Errors
/// `AllocError` if an allocation fails.
fn run_tasks<T: Trial, F: Fn(&[Task]) -> Result<Vec<Outcome>, AllocError>>(
    _trial: &T,
    tasks: &[Task],
    try_all: &F,
) -> Result<Vec<Outcome>, AllocError>
    requires may_try { MayTry (T.runs _trial.now).bound (F.pre try_all.now) }
    requires gives { GivesOutcomes (T.runs _trial.now) (F.post try_all.now) }
    requires sets { All (λ t. IsSet (T.runs _trial.now).bound t.set.items) tasks.now }
    ensures outcomes { IfOk result (λ v. AreOutcomes (T.runs _trial.now) tasks.now v.items) }
{
    try_all(tasks)
}

/// Runs with the sets that wait.
///
/// # Errors
/// `AllocError` if an allocation fails.
pub(crate) fn run_waiting<T: Trial, F: Fn(&[Task]) -> Result<Vec<Outcome>, AllocError>>(
    alloc: Global,
    trial: &T,
    level: &mut Level,
    try_all: &F,
) -> Result<(), AllocError>
    requires may_try { MayTry (T.runs trial.now).bound (F.pre try_all.now) }
    requires gives { GivesOutcomes (T.runs trial.now) (F.post try_all.now) }
    requires in_course { (course : Course) × (tried : List (List ℕ))
        × HasTried (T.runs trial.now) course tried level.old }
    requires few { level.old.trials + length level.old.waiting.items < 2 ^ 64 }
    ensures tried { OnOk result ((course : Course) (tried : List (List ℕ))
        → HasTried (T.runs trial.now) course tried level.old
        → HasTried (T.runs trial.now) course tried level.new) }
    ensures none_waits { OnOk result (level.new.waiting.items ≡ []) }
    ensures counted { OnOk result (level.new.trials ≡ level.old.trials + length level.old.waiting.items) }
{
    let outcomes = run_tasks(trial, &level.waiting, try_all)?;
    for place in 0..level.waiting.len() {
        end_task(
            alloc,
            trial,
            &mut level.found,
            &mut level.nodes,
            &level.waiting[place],
            &outcomes[place],
        )?;
        level.trials += 1;
    }
    level.waiting.clear();
    Ok(())
}

/// Takes a set, unless nothing is to be learned from it. Answers `false` if no more runs are allowed.
///
/// # Errors
/// `AllocError` if an allocation fails.
pub(crate) fn take_task<T: Trial, F: Fn(&[Task]) -> Result<Vec<Outcome>, AllocError>>(
    alloc: Global,
    trial: &T,
    limits: Limits,
    level: &mut Level,
    task: Task,
    try_all: &F,
) -> Result<bool, AllocError>
    requires may_try { MayTry (T.runs trial.now).bound (F.pre try_all.now) }
    requires gives { GivesOutcomes (T.runs trial.now) (F.post try_all.now) }
    requires in_course { IsInCourse (T.runs trial.now) limits (FitsTask (T.runs trial.now) task) level.old }
    ensures looks { IfOk result (λ more. Looks (T.runs trial.now) limits (FitsTask (T.runs trial.now) task)
        (task.set.items ∷ []) level.old more level.new) }
    ensures limit { OnOk result (level.new.trials + length level.new.waiting.items ≤ limits.trials) }
{
    if is_pruned(&level.found, &task.set, trial.claims()) {
        return Ok(true);
    }
    if level.trials + level.waiting.len() as u64 >= limits.trials {
        return Ok(false);
    }
    level.waiting.push(task)?;
    if level.waiting.len() >= usize::from(limits.at_a_time) {
        run_waiting(alloc, trial, level, try_all)?;
    }
    Ok(true)
}
