//! The search.

ghost use Rattle.std.specs.Prelude.{◌≡◌, ◌+◌, ◌≤◌, ◌∷◌, [], length, IfOk, OnOk};
ghost use Rattle.survey.specs.Order.{next_keys};
ghost use Rattle.survey.specs.Turns.{children};
ghost use Rattle.survey.specs.Search.{children_of, EndsSize, FitNodes, GivesOutcomes, IsBetweenNodes, IsFirst, IsInCourse};
ghost use Rattle.survey.specs.Search.{Looks, MayTry, survey_of};
ghost use Rattle.survey.specs.Survey.{IsSurvey};

use crate::batch::{run_waiting, take_task};
use crate::broken::Survey;
use crate::level::Level;
use crate::task::{Node, Outcome, Task, child};
use crate::trial::{Trial, try_in_turn};
use std::alloc::{AllocError, Global};
use std::mem;

/// How much a survey may do.
#[derive(Clone, Copy, Debug)]
pub struct Limits {
    /// The most faults in a set.
    pub faults: u8,
    /// The most runs.
    pub trials: u64,
    /// The most runs at a time.
    pub at_a_time: u16,
}

/// Takes the sets with one more fault than that of a node. Answers `false` if no more runs are allowed.
///
/// # Errors
/// `AllocError` if an allocation fails.
fn take_children<T: Trial, F: Fn(&[Task]) -> Result<Vec<Outcome>, AllocError>>(
    alloc: Global,
    trial: &T,
    limits: Limits,
    level: &mut Level,
    node: &Node,
    goes_on: bool,
    try_all: &F,
) -> Result<bool, AllocError>
    requires may_try { MayTry (T.runs trial.now).bound (F.pre try_all.now) }
    requires gives { GivesOutcomes (T.runs trial.now) (F.post try_all.now) }
    requires in_course { IsInCourse (T.runs trial.now) limits
        (FitNodes (T.runs trial.now) goes_on (node.now ∷ [])) level.old }
    ensures looks { IfOk result (λ more. Looks (T.runs trial.now) limits
        (FitNodes (T.runs trial.now) goes_on (node.now ∷ []))
        (children (next_keys (T.runs trial.now).offers) node.now.set.items) level.old more level.new) }
    ensures limit { OnOk result (level.new.trials + length level.new.waiting.items ≤ limits.trials) }
{
    for place in 0..node.next.len() {
        let task = child(alloc, node, place, goes_on)?;
        if !take_task(alloc, trial, limits, level, task, try_all)? {
            return Ok(false);
        }
    }
    Ok(true)
}

/// Takes the sets with one more fault than those of the nodes. Answers `false` if no more runs are allowed.
///
/// # Errors
/// `AllocError` if an allocation fails.
fn take_size<T: Trial, F: Fn(&[Task]) -> Result<Vec<Outcome>, AllocError>>(
    alloc: Global,
    trial: &T,
    limits: Limits,
    level: &mut Level,
    nodes: &[Node],
    goes_on: bool,
    try_all: &F,
) -> Result<bool, AllocError>
    requires may_try { MayTry (T.runs trial.now).bound (F.pre try_all.now) }
    requires gives { GivesOutcomes (T.runs trial.now) (F.post try_all.now) }
    requires in_course { IsInCourse (T.runs trial.now) limits (FitNodes (T.runs trial.now) goes_on nodes.now)
        level.old }
    ensures looks { IfOk result (λ more. Looks (T.runs trial.now) limits
        (FitNodes (T.runs trial.now) goes_on nodes.now)
        (children_of (T.runs trial.now).offers nodes.now) level.old more level.new) }
    ensures limit { OnOk result (level.new.trials + length level.new.waiting.items ≤ limits.trials) }
{
    for node in nodes {
        if !take_children(alloc, trial, limits, level, node, goes_on, try_all)? {
            return Ok(false);
        }
    }
    Ok(true)
}

/// Runs with no fault. Answers `false` if no run is allowed.
///
/// # Errors
/// `AllocError` if an allocation fails.
fn search_none<T: Trial, F: Fn(&[Task]) -> Result<Vec<Outcome>, AllocError>>(
    alloc: Global,
    trial: &T,
    limits: Limits,
    level: &mut Level,
    try_all: &F,
) -> Result<bool, AllocError>
    requires may_try { MayTry (T.runs trial.now).bound (F.pre try_all.now) }
    requires gives { GivesOutcomes (T.runs trial.now) (F.post try_all.now) }
    requires first { IsFirst level.old }
    ensures ends { IfOk result (λ more. EndsSize (T.runs trial.now) limits 0 more level.new) }
{
    let root = Task {
        set: Vec::new(alloc),
        asleep: Vec::new(alloc),
        goes_on: limits.faults > 0,
    };
    let more = take_task(alloc, trial, limits, level, root, try_all)?;
    run_waiting(alloc, trial, level, try_all)?;
    Ok(more)
}

/// Runs with the sets of this size. Answers `false` if no more runs are allowed.
///
/// # Errors
/// `AllocError` if an allocation fails.
fn search_size<T: Trial, F: Fn(&[Task]) -> Result<Vec<Outcome>, AllocError>>(
    alloc: Global,
    trial: &T,
    limits: Limits,
    size: u16,
    level: &mut Level,
    try_all: &F,
) -> Result<bool, AllocError>
    requires may_try { MayTry (T.runs trial.now).bound (F.pre try_all.now) }
    requires gives { GivesOutcomes (T.runs trial.now) (F.post try_all.now) }
    requires size { size ≤ limits.faults }
    requires between { IsBetweenNodes (T.runs trial.now) size level.old }
    requires limit { level.old.trials ≤ limits.trials }
    ensures ends { IfOk result (λ more. EndsSize (T.runs trial.now) limits size more level.new) }
{
    let nodes = mem::replace(&mut level.nodes, Vec::new(alloc));
    let goes_on = size < u16::from(limits.faults);
    let more = take_size(alloc, trial, limits, level, &nodes, goes_on, try_all)?;
    run_waiting(alloc, trial, level, try_all)?;
    Ok(more)
}

/// Finds the minimal sets of faults that break claims, within the limits. The runs are made one after another.
///
/// # Errors
/// `AllocError` if an allocation fails.
pub fn survey<T: Trial>(alloc: Global, trial: &T, limits: Limits) -> Result<Survey, AllocError>
    ensures is_survey { IfOk result (IsSurvey (T.runs trial.now) limits) }
{
    survey_with(
        alloc,
        trial,
        limits,
        &|tasks| try_in_turn(alloc, trial, tasks),
    )
}

/// Finds the minimal sets of faults that break claims, within the limits. `try_all` runs with the sets of some tasks, and
/// answers in their order.
///
/// # Errors
/// `AllocError` if an allocation fails.
pub fn survey_with<T: Trial, F: Fn(&[Task]) -> Result<Vec<Outcome>, AllocError>>(
    alloc: Global,
    trial: &T,
    limits: Limits,
    try_all: &F,
) -> Result<Survey, AllocError>
    requires may_try { MayTry (T.runs trial.now).bound (F.pre try_all.now) }
    requires gives { GivesOutcomes (T.runs trial.now) (F.post try_all.now) }
    ensures is_survey { IfOk result (IsSurvey (T.runs trial.now) limits) }
{
    let mut level = Level {
        found: Vec::new(alloc),
        trials: 0,
        nodes: Vec::new(alloc),
        waiting: Vec::new(alloc),
    };
    if !search_none(alloc, trial, limits, &mut level, try_all)? {
        return Ok(survey_of(level, 0));
    }
    let most = u16::from(limits.faults);
    for size in 1..most + 1 {
        if !search_size(alloc, trial, limits, size, &mut level, try_all)? {
            return Ok(survey_of(level, size));
        }
    }
    Ok(survey_of(level, most + 1))
}

/// The survey that covers all sets of fewer faults than `sizes`.
fn survey_of(level: Level, sizes: u16) -> Survey
    ensures value { result ≡ survey_of level sizes }
{
    let Level {
        found,
        trials,
        nodes: _,
        waiting: _,
    } = level;
    Survey {
        broken: found,
        trials,
        sizes,
    }
}
