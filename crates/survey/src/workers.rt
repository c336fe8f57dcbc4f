//! Surveys whose runs are made in threads.

ghost use Rattle.std.specs.Prelude.{◌<◌, IfOk};
ghost use Rattle.std.specs.List.{All};
ghost use Rattle.std.specs.Thread.{IsSync};
ghost use Rattle.survey.specs.FaultSet.{IsSet};
ghost use Rattle.survey.specs.Joins.{Joins};
ghost use Rattle.survey.specs.Search.{AreOutcomes};
ghost use Rattle.survey.specs.Survey.{IsSurvey};

use crate::broken::Survey;
use crate::progress::Progress;
use crate::search::{Limits, survey_with};
use crate::task::{Outcome, Task};
use crate::trial::{Trial, try_in_turn};
use std::alloc::{AllocError, Global};
use std::thread;
use std::thread::Threads;

/// Finds the minimal sets of faults that break claims, within the limits. So many workers, each with a thread of its
/// own, share the runs of a batch; no clause speaks of threads. The function joins the threads, so it may wait.
///
/// # Errors
/// `AllocError` if an allocation fails.
pub fn survey_in_threads<R: Threads + Sync, T: Trial + Sync, P: Progress>(
    rt: &R,
    alloc: Global,
    trial: &T,
    workers: u16,
    limits: Limits,
    progress: &P,
) -> Result<Survey, AllocError>
    requires workers { 0 < workers }
    ensures is_survey { IfOk result (IsSurvey (T.runs trial.now) limits) }
{
    survey_with(
        alloc,
        trial,
        limits,
        &|tasks: &[Task]| -> Result<Vec<Outcome>, AllocError>
            requires { IsSync R.row × IsSync T.row × (0 < workers) × All
                (λ t. IsSet (T.runs trial.now).bound t.set.items) tasks.now }
            ensures { IfOk result (λ v. AreOutcomes (T.runs trial.entry.now) tasks.entry.now v.items) }
        {
            if let Some(next) = tasks.first() {
                progress.tell(&next.set);
            }
            try_in_threads(rt, alloc, trial, workers, tasks)
        },
    )
}

/// Runs with the set of each task. Each worker has a part of them, and a thread of its own.
///
/// # Errors
/// `AllocError` if an allocation fails.
fn try_in_threads<R: Threads + Sync, T: Trial + Sync>(
    rt: &R,
    alloc: Global,
    trial: &T,
    workers: u16,
    tasks: &[Task],
) -> Result<Vec<Outcome>, AllocError>
    requires workers { 0 < workers }
    requires sets { All (λ t. IsSet (T.runs trial.now).bound t.set.items) tasks.now }
    ensures outcomes { IfOk result (λ v. AreOutcomes (T.runs trial.now) tasks.now v.items) }
{
    let size = tasks.len() / usize::from(workers) + 1;
    let parts = thread::map_chunks(
        rt,
        alloc,
        tasks,
        size,
        &|_start: usize, part: &[Task]| -> Result<Vec<Outcome>, AllocError>
            requires { All (λ t. IsSet (T.runs trial.now).bound t.set.items) part.now }
            ensures { IfOk result (λ v. AreOutcomes (T.runs trial.entry.now) part.entry.now v.items) }
        { try_in_turn(alloc, trial, part) },
    )?;
    joined(alloc, parts)
}

/// The outcomes of all workers, in order.
///
/// # Errors
/// `AllocError` if a worker returned it, or an allocation fails.
fn joined(
    alloc: Global,
    parts: Vec<Result<Vec<Outcome>, AllocError>>,
) -> Result<Vec<Outcome>, AllocError>
    ensures joins { IfOk result (λ all. Joins parts.items all.items) }
{
    let mut outcomes = Vec::new(alloc);
    for part in parts {
        outcomes.append(&mut part?)?;
    }
    Ok(outcomes)
}
