//! The fork and the join.

ghost use Rattle.std.specs.Prelude.{◌≡◌, ◌+◌, suc, true, length, IfErr, IfOk};
ghost use Rattle.std.specs.List.{AllZip, AllByRecursion as Each};
ghost use Rattle.fork_join.specs.Gravest.{is_own_failure};
ghost use Rattle.fork_join.specs.Kept.{AllKept};
ghost use Rattle.fork_join.specs.Tokens.{HasTokens};

use crate::stop::{Flag, Watch};
use crate::work::{Work, WorkerError, gravest};
use std::alloc::{AllocFailed, Global};
use std::marker::Brand;
use std::snapshot::Snapshot;
use std::sync::Wait;
use std::sync::ledger::{Blank, Ledger, Share};
use std::thread;
use std::thread::{Promise, PromisedHandle, Scope, Threads};

/// The end of a worker's thread: the result of the worker's work, and its part of the tokens.
#[derive(Drop)]
struct Ended<T, L: Ledger> {
    result: Result<T, WorkerError>,
    share: Share<L>,
}

/// The promise of a thread: the work has its effect on this record, and the thread stopped only if it saw that the
/// flag was set.
pub struct Promised<W, T> {
    work: Snapshot<W>,
    worker: Snapshot<T>,
}

impl<W, T> Drop for Promised<W, T> {
    fn drop(self) {
        let Promised { work: _, worker: _ } = self;
    }
}

impl<T, W: Work<T>, L: Ledger> Promise<Ended<T, L>> for Promised<W, T> {
    ghost kept_by = { λ p ended. IfOk ended.result (W.makes p.work.value p.worker.value)
        × (ended.share.parts ≡ 1) × HasTokens ended.result ended.share.amount };
}

/// Does the work of each worker in a thread of its own. The threads are started one after another, and all started
/// threads are joined. If a start fails, no further worker is started, and the workers' flag is set. The workers are
/// returned in their order.
///
/// # Errors
/// The error of the first failed worker among those whose handle was kept. Otherwise, `Thread` if a thread couldn't be
/// started or `may_start` refused the start, or `Memory` if an allocation for the handles failed. If a worker's handle
/// couldn't be stored, the worker is joined and its result is dropped. If an allocation for a worker's result failed,
/// the worker counts as one that returned `Memory`. The error is never `Stopped`: a worker stops only after another
/// worker or a start has failed. The clause says only this of an error; tests show the rest.
pub fn fork_join<R, T, W>(
    rt: &R,
    alloc: Global,
    workers: Vec<T>,
    work: &W,
) -> Result<Vec<T>, WorkerError>
where
    R: Threads + Wait + Sync,
    T: Send + Drop,
    W: Work<T> + Sync,
    requires ready { Each (W.ready work.now) workers.items }
    ensures makes { IfOk result (λ done. AllZip (W.makes work.now) workers.items done.items) }
    ensures failed { IfErr result (λ e. is_own_failure e ≡ true) }
{
    let Some(parts) = (workers.len() as u64).checked_add(1) else {
        return Err(WorkerError::Memory);
    };
    fork_parts::<R, T, W, Brand>(rt, alloc, workers, work, Blank::new(parts))
}

/// Does the work of [`fork_join`], with one part of the tokens for each worker and one for the fork.
fn fork_parts<R, T, W, L>(
    rt: &R,
    alloc: Global,
    workers: Vec<T>,
    work: &W,
    blank: Blank,
) -> Result<Vec<T>, WorkerError>
where
    R: Threads + Wait + Sync,
    T: Send + Drop,
    W: Work<T> + Sync,
    L: Ledger + Send + Sync,
    requires ready { Each (W.ready work.now) workers.items }
    requires name { blank.name ≡ L.name }
    requires parts { blank.parts ≡ L.parts }
    requires one_more { blank.parts ≡ suc (length workers.items) }
    ensures makes { IfOk result (λ done. AllZip (W.makes work.now) workers.items done.items) }
    ensures failed { IfErr result (λ e. is_own_failure e ≡ true) }
{
    let (tokens, all) = blank.open::<L>();
    let flag = Flag::new(tokens);
    fork_scope(rt, alloc, workers, work, &flag, all)
}

/// Opens the scope of the threads.
fn fork_scope<R, T, W, L>(
    rt: &R,
    alloc: Global,
    workers: Vec<T>,
    work: &W,
    flag: &Flag<L>,
    all: Share<L>,
) -> Result<Vec<T>, WorkerError>
where
    R: Threads + Wait + Sync,
    T: Send + Drop,
    W: Work<T> + Sync,
    L: Ledger + Send + Sync,
    requires ready { Each (W.ready work.now) workers.items }
    requires parts { all.parts ≡ L.parts }
    requires one_more { all.parts ≡ suc (length workers.items) }
    requires none { all.amount ≡ 0 }
    ensures makes { IfOk result (λ done. AllZip (W.makes work.now) workers.items done.items) }
    ensures failed { IfErr result (λ e. is_own_failure e ≡ true) }
{
    thread::scope(
        thread::scope_env(),
        rt,
        |scope| -> Result<Vec<T>, WorkerError>
            requires ready { Each (W.ready work.now) workers.items }
            requires parts { all.parts ≡ L.parts }
            requires one_more { all.parts ≡ suc (length workers.items) }
            requires none { all.amount ≡ 0 }
            ensures makes { IfOk result (λ done. AllZip (W.makes work.entry.now) workers.items done.items) }
            ensures failed { IfErr result (λ e. is_own_failure e ≡ true) }
        { fork_all(scope, rt, alloc, workers, work, flag, all) },
    )
}

/// Runs a worker's work in its thread, and sets the flag if the work failed.
fn run_worker<R, T, W, L>(
    rt: &R,
    work: &W,
    worker: T,
    flag: &Flag<L>,
    share: Share<L>,
) -> Ended<T, L>
where
    R: Wait,
    T: Drop,
    W: Work<T>,
    L: Ledger,
    requires ready { W.ready work.now worker }
    requires part { share.parts ≡ 1 }
    requires none { share.amount ≡ 0 }
    ensures makes { IfOk result.result (W.makes work.now worker) }
    ensures part { result.share.parts ≡ 1 }
    ensures tokens { HasTokens result.result result.share.amount }
{
    let mut watch = Watch::new(flag, share);
    let result = work.work(worker, &mut watch);
    let failed = match &result {
        Ok(_) => false,
        Err(refused) => refused.is_own(),
    };
    let share = watch.end(rt, failed);
    Ended { result, share }
}

/// Starts the threads and joins them, inside the scope.
fn fork_all<'s, 'e: 's, R, T, W, L>(
    scope: &Scope<'s, &'e ()>,
    rt: &'e R,
    alloc: Global,
    workers: Vec<T>,
    work: &'e W,
    flag: &'e Flag<L>,
    all: Share<L>,
) -> Result<Vec<T>, WorkerError>
where
    R: Threads + Wait + Sync,
    T: Send + Drop + 'e,
    W: Work<T> + Sync,
    L: Ledger + Send + Sync + 'e,
    requires ready { Each (W.ready work.now) workers.items }
    requires parts { all.parts ≡ L.parts }
    requires one_more { all.parts ≡ suc (length workers.items) }
    requires none { all.amount ≡ 0 }
    ensures makes { IfOk result (λ done. AllZip (W.makes work.now) workers.items done.items) }
    ensures failed { IfErr result (λ e. is_own_failure e ≡ true) }
{
    let mut all = all;
    let mut started = Vec::with_capacity(alloc, workers.len())?;
    let mut refused = None;
    for worker in workers {
        if !work.may_start(&worker) {
            flag.set(rt, &mut all);
            refused = Some(WorkerError::Thread);
            break;
        }
        let promise = Promised {
            work: Snapshot::of(work),
            worker: Snapshot::of(&worker),
        };
        let share = all.split_off(1, 0);
        let begun = scope.spawn_with(promise, move || run_worker(rt, work, worker, flag, share));
        let Ok(handle) = begun else {
            flag.set(rt, &mut all);
            refused = Some(WorkerError::Thread);
            break;
        };
        if let Err(AllocFailed { value: handle }) = started.push(handle) {
            flag.set(rt, &mut all);
            let _answer = handle.join(rt);
            refused = Some(WorkerError::Memory);
            break;
        }
    }
    let done = join_all(rt, alloc, started, &mut all);
    match refused {
        Some(refused) => Err(gravest(done.err(), refused)),
        None => none_stopped(rt, flag, all, done),
    }
}

/// Joins each thread, and gathers the tokens. It returns the results of the threads, or the first of the most serious
/// errors.
fn join_all<R: Threads, T: Send + Drop, W: Work<T>, L: Ledger + Send>(
    rt: &R,
    alloc: Global,
    started: Vec<PromisedHandle<Ended<T, L>, Promised<W, T>>>,
    all: &mut Share<L>,
) -> Result<Vec<T>, WorkerError>
    ensures kept { IfOk result (λ done. AllKept W.makes started.items done.items) }
    ensures parts { all.new.parts ≡ all.old.parts + length started.items }
    ensures tokens { all.old.amount ≡ 0 → HasTokens result all.new.amount }
{
    let mut done = Vec::new(alloc);
    let mut failed = None;
    for handle in started {
        let Ended { result, share } = handle.join(rt);
        all.merge(share);
        match result {
            Ok(worker) => {
                if failed.is_none() {
                    if let Err(_worker) = done.push(worker) {
                        failed = Some(WorkerError::Memory);
                    }
                }
            }
            Err(refused) => failed = Some(gravest(failed, refused)),
        }
    }
    match failed {
        Some(refused) => Err(refused),
        None => Ok(done),
    }
}

/// Returns the results of the threads after all of them were started and joined. No worker stopped unless another
/// failed.
fn none_stopped<R: Wait, T: Drop, L: Ledger>(
    rt: &R,
    flag: &Flag<L>,
    all: Share<L>,
    done: Result<Vec<T>, WorkerError>,
) -> Result<Vec<T>, WorkerError>
    requires parts { all.parts ≡ L.parts }
    requires tokens { HasTokens done all.amount }
    ensures same { result ≡ done }
    ensures failed { IfErr result (λ e. is_own_failure e ≡ true) }
{
    match done {
        Err(WorkerError::Stopped) => {
            let mut all = all;
            flag.audit(rt, &mut all);
            unreachable!()
        }
        done => done,
    }
}
