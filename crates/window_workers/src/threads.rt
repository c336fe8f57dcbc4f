//! The threads of the workers, in both kinds of runs.

ghost use Rattle.std.specs.Prelude.{◌≡◌, ◌^◌, ◌≤◌, true, length, IfErr, IfOk};
ghost use Rattle.fork_join.specs.Gravest.{is_own_failure};
ghost use Rattle.copy_exchange.specs.Inboxes.{Settled};
ghost use Rattle.window_workers.specs.Threads.{AllMade, HaveWorked};

use crate::worker::{Worker, workers_of};
use copy_exchange::endpoints;
use copy_inbox::{Inbox, Taker};
use fork_join::{Work, WorkerError, fork_join};
use std::alloc::Global;
use std::sync::Wait;
use std::thread::Threads;
use worker_window::Share;

/// Makes each worker from its share and an endpoint, with a sender on the inbox of each other worker, and does the
/// worker's work in a thread of its own. The workers are returned in their order.
///
/// # Errors
/// The errors of [`fork_join`]; also `Memory` if an allocation fails. The error is never `Stopped`.
pub fn run_threads<R, W>(
    rt: &R,
    alloc: Global,
    shares: Vec<Share>,
    inboxes: &[Inbox],
    takers: Vec<Taker>,
    work: &W,
) -> Result<Vec<Worker>, WorkerError>
where
    R: Threads + Wait + Sync,
    W: Work<Worker> + Sync,
    requires inboxes_bounded { length inboxes.now ≤ 2 ^ 16 }
    requires settled { Settled inboxes.now takers.items }
    requires ready { AllMade inboxes.now takers.items shares.items (W.ready work.now) }
    ensures worked { IfOk result
        (λ done. HaveWorked inboxes.now takers.items shares.items (W.makes work.now) done.items) }
    ensures failed { IfErr result (λ e. is_own_failure e ≡ true) }
{
    let Ok(endpoints) = endpoints(alloc, inboxes, takers) else {
        return Err(WorkerError::Memory);
    };
    let workers = workers_of(alloc, shares, endpoints)?;
    fork_join(rt, alloc, workers, work)
}
