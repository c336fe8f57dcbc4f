//! One window of all workers, each in a thread of its own.

ghost use Rattle.std.specs.Prelude.{◌≡◌, ℕ, ◌^◌, ◌≤◌, true, length, IfErr, IfOk};
ghost use Rattle.std.specs.List.{AllByRecursion as Each};
ghost use Rattle.fork_join.specs.Gravest.{is_own_failure};
ghost use Rattle.mote_net.specs.Meaning.{net_of};
ghost use Rattle.copy_exchange.specs.Inboxes.{HasNoMarks};
ghost use Rattle.window_workers.specs.WorkerGroup.{WorkersAreAt};
ghost use Rattle.window_workers.specs.JoinedLaws.{GroupRunsUntil};

use crate::group::WorkerGroup;
use crate::joins::next::first_of_all;
use crate::joins::worker::{Runner, WorkersWindow};
use crate::threads::run_threads;
use crate::worker::split_workers;
use copy_exchange::gather_window;
use fork_join::WorkerError;
use mote_net::Net;
use std::alloc::{AllocGlobal, Global};
use std::random::RandomSource;
use std::sync::Wait;
use std::thread::Threads;
use worker_window::Gate;

/// Runs one window. Each worker, in a thread of its own, takes in the copies that were sent to it, runs its motes up
/// to `until`, and delivers the copies that they sent. Then all senders are gathered.
///
/// # Errors
/// The error of the worker with the lowest number among those that failed (a test shows which one it is); `Thread` if
/// a thread couldn't be started or the gate refused a start; `Memory` if an allocation fails. The error is never
/// `Stopped`.
pub(crate) fn run_window<'a, R, G>(
    rt: &'a R,
    alloc: Global,
    net: &'a Net,
    owners: &'a [u16],
    until: u64,
    gate: &'a G,
    group: WorkerGroup,
) -> Result<WorkerGroup, WorkerError>
where
    R: Threads + Wait + RandomSource + AllocGlobal + Sync,
    G: Gate + Sync,
    requires until_bounded { until ≤ 2 ^ 40 }
    requires inboxes_bounded { length group.inboxes.items ≤ 16 }
    requires in_state { (from : ℕ) × WorkersAreAt (net_of net.now) owners.now from group × (from ≤ until) }
    requires plain { Each HasNoMarks group.takers.items }
    ensures runs { IfOk result (GroupRunsUntil (net_of net.now) owners.now until group) }
    ensures plain { IfOk result (λ done. Each HasNoMarks done.takers.items) }
    ensures failed { IfErr result (λ e. is_own_failure e ≡ true) }
{
    let WorkerGroup {
        shares,
        inboxes,
        takers,
        first_out: _,
    } = group;
    let window = WorkersWindow {
        net,
        owners,
        inboxes: &inboxes,
        until,
    };
    let done = run_threads(
        rt,
        alloc,
        shares,
        &inboxes,
        takers,
        &Runner { rt, gate, window },
    )?;
    let first_out = first_of_all(&done);
    let (shares, endpoints) = split_workers(alloc, done)?;
    let Ok(takers) = gather_window(rt, alloc, &inboxes, endpoints) else {
        return Err(WorkerError::Memory);
    };
    Ok(WorkerGroup {
        shares,
        inboxes,
        takers,
        first_out,
    })
}
