//! The run of all workers, each in one thread from its first window to its last.

ghost use Rattle.std.specs.Prelude.{◌≡◌, suc, true, IfErr, IfOk};
ghost use Rattle.std.specs.List.{AllByRecursion as Each};
ghost use Rattle.fork_join.specs.Gravest.{is_own_failure};
ghost use Rattle.mote_net.specs.Meaning.{net_of};
ghost use Rattle.net_agenda.specs.NetSystem.{system_of};
ghost use Rattle.copy_inbox.specs.Gathered.{Whole};
ghost use Rattle.window_workers.specs.WorkerGroup.{WorkersAreAt};
ghost use Rattle.window_workers.specs.WindowLength.{HasSoundMedium, length_of_window};
ghost use Rattle.window_workers.specs.Start.{AreReady};
ghost use Rattle.window_workers.specs.MarkedRun.{GroupRunsMarked};

use crate::group::WorkerGroup;
use crate::marks::thread::{MarkRunner, WorkersRun};
use crate::threads::run_threads;
use crate::windows::{lookahead_of, window_length};
use crate::worker::split_workers;
use copy_exchange::gather_back;
use fork_join::WorkerError;
use mote_net::Net;
use std::alloc::{AllocGlobal, Global};
use std::random::RandomSource;
use std::sync::Wait;
use std::thread::Threads;
use worker_window::Gate;

/// Runs all workers to the end of the net, each in one thread for the whole run. All windows except the last have the
/// same length: the lookahead, or `longest` if that is above 0 and below the lookahead. `owners` is the worker of each
/// mote. The inboxes have marks, and are empty at the end.
///
/// # Errors
/// `Memory` if an allocation fails; `Thread` if a thread couldn't be started, the gate refused a start, or the
/// executor returned an error. If several workers failed, the error is that of the worker with the lowest number, as a
/// test shows. It is never `Stopped`, because a worker stops only after another failure.
pub fn run_by_marks<'a, R, G>(
    rt: &'a R,
    alloc: Global,
    net: &'a Net,
    owners: &'a [u16],
    longest: u32,
    gate: &'a G,
    group: WorkerGroup,
) -> Result<WorkerGroup, WorkerError>
where
    R: Threads + Wait + RandomSource + AllocGlobal + Sync,
    G: Gate + Sync,
    requires ready { AreReady (net_of net.now) owners.now group }
    requires marked { Each (λ taker. taker.state.marked ≡ true) group.takers.items }
    ensures at_moment { let model = net_of net.now in IfOk result (λ done. WorkersAreAt model owners.now (suc model.end) done) }
    ensures inboxes { IfOk result (λ done. done.inboxes.items ≡ group.inboxes.items) }
    // Each worker ran all windows, which have this length.
    ensures windows { let model = net_of net.now in
        IfOk result (GroupRunsMarked model owners.now (length_of_window (system_of model).lookahead longest) group) }
    ensures all_taken { IfOk result
        (λ done. Each (λ taker. Whole taker.state.gathered taker.state.taken) done.takers.items) }
    ensures failed { IfErr result (λ e. is_own_failure e ≡ true) }
    ensures sound { HasSoundMedium (net_of net.now) }
{
    let width = window_length(lookahead_of(net), longest);
    let WorkerGroup {
        shares,
        inboxes,
        takers,
        first_out: _,
    } = group;
    let run = WorkersRun {
        net,
        owners,
        inboxes: &inboxes,
        width,
    };
    let done = run_threads(
        rt,
        alloc,
        shares,
        &inboxes,
        takers,
        &MarkRunner { rt, gate, run },
    )?;
    let (shares, endpoints) = split_workers(alloc, done)?;
    let Ok(takers) = gather_back(rt, alloc, &inboxes, endpoints) else {
        return Err(WorkerError::Memory);
    };
    Ok(WorkerGroup {
        shares,
        inboxes,
        takers,
        first_out: None,
    })
}
