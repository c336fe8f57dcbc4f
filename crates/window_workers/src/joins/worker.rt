//! One worker in one window: the work of the thread that `window` starts.

ghost use Rattle.std.specs.Prelude.{◌≢◌, ℕ, IfErr, IfOk};
ghost use Rattle.fork_join.specs.declared.work.WorkerError.TheVariants.{Stopped};
ghost use Rattle.mote_net.specs.Meaning.{net_of};
ghost use Rattle.radio_packet.specs.declared.copy.RadioCopy.{RadioCopy};
ghost use Rattle.window_laws.specs.Windows.{NoneBefore};
ghost use Rattle.window_workers.specs.JoinedWorker.{IsReadyWorker, RunsWorker, IsFirstOf};
ghost use Rattle.window_workers.specs.WorkerGroup.{IsNotBefore};

use crate::worker::Worker;
use copy_inbox::Inbox;
use fork_join::{Watch, Work, WorkerError};
use mote_net::Net;
use radio_packet::RadioCopy;
use std::random::RandomSource;
use std::sync::Wait;
use std::sync::ledger::Ledger;
use worker_window::Gate;

/// The data that all workers of a window share.
#[derive(Clone, Copy)]
pub struct WorkersWindow<'a> {
    pub net: &'a Net,
    /// The worker of each mote.
    pub owners: &'a [u16],
    /// The inbox of each worker.
    pub inboxes: &'a [Inbox],
    /// The window ends before this moment.
    pub until: u64,
}

/// The data of each thread besides its worker: the runtime, the gate that its turns call, and the window.
pub struct Runner<'a, R, G> {
    pub rt: &'a R,
    pub gate: &'a G,
    pub window: WorkersWindow<'a>,
}

impl<R, G> Drop for Runner<'_, R, G> {
    fn drop(self) {
        let Runner {
            rt: _,
            gate: _,
            window: _,
        } = self;
    }
}

/// Returns the earlier of two moments, or the only one.
pub fn sooner(one: Option<u64>, other: Option<u64>) -> Option<u64>
    ensures one { (copy : RadioCopy) → IsNotBefore one copy → IsNotBefore result copy }
    ensures other { (copy : RadioCopy) → IsNotBefore other copy → IsNotBefore result copy }
    ensures greatest { (moment : ℕ) → NoneBefore moment one → NoneBefore moment other → NoneBefore moment result }
    ensures least { (moment : ℕ) → NoneBefore moment result → NoneBefore moment one × NoneBefore moment other }
{
    let Some(moment) = one else {
        return other;
    };
    let Some(second) = other else {
        return one;
    };
    Some(moment.min(second))
}

/// Returns the earliest moment of arrival among these copies.
fn first_of(copies: &[RadioCopy]) -> Option<u64>
    ensures is_first_of { IsFirstOf copies.now result }
{
    let mut first = None;
    for copy in copies {
        first = sooner(Some(copy.at), first);
    }
    first
}

/// Runs a worker through the window. The worker takes in the copies that other workers sent in earlier windows, while
/// the others may already send more. Then it runs its motes, and delivers the outgoing copies.
fn run_worker<R: Wait + RandomSource + AllocGlobal, G: Gate>(
    rt: &R,
    gate: &G,
    window: &WorkersWindow<'_>,
    worker: Worker,
) -> Result<Worker, WorkerError>
    requires ready { IsReadyWorker
        (net_of window.now.net.now) window.now.owners.now window.now.inboxes.now window.now.until
        worker }
    ensures runs { IfOk result (RunsWorker
        (net_of window.now.net.now) window.now.owners.now window.now.inboxes.now window.now.until worker) }
    // No worker waits for another within a window.
    ensures refused { IfErr result (λ reason. reason ≢ Stopped) }
{
    let Worker {
        mut share,
        mut endpoint,
        first_out: _,
    } = worker;
    let Ok(arrived) = endpoint.collect(rt, window.inboxes) else {
        return Err(WorkerError::Memory);
    };
    let outgoing = share.run_window(rt, window.net, window.owners, arrived, window.until, gate)?;
    let first_out = first_of(&outgoing);
    let Ok(()) = endpoint.deliver(rt, window.inboxes, window.owners, &outgoing) else {
        return Err(WorkerError::Memory);
    };
    Ok(Worker {
        share,
        endpoint,
        first_out,
    })
}

impl<R: Wait + RandomSource + AllocGlobal, G: Gate> Work<Worker> for Runner<'_, R, G> {
    ghost ready = { λ w worker. IsReadyWorker
        (net_of w.window.net.now) w.window.owners.now w.window.inboxes.now w.window.until worker };

    ghost makes = { λ w old new. RunsWorker
        (net_of w.window.net.now) w.window.owners.now w.window.inboxes.now w.window.until old new };

    fn work<L: Ledger>(
        &self,
        worker: Worker,
        _watch: &mut Watch<'_, L>,
    ) -> Result<Worker, WorkerError> {
        run_worker(self.rt, self.gate, &self.window, worker)
    }

    fn may_start(&self, worker: &Worker) -> bool {
        self.gate.start(worker.endpoint.worker)
    }
}
