//! The work of the thread that `run` starts for a worker: all windows of the run, one after another.

ghost use Rattle.std.specs.Prelude.{◌≡◌, ◌≢◌, ◌^◌, ◌<◌, ◌≤◌, suc, true, [], length, IfErr, IfOk, OnOk};
ghost use Rattle.fork_join.specs.declared.work.WorkerError.TheVariants.{Stopped, Thread};
ghost use Rattle.mote_net.specs.Meaning.{net_of};
ghost use Rattle.net_agenda.specs.NetSystem.{system_of};
ghost use Rattle.copy_exchange.specs.Endpoints.{HasMarks, IsOnInboxes};
ghost use Rattle.copy_exchange.specs.Marks.{AreTakersCounts};
ghost use Rattle.worker_window.specs.Window.{CanRun};
ghost use Rattle.window_workers.specs.WorkerGroup.{IsCut};
ghost use Rattle.window_workers.specs.MarkedBounds.{bound, windows_of};
ghost use Rattle.window_workers.specs.MarkedThread.{IsBeforeFirstWindow, LeadsOn, WorkerRunsAllWindows, SendsWindow, TakesWindow};
ghost use Rattle.window_workers.specs.declared.worker.Worker.{Worker as WorkerOfCode};

use crate::windows::window_end;
use crate::worker::Worker;
use copy_exchange::{MarkTaker, WindowPosition};
use copy_inbox::Inbox;
use fork_join::{Watch, Work, WorkerError};
use mote_net::Net;
use std::alloc::{AllocGlobal, Global};
use std::random::RandomSource;
use std::sync::Wait;
use std::sync::ledger::Ledger;
use worker_window::Gate;

/// The data that all workers of a run share.
#[derive(Clone, Copy)]
pub struct WorkersRun<'a> {
    pub net: &'a Net,
    /// The worker of each mote.
    pub owners: &'a [u16],
    /// The inbox of each worker.
    pub inboxes: &'a [Inbox],
    /// The length of a window.
    pub width: u64,
}

/// The data of each thread besides its worker: the runtime, the gate that its turns call, and the run.
pub struct MarkRunner<'a, R, G> {
    pub rt: &'a R,
    pub gate: &'a G,
    pub run: WorkersRun<'a>,
}

impl<R, G> Drop for MarkRunner<'_, R, G> {
    fn drop(self) {
        let MarkRunner {
            rt: _,
            gate: _,
            run: _,
        } = self;
    }
}

impl<R: Wait + RandomSource + AllocGlobal, G: Gate> MarkRunner<'_, R, G> {
    /// Runs the worker's motes through a window. Then it pushes the outgoing copies, and the window's mark after them.
    fn send_window(&self, worker: &mut Worker, window: u64, until: u64) -> Result<(), WorkerError>
        requires until_bounded { until ≤ 2 ^ 40 }
        requires cut { IsCut (length (net_of self.now.run.net.now).motes) (length self.now.run.inboxes.now)
            self.now.run.owners.now }
        requires ready { CanRun (net_of self.now.run.net.now) self.now.run.owners.now until worker.old.share [] }
        requires same { worker.old.share.worker ≡ worker.old.endpoint.worker }
        requires on_inboxes { IsOnInboxes self.now.run.inboxes.now worker.old.endpoint }
        requires marked { HasMarks worker.old.endpoint }
        ensures sends { let run = self.now.run in OnOk result (SendsWindow
            (net_of run.net.now) run.owners.now (length run.inboxes.now) window until worker.old worker.new) }
        ensures on_inboxes { OnOk result (IsOnInboxes self.now.run.inboxes.now worker.new.endpoint) }
        ensures refused { IfErr result (λ reason. reason ≢ Stopped) }
    {
        let none = Vec::new(self.rt.alloc());
        let outgoing = worker.share.run_window(
            self.rt,
            self.run.net,
            self.run.owners,
            none,
            until,
            self.gate,
        )?;
        let Ok(()) = worker.endpoint.deliver_window(
            self.rt,
            self.run.inboxes,
            self.run.owners,
            &outgoing,
            window,
        )
        else {
            return Err(WorkerError::Memory);
        };
        Ok(())
    }

    /// Takes items until the window's mark has arrived from each other worker, and adds the expected copies among the
    /// items to the share.
    fn take_window<L: Ledger>(
        &self,
        watch: &mut Watch<'_, L>,
        worker: &mut Worker,
        marks: &mut MarkTaker,
        window: u64,
        until: u64,
    ) -> Result<(), WorkerError>
        requires on_inboxes { IsOnInboxes self.now.run.inboxes.now worker.old.endpoint }
        requires counts { AreTakersCounts marks.old.counts.items worker.old.endpoint.taker.state }
        ensures takes { OnOk result
            (TakesWindow self.now.run.owners.now window until worker.old worker.new marks.new.counts.items) }
        ensures seen { IfErr result (λ reason. reason ≡ Stopped → watch.new.seen ≡ true) }
        ensures refused { IfErr result (λ reason. reason ≢ Thread) }
    {
        let number = worker.endpoint.worker;
        let inbox = &self.run.inboxes[usize::from(number)];
        let window_position = WindowPosition {
            worker: number,
            owners: self.run.owners,
            from: until,
        };
        let arrived = marks.take_window(
            self.rt,
            self.rt.alloc(),
            inbox,
            &mut worker.endpoint.taker,
            watch,
            &window_position,
            window,
        )?;
        worker.share.take_in(&arrived)?;
        Ok(())
    }

    /// Runs one window, after all earlier ones. First the worker's motes run and send; then the worker takes copies
    /// and marks.
    fn run_one<L: Ledger>(
        &self,
        watch: &mut Watch<'_, L>,
        worker: &mut Worker,
        marks: &mut MarkTaker,
        window: u64,
        until: u64,
    ) -> Result<(), WorkerError>
        requires until_bounded { until ≤ 2 ^ 40 }
        requires width_positive { 0 < self.now.run.width }
        requires window_exists { window < windows_of self.now.run.width (net_of self.now.run.net.now).end }
        requires until { until ≡ bound self.now.run.width (net_of self.now.run.net.now).end (suc window) }
        requires cut { IsCut (length (net_of self.now.run.net.now).motes) (length self.now.run.inboxes.now)
            self.now.run.owners.now }
        requires in_state { let run = self.now.run in (first : WorkerOfCode) × WorkerRunsAllWindows
            (net_of run.net.now) run.owners.now run.width window run.inboxes.now first worker.old }
        requires marked { HasMarks worker.old.endpoint }
        requires counts { AreTakersCounts marks.old.counts.items worker.old.endpoint.taker.state }
        ensures leads_on { let run = self.now.run in OnOk result
            (LeadsOn (net_of run.net.now) run.owners.now run.width window run.inboxes.now worker.old worker.new) }
        ensures counts { OnOk result (AreTakersCounts marks.new.counts.items worker.new.endpoint.taker.state) }
        ensures seen { IfErr result (λ reason. reason ≡ Stopped → watch.new.seen ≡ true) }
    {
        self.send_window(worker, window, until)?;
        self.take_window(watch, worker, marks, window, until)
    }

    /// Runs a worker through all windows, to the end of the net. This is the whole work of its thread.
    ///
    /// # Errors
    /// `Memory` if an allocation fails; `Thread` if the executor returned an error; `Stopped` if the worker stopped
    /// because another worker failed.
    fn run_worker<L: Ledger>(
        &self,
        watch: &mut Watch<'_, L>,
        worker: Worker,
    ) -> Result<Worker, WorkerError>
        requires width_positive { 0 < self.now.run.width }
        requires short { self.now.run.width ≤ (system_of (net_of self.now.run.net.now)).lookahead }
        requires first { IsBeforeFirstWindow (net_of self.now.run.net.now) self.now.run.owners.now self.now.run.inboxes.now worker }
        ensures runs { let run = self.now.run in let model = net_of run.net.now in IfOk result (WorkerRunsAllWindows
            model run.owners.now run.width (windows_of run.width model.end) run.inboxes.now worker) }
        ensures seen { IfErr result (λ reason. reason ≡ Stopped → watch.new.seen ≡ true) }
    {
        let others = self.run.inboxes.len().saturating_sub(1);
        let mut marks = MarkTaker::new(self.rt.alloc(), others, &worker.endpoint.taker)?;
        let end = self.run.net.end();
        let mut worker = worker;
        let mut window: u64 = 0;
        let mut from: u64 = 0;
        'windows: while from <= end {
            let until = window_end(from, self.run.width, end);
            self.run_one(watch, &mut worker, &mut marks, window, until)?;
            window += 1;
            from = until;
        }
        Ok(worker)
    }
}

impl<R: Wait + RandomSource + AllocGlobal, G: Gate> Work<Worker> for MarkRunner<'_, R, G> {
    ghost ready = { λ w worker. (0 < w.run.width) × (w.run.width ≤ (system_of (net_of w.run.net.now)).lookahead)
        × IsBeforeFirstWindow (net_of w.run.net.now) w.run.owners.now w.run.inboxes.now worker };

    ghost makes = { λ w old new. let model = net_of w.run.net.now in
        WorkerRunsAllWindows model w.run.owners.now w.run.width
        (windows_of w.run.width model.end) w.run.inboxes.now old new };

    fn work<L: Ledger>(
        &self,
        worker: Worker,
        watch: &mut Watch<'_, L>,
    ) -> Result<Worker, WorkerError> {
        self.run_worker(watch, worker)
    }

    fn may_start(&self, worker: &Worker) -> bool {
        self.gate.start(worker.endpoint.worker)
    }
}
