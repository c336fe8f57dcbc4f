//! The future over the windows of a share's motes, and the executor that runs it for `window`.

ghost use Rattle.std.specs.Prelude.{◌≡◌, ◌≢◌, ◌≤◌, ◌^◌, List, Option, IfOk, IfErr, OnOk, Ok, false, length};
ghost use Rattle.mote_node.specs.declared.mote.MoteError.TheVariants.{Memory};
ghost use Rattle.fork_join.specs.declared.work.WorkerError.TheVariants.{Stopped};
ghost use Rattle.futures.specs.Task.{Keeps};
ghost use Rattle.mote_net.specs.Meaning.{net_of};
ghost use Rattle.program_tree.specs.Program.{tree_of};
ghost use Rattle.worker_window.specs.declared.own.OwnWindow.{OwnWindow as OwnOfCode};
ghost use Rattle.worker_window.specs.Worker.{AreCalled, CanAllGoOn, CanMoteGoOn, MayEnd, MayEndAs, WorkerMayAnswer};

use crate::gate::Gate;
use crate::own::OwnWindow;
use crate::turn_buffers::TurnBuffers;
use fork_join::WorkerError;
use futures::Future;
use futures::executor::block_on;
use futures::task::{Context, Poll};
use mote_net::Net;
use mote_node::MoteError;
use program_tree::Program;
use std::alloc::{AllocGlobal, Global};
use std::mem;
use std::random::RandomSource;
use std::sync::Wait;

/// Polls the window of each called mote once, one after another, and then yields. It is ready, with all motes, when no
/// turn is left; or when a turn has returned an error. Its contract states only what it is ready with.
pub struct ShareWindow<'a, 'b, G> {
    alloc: Global,
    net: &'a Net,
    until: u64,
    worker: u16,
    gate: &'a G,
    /// The worker's motes, by number.
    motes: Vec<Option<OwnWindow>>,
    /// The numbers of the motes that have an event in the window.
    called: &'b [u16],
    /// The scratch buffers of the turns, which are passed from window to window.
    buffers: &'b mut Option<Box<TurnBuffers>>,
    ghost bounded: { until ≤ 2 ^ 40 },
}

impl<G> Drop for ShareWindow<'_, '_, G> {
    fn drop(self) {
        let ShareWindow {
            alloc: _,
            net: _,
            until: _,
            worker: _,
            gate: _,
            motes: _,
            called: _,
            buffers: _,
        } = self;
    }
}

impl<G: Gate> Future for ShareWindow<'_, '_, G> {
    type Output = Result<Vec<Option<OwnWindow>>, MoteError>;

    ghost can_poll = { λ w. AreCalled (net_of w.net.now) w.called.now w.motes.items };

    ghost gives = { λ w r. WorkerMayAnswer (net_of w.net.now) w.until w.called.now w.motes.items r };

    fn poll(&mut self, cx: &mut Context<'_>) -> Poll<Self::Output> {
        let polled = poll_each(
            &mut self.motes,
            self.called,
            self.net,
            self.until,
            self.worker,
            self.gate,
            self.buffers,
            cx,
        );
        match polled {
            Ok(true) => cx.yield_now(),
            Ok(false) => Poll::Ready(Ok(mem::replace(&mut self.motes, Vec::new(self.alloc)))),
            Err(e) => Poll::Ready(Err(e)),
        }
    }
}

/// Polls the window of a mote once, if there is a mote. Returns whether it took a turn.
#[inline(always)]
fn poll_mote<G: Gate>(
    mote: &mut Option<OwnWindow>,
    program: &Program,
    until: u64,
    worker: u16,
    gate: &G,
    buffers: &mut Option<Box<TurnBuffers>>,
    cx: &mut Context<'_>,
) -> Result<bool, MoteError>
    requires until { until ≤ 2 ^ 40 }
    ensures same { let p = tree_of program.now in OnOk result ((ended : Option OwnOfCode)
        → MayEnd p until mote.new ended → MayEnd p until mote.old ended) }
    ensures go_on { let p = tree_of program.now in OnOk result
        (CanMoteGoOn p until mote.old → CanMoteGoOn p until mote.new) }
    ensures over { let p = tree_of program.now in result ≡ Ok false → MayEnd p until mote.new mote.new }
    ensures err { let p = tree_of program.now in IfErr result (λ e. CanMoteGoOn p until mote.old → e ≡ Memory) }
    ensures kept { Keeps cx.old cx.new }
{
    let Some(own) = mote else {
        return Ok(false);
    };
    match own.poll(program, until, worker, gate, buffers, cx) {
        Poll::Pending => Ok(true),
        Poll::Ready(Ok(())) => Ok(false),
        Poll::Ready(Err(e)) => Err(e),
    }
}

/// Polls the window of each called mote once. Returns whether a mote took a turn.
fn poll_each<G: Gate>(
    motes: &mut Vec<Option<OwnWindow>>,
    called: &[u16],
    net: &Net,
    until: u64,
    worker: u16,
    gate: &G,
    buffers: &mut Option<Box<TurnBuffers>>,
    cx: &mut Context<'_>,
) -> Result<bool, MoteError>
    requires until { until ≤ 2 ^ 40 }
    requires are_called { AreCalled (net_of net.now) called.now motes.old.items }
    ensures places { length motes.new.items ≡ length motes.old.items }
    ensures same { let model = net_of net.now in OnOk result ((ended : List (Option OwnOfCode))
        → MayEndAs model until called.now motes.new.items ended
        → MayEndAs model until called.now motes.old.items ended) }
    ensures go_on { let model = net_of net.now in OnOk result
        (CanAllGoOn model until motes.old.items → CanAllGoOn model until motes.new.items) }
    ensures over { let model = net_of net.now in result ≡ Ok false
        → MayEndAs model until called.now motes.new.items motes.new.items }
    ensures err { let model = net_of net.now in IfErr result
        (λ e. CanAllGoOn model until motes.old.items → e ≡ Memory) }
    ensures kept { Keeps cx.old cx.new }
{
    let mut left = false;
    for number in called {
        let mote = &mut motes[usize::from(*number)];
        match poll_mote(mote, net.program(*number), until, worker, gate, buffers, cx) {
            Ok(turned) => left = left || turned,
            Err(e) => return Err(e),
        }
    }
    Ok(left)
}

/// Runs the windows of a worker's called motes up to `until`, which is at most 2^40, with the worker's future, until
/// no turn is left. No mote may have failed, and the next event of each mote must be after its last turn. The scratch
/// buffers of the turns are passed from window to window.
///
/// # Errors
/// `Memory` if an allocation fails; `Thread` if the executor returned an error.
pub fn run_motes<R, G>(
    rt: &R,
    alloc: Global,
    net: &Net,
    until: u64,
    worker: u16,
    gate: &G,
    motes: Vec<Option<OwnWindow>>,
    called: &[u16],
    buffers: &mut Option<Box<TurnBuffers>>,
) -> Result<Vec<Option<OwnWindow>>, WorkerError>
where
    R: Wait + RandomSource + AllocGlobal,
    G: Gate,
    requires until { until ≤ 2 ^ 40 }
    requires are_called { AreCalled (net_of net.now) called.now motes.items }
    requires go_on { CanAllGoOn (net_of net.now) until motes.items }
    ensures ends { IfOk result (λ ended. MayEndAs (net_of net.now) until called.now motes.items ended.items) }
    ensures refused { IfErr result (λ reason. reason ≢ Stopped) }
{
    // Without a called mote, there is nothing to poll, so no executor is made.
    if called.is_empty() {
        return Ok(motes);
    }
    let window = ShareWindow {
        alloc,
        net,
        until,
        worker,
        gate,
        motes,
        called,
        buffers,
    };
    match block_on(rt, window) {
        Ok(Ok(ended)) => Ok(ended),
        Ok(Err(MoteError::Memory)) => Err(WorkerError::Memory),
        Ok(Err(MoteError::Failed | MoteError::Past)) => unreachable!(),
        Err(_) => Err(WorkerError::Thread),
    }
}
