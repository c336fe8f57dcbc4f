//! The window of a mote as a future, for callers who have one mote: each poll takes one turn. It polls `own::OwnWindow`, as
//! the future of a worker does.

ghost use Rattle.std.specs.Prelude.{◌≡◌, ◌≤◌, ◌^◌, [], true, Some, None, IsSome, IsSomeAnd, IfSome, IfOk, IfErr, ⊤};
ghost use Rattle.futures.specs.Poll.{IfReady, OnPending};
ghost use Rattle.futures.specs.Task.{Covers, Keeps};
ghost use Rattle.program_tree.specs.Program.{tree_of};
ghost use Rattle.mote_node.specs.Public.{node_in};
ghost use Rattle.worker_window.specs.Out.{out_of};
ghost use Rattle.worker_window.specs.Own.{window_in, course_in, course_of};
ghost use Rattle.worker_window.specs.MoteWindow.{is_rising, opened};
ghost use Rattle.worker_window.specs.Turns.{MayAnswer, TakesTurn, RestsAs, ErrsAs};

use crate::gate::Gate;
use crate::out::WindowOut;
use crate::own::OwnWindow;
use crate::turn_buffers::TurnBuffers;
use futures::Future;
use futures::task::{Context, Poll};
use mote_node::{Mote, MoteError};
use program_tree::Program;
use radio_packet::RadioCopy;
use std::alloc::Global;

/// A mote in its window, until the future is ready. If a turn is left below the bound, a poll takes exactly one turn,
/// at the lesser of the mote's wake and the next copy's moment, and yields, or is ready with the turn's error.
/// Otherwise, the future is ready.
pub struct MoteWindow<'a, G> {
    own: Option<OwnWindow>,
    program: &'a Program,
    until: u64,
    worker: u16,
    gate: &'a G,
    buffers: Option<Box<TurnBuffers>>,
    ghost bounded: { until ≤ 2 ^ 40 },
}

impl<G> Drop for MoteWindow<'_, G> {
    fn drop(self) {
        let MoteWindow {
            own: _,
            program: _,
            until: _,
            worker: _,
            gate: _,
            buffers: _,
        } = self;
    }
}

impl<'a, G: Gate> MoteWindow<'a, G> {
    /// Makes the window of a mote with this program, up to `until`, which is at most 2^40. The copies are in
    /// the order of moment, sender and number; no clause wants them to be the mote's. This allocates nothing.
    pub fn new(
        alloc: Global,
        mote: Mote,
        program: &'a Program,
        copies: Vec<RadioCopy>,
        until: u64,
        worker: u16,
        gate: &'a G,
    ) -> MoteWindow<'a, G>
        requires until { until ≤ 2 ^ 40 }
        requires rising { is_rising copies.items ≡ true }
        ensures worker { result.worker ≡ worker }
        ensures window { let p = tree_of program.now in
            IsSomeAnd result.own (λ own. window_in p until own ≡ opened p until copies.items [] (node_in p mote)) }
        ensures course { let p = tree_of program.now in
            IsSomeAnd result.own (λ own. course_in p until own ≡ course_of p until copies.items [] (node_in p mote)) }
        ensures bound { (result.program.now ≡ program.now) × (result.until ≡ until) }
    {
        MoteWindow {
            own: Some(OwnWindow::new(alloc, mote, copies)),
            program,
            until,
            worker,
            gate,
            buffers: None,
        }
    }
}

/// Takes the window when no turn is left, and returns its result. It is a separate function, so that a turn clears no
/// stack space for the result.
#[inline(always)]
fn finish(own: &mut Option<OwnWindow>) -> WindowOut
    requires owned { IsSome own.old }
    ensures value { IfSome own.old (λ own. result ≡ out_of own) }
    ensures given_up { own.new ≡ None }
{
    own.take().unwrap().finish()
}

/// Drops a window and its mote. It is a separate function for the same reason.
#[inline(always)]
fn give_up(own: &mut Option<OwnWindow>)
    ensures given_up { own.new ≡ None }
{
    *own = None;
}

impl<G: Gate> Future for MoteWindow<'_, G> {
    type Output = Result<WindowOut, MoteError>;

    ghost gives = { λ w r. MayAnswer (tree_of w.program.now) w.until w.own r };

    /// Takes one turn and yields, or is ready. A mote that had failed before takes no turn: the future is ready with
    /// the mote's earlier result, if no event of the mote is in the window.
    ///
    /// # Errors
    /// The error of the turn; the mote is then dropped. `Failed` at a later poll. For a mote that had failed before and
    /// has an event in the window, `Failed`, or `Memory` if an allocation failed.
    fn poll(&mut self, cx: &mut Context<'_>) -> Poll<Self::Output>
        ensures value { IfReady result (MayAnswer (tree_of self.old.program.now) self.old.until self.old.own) }
        ensures again { OnPending result ⊤ }
        ensures same { OnPending result ((r : _) → MayAnswer (tree_of self.new.program.now) self.new.until self.new.own r
            → MayAnswer (tree_of self.old.program.now) self.old.until self.old.own r) }
        ensures registered { OnPending result (Covers cx.new (λ _. ⊥)) }
        ensures kept { Keeps cx.old cx.new }
        ensures turn { OnPending result
            (TakesTurn (tree_of self.old.program.now) self.old.until self.old.own self.new.own) }
        ensures rest { IfReady result (λ r. IfOk r
            (RestsAs (tree_of self.old.program.now) self.old.until self.old.own)) }
        ensures err { IfReady result (λ r. IfErr r
            (ErrsAs (tree_of self.old.program.now) self.old.until self.old.own)) }
        ensures given_up { IfReady result (λ _. self.new.own ≡ None) }
    {
        let Some(own) = &mut self.own else {
            return Poll::Ready(Err(MoteError::Failed));
        };
        match own.poll(
            self.program,
            self.until,
            self.worker,
            self.gate,
            &mut self.buffers,
            cx,
        ) {
            Poll::Pending => Poll::Pending,
            Poll::Ready(Ok(())) => Poll::Ready(Ok(finish(&mut self.own))),
            Poll::Ready(Err(e)) => {
                give_up(&mut self.own);
                Poll::Ready(Err(e))
            }
        }
    }
}
