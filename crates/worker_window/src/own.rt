//! The state of one mote's window, and one poll of it. `worker` polls the windows of a share, and `mote_window` a single one.

ghost use Rattle.std.specs.Prelude.{◌≡◌, ◌≤◌, ◌^◌, ◌++◌, ℕ, true, not, Some, map, vec_len};
ghost use Rattle.std.specs.Prelude.{IfErr, IfSome, MatchOption, OnErr, OnOk, None, []};
ghost use Rattle.std.specs.List.{take_while};
ghost use Rattle.futures.specs.Poll.{IfReady, OnPending};
ghost use Rattle.futures.specs.Task.{Covers, Keeps};
ghost use Rattle.program_tree.specs.Code.{Tree};
ghost use Rattle.program_tree.specs.Program.{tree_of};
ghost use Rattle.mote_node.specs.Public.{node_in};
ghost use Rattle.window_laws.specs.Windows.{is_at};
ghost use Rattle.net_agenda.specs.Buckets.{arrival_of};
ghost use Rattle.net_agenda.specs.Items.{copy_at};
ghost use Rattle.worker_window.specs.MoteWindow.{Window, HasTurn, IsOver, IsNextOf, is_rising, opened};

use crate::gate::Gate;
use crate::out::WindowOut;
use crate::turn_buffers::{TurnBuffers, buffers_in};
use futures::task::{Context, Poll};
use mote_node::{Mote, MoteError};
use net_agenda::extend_trace;
use process_kernel::Line;
use program_tree::Program;
use radio_packet::{Arrival, RadioCopy, Sent};
use std::alloc::{AllocError, Global};

/// A mote in its window: the mote's wake, the copies that arrive at it in the window and that it has taken up to
/// `next`, its lines, and the packets that it sent in the window. `pending` is the wake that its worker's agenda has
/// for it, and `called` says whether the mote has an event in the window. A worker keeps the window of each of its
/// motes for the whole run.
pub struct OwnWindow {
    alloc: Global,
    pub(crate) mote: Mote,
    pub(crate) wake: Option<u64>,
    pub(crate) pending: Option<u64>,
    called: bool,
    copies: Vec<RadioCopy>,
    next: usize,
    pub(crate) lines: Vec<Line>,
    pub(crate) sends: Vec<Sent>,
    ghost inside: { next ≤ vec_len copies },
    ghost rising: { is_rising copies.items ≡ true },
}

impl Drop for OwnWindow {
    fn drop(self) {
        let OwnWindow {
            alloc: _,
            mote: _,
            wake: _,
            pending: _,
            called: _,
            copies: _,
            next: _,
            lines: _,
            sends: _,
        } = self;
    }
}

impl OwnWindow {
    ghost use Rattle.worker_window.specs.Out.{out_of};
    ghost use Rattle.worker_window.specs.Own.{window_in, course_in, course_of, IsSpent, ComesNext, IsFinished, IsNewWindow};
    ghost use Rattle.worker_window.specs.Own.{KeepsMote, Rests};
    ghost use Rattle.worker_window.specs.Turns.{TurnsTo, IsErrorAt, IsFirstError, IsFirstTurn, IsRefusal};

    /// Makes the window of a mote before its first turn, with copies in the order of moment, sender and number. No
    /// clause wants them to be the mote's. This allocates nothing.
    #[tactic(auto, unfolding(crate::specs::Own::window_in, crate::specs::Own::course_in))]
    pub fn new(alloc: Global, mote: Mote, copies: Vec<RadioCopy>) -> OwnWindow
        requires rising { is_rising copies.items ≡ true }
        ensures window { (p : Tree) (until : ℕ) → window_in p until result
            ≡ opened p until copies.items [] (node_in p mote) }
        ensures course { (p : Tree) (until : ℕ) → course_in p until result
            ≡ course_of p until copies.items [] (node_in p mote) }
        ensures made { IsNewWindow mote copies.items result }
    {
        let wake = mote.wake();
        OwnWindow {
            alloc,
            mote,
            wake,
            pending: wake,
            called: false,
            copies,
            next: 0,
            lines: Vec::new(alloc),
            sends: Vec::new(alloc),
        }
    }

    /// Adds the copies of packets that arrive at a moment, after all copies that were added before.
    pub(crate) fn add(
        &mut self,
        moment: u64,
        mote: u16,
        arrivals: &[Arrival],
    ) -> Result<(), AllocError>
        requires rising { is_rising (self.old.copies.items ++ map (copy_at moment mote) arrivals.now) ≡ true }
        ensures added { OnOk result
            (self.new.copies.items ≡ self.old.copies.items ++ map (copy_at moment mote) arrivals.now) }
        ensures kept { KeepsMote self.old self.new }
        ensures called { self.new.called ≡ self.old.called }
    {
        add_copies(&mut self.copies, moment, mote, arrivals)
    }

    /// Calls the mote for the window. Returns whether this is the first call.
    pub(crate) fn call(&mut self) -> bool
        ensures first { result ≡ not self.old.called }
        ensures called { self.new.called ≡ true }
        ensures copies { self.new.copies ≡ self.old.copies }
        ensures kept { KeepsMote self.old self.new }
    {
        let first = !self.called;
        self.called = true;
        first
    }

    /// Returns the moment of the next turn, if a turn is left in the window up to `until`.
    #[inline(always)]
    #[tactic(auto, unfolding(crate::specs::Own::window_in, crate::specs::Own::course_in))]
    pub fn next_moment(&self, until: u64) -> Option<u64>
        ensures comes { (p : Tree) → let c = course_in p until self.now in
            MatchOption result (IsSpent c) (λ moment. ComesNext moment c) }
        ensures next { (p : Tree) → IfSome (window_in p until self.now)
            (λ w. MatchOption result (IsOver w) (λ moment. HasTurn moment w)) }
        ensures bounded { IfSome result (λ moment. moment ≤ until) }
    {
        let moment = least(self.wake, &self.copies[self.next..])?;
        if moment < until { Some(moment) } else { None }
    }

    /// Takes the turn at `moment`, which `next_moment` returned, with the scratch buffers of an earlier turn or with
    /// new ones. It collects the copies for the turn, and then calls the gate; after that, the mote takes the copies.
    ///
    /// # Errors
    /// The error of `Mote::turn_into`, so `Failed` if the mote had failed; also `Memory` if an allocation for buffers,
    /// copies, lines or packets failed.
    #[inline(always)]
    #[tactic(auto, unfolding(crate::specs::Own::window_in))]
    fn turn<G: Gate>(
        &mut self,
        program: &Program,
        moment: u64,
        worker: u16,
        gate: &G,
        buffers: &mut Option<Box<TurnBuffers>>,
    ) -> Result<(), MoteError>
        requires moment_bounded { moment ≤ 2 ^ 40 }
        ensures ok { let p = tree_of program.now in OnOk result ((until : ℕ)
            → IfSome (window_in p until self.old) (HasTurn moment)
            → TurnsTo moment (window_in p until self.old) (window_in p until self.new)) }
        ensures err { let p = tree_of program.now in IfErr result (λ e. (until : ℕ)
            → IfSome (window_in p until self.old) (IsErrorAt moment e)) }
        ensures refusal { let p = tree_of program.now in IfErr result (λ e. (until : ℕ)
            → window_in p until self.old ≡ None → IsRefusal e) }
        ensures pending { self.new.pending ≡ self.old.pending }
    {
        let buffers = buffers_in(self.alloc, buffers)?;
        take_arrivals(&self.copies[self.next..], moment, &mut buffers.arrivals)?;
        self.next += buffers.arrivals.len();
        gate.inside(worker, moment, self.mote.number());
        self.wake = self
            .mote
            .turn_into(program, moment, &buffers.arrivals, &mut buffers.out)?;
        extend_trace(&mut self.lines, &mut buffers.out.lines)?;
        self.sends.append(&mut buffers.out.sends)?;
        Ok(())
    }

    /// Polls the window up to `until`, which is at most 2^40. It takes one turn and yields, or is ready if no turn is
    /// left. A mote that had failed takes no turn.
    ///
    /// # Errors
    /// The error of the turn.
    #[inline(always)]
    pub fn poll<G: Gate>(
        &mut self,
        program: &Program,
        until: u64,
        worker: u16,
        gate: &G,
        buffers: &mut Option<Box<TurnBuffers>>,
        cx: &mut Context<'_>,
    ) -> Poll<Result<(), MoteError>>
        requires until { until ≤ 2 ^ 40 }
        ensures turn { let p = tree_of program.now in OnPending result
            (IsFirstTurn (window_in p until self.old) (window_in p until self.new)) }
        ensures rest { IfReady result (λ r. OnOk r (IsFinished (tree_of program.now) until self.old)) }
        ensures same { IfReady result (λ r. OnOk r (self.new ≡ self.old)) }
        ensures err { let p = tree_of program.now in IfReady result (λ r. IfErr r
            (IsFirstError (course_in p until self.old) (window_in p until self.old))) }
        ensures pending { self.new.pending ≡ self.old.pending }
        ensures registered { OnPending result (Covers cx.new (λ _. ⊥)) }
        ensures kept { Keeps cx.old cx.new }
    {
        let Some(moment) = self.next_moment(until) else {
            return Poll::Ready(Ok(()));
        };
        if let Err(e) = self.turn(program, moment, worker, gate, buffers) {
            return Poll::Ready(Err(e));
        }
        cx.yield_now()
    }

    /// Clears the window after its last turn: the copies that the mote has taken, and the packets, which were sent. The
    /// mote's wake becomes the pending one.
    pub(crate) fn rest(&mut self)
        ensures rests { Rests self.old self.new }
    {
        self.copies.clear();
        self.next = 0;
        self.sends.clear();
        self.pending = self.wake;
        self.called = false;
    }

    /// Takes the window apart, and returns its result.
    pub fn finish(self) -> WindowOut
        ensures value { result ≡ out_of self }
    {
        let OwnWindow {
            alloc: _,
            mote,
            wake,
            pending: _,
            called: _,
            copies: _,
            next: _,
            lines,
            sends,
        } = self;
        WindowOut {
            mote,
            lines,
            sends,
            wake,
        }
    }
}

/// Returns the copy of a packet that arrives.
fn copy_at(moment: u64, mote: u16, arrival: &Arrival) -> RadioCopy
    ensures value { result ≡ copy_at moment mote arrival.now }
{
    RadioCopy {
        at: moment,
        to: mote,
        sender: arrival.sender,
        number: arrival.number,
        value: arrival.value,
    }
}

/// Appends the copies of packets that arrive together. It reserves the memory first, so that each copy is written in
/// its final place.
fn add_copies(
    copies: &mut Vec<RadioCopy>,
    moment: u64,
    mote: u16,
    arrivals: &[Arrival],
) -> Result<(), AllocError>
    ensures appended { OnOk result (copies.new.items ≡ copies.old.items ++ map (copy_at moment mote) arrivals.now) }
    ensures unchanged { OnErr result (copies.new.items ≡ copies.old.items) }
{
    copies.reserve(arrivals.len())?;
    for arrival in arrivals {
        copies.push_reserved(copy_at(moment, mote, arrival));
    }
    Ok(())
}

/// Returns the lesser of the wake and the first copy's moment.
fn least(wake: Option<u64>, copies: &[RadioCopy]) -> Option<u64>
    requires rising { is_rising copies.now ≡ true }
    ensures is_next { MatchOption result ((wake ≡ None) × (copies.now ≡ []))
        (λ moment. IsNextOf moment wake copies.now) }
{
    let Some(first) = copies.first() else {
        return wake;
    };
    let Some(moment) = wake else {
        return Some(first.at);
    };
    Some(moment.min(first.at))
}

fn arrival(copy: &RadioCopy) -> Arrival
    ensures value { result ≡ arrival_of copy.now }
{
    Arrival {
        sender: copy.sender,
        number: copy.number,
        value: copy.value,
    }
}

/// Collects the arrivals of the first copies: those that arrive at this moment.
fn take_arrivals(
    copies: &[RadioCopy],
    moment: u64,
    arrivals: &mut Vec<Arrival>,
) -> Result<(), AllocError>
    ensures arrivals { OnOk result (arrivals.new.items ≡ map arrival_of (take_while (is_at moment) copies.now)) }
{
    arrivals.clear();
    for copy in copies {
        if copy.at != moment {
            return Ok(());
        }
        arrivals.reserve(1)?;
        arrivals.push_reserved(arrival(copy));
    }
    Ok(())
}
