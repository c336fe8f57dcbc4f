//! Takes items until the marks of a window have arrived.

ghost use Rattle.std.specs.Prelude.{◌≡◌, ◌≢◌, ◌∷◌, ◌++◌, true, [], filter, IfOk, IfErr, OnOk};
ghost use Rattle.copy_inbox.specs.declared.rule.TakerState.{TakerState};
ghost use Rattle.copy_inbox.specs.Handles.{MayBeTaken, state_with};
ghost use Rattle.copy_exchange.specs.Expected.{TakesExpected, expected_in, is_expected, position_of};
ghost use Rattle.copy_exchange.specs.Marks.{AreTakersCounts, AllPast};
ghost use Rattle.fork_join.specs.declared.work.WorkerError.TheVariants.{Stopped, Thread};

use crate::heard::{all_past, no_marks};
use crate::is_own;
use crate::wait::{Waiting, wait};
use copy_inbox::{Carried, Inbox, Item, Taker};
use fork_join::{Watch, WorkerError};
use radio_packet::RadioCopy;
use std::alloc::{AllocError, Global};
use std::sync::Wait;
use std::sync::ledger::Ledger;

/// The position of a worker between two windows. Definitions call it `Position`.
#[derive(Clone, Copy)]
pub struct WindowPosition<'a> {
    pub worker: u16,
    /// The worker of each mote.
    pub owners: &'a [u16],
    /// The moment at which the worker's next window begins.
    pub from: u64,
}

/// Returns whether the copy is expected: it is for a mote of the worker, isn't from one of the worker's motes, and
/// doesn't arrive before the worker's next window begins.
fn is_expected(window_position: &WindowPosition<'_>, copy: RadioCopy) -> bool
    ensures value { result ≡ is_expected (position_of window_position.now) copy }
{
    if !is_own(window_position.owners, window_position.worker, copy.to) {
        return false;
    }
    if is_own(window_position.owners, window_position.worker, copy.sender) {
        return false;
    }
    window_position.from <= copy.at
}

/// Appends a copy that was taken to those that have arrived, if it is expected.
fn add_expected(
    window_position: &WindowPosition<'_>,
    arrived: &mut Vec<RadioCopy>,
    copy: RadioCopy,
) -> Result<(), AllocError>
    ensures added { OnOk result (arrived.new.items ≡ arrived.old.items
        ++ filter (is_expected (position_of window_position.now)) (copy ∷ [])) }
{
    if is_expected(window_position, copy) {
        arrived.push(copy)?;
    }
    Ok(())
}

/// Handles an item that was taken: counts a mark, and appends an expected copy to those that have arrived.
fn record_item(
    window_position: &WindowPosition<'_>,
    marks: &mut Vec<u64>,
    arrived: &mut Vec<RadioCopy>,
    item: Item,
) -> Result<(), AllocError>
    requires is_next { (d : TakerState) × AreTakersCounts marks.old.items d × MayBeTaken d item }
    ensures counts { OnOk result
        ((d : TakerState) → AreTakersCounts marks.old.items d → MayBeTaken d item
        → AreTakersCounts marks.new.items (state_with d item)) }
    ensures arrived { OnOk result
        (arrived.new.items ≡ arrived.old.items ++ expected_in (position_of window_position.now) (item ∷ [])) }
{
    match item.what {
        Carried::Packet(copy) => add_expected(window_position, arrived, copy)?,
        Carried::Mark(_) => marks[item.sender as usize] += 1,
    }
    Ok(())
}

/// Takes the copies and the marks of one window after another.
pub struct MarkTaker {
    /// The number of marks from each sender, by the sender's number.
    pub counts: Vec<u64>,
    /// The state of the wait for marks.
    waiting: Waiting,
}

/// Implemented by hand: for the checker, each function that owns a value then drops it with a single call.
impl Drop for MarkTaker {
    fn drop(self) {
        let MarkTaker {
            counts: _,
            waiting: _,
        } = self;
    }
}

impl MarkTaker {
    /// Makes the counts of a taker that has made this many senders, and has taken nothing yet.
    ///
    /// # Errors
    /// `AllocError` if an allocation fails.
    pub fn new(alloc: Global, senders: usize, _taker: &Taker) -> Result<MarkTaker, AllocError>
        requires made { _taker.now.state.made ≡ senders }
        requires taken { _taker.now.state.taken ≡ [] }
        ensures counts { IfOk result (λ made. AreTakersCounts made.counts.items _taker.now.state) }
    {
        let counts = no_marks(alloc, senders)?;
        Ok(MarkTaker {
            counts,
            waiting: Waiting::new(),
        })
    }

    /// Takes items until the mark of the window numbered `window`, counted from 0, has arrived from each sender: that
    /// is, until more than `window` marks have arrived from each sender. It returns the expected copies among the items,
    /// which are all, if the other workers follow the protocol. It also takes items of a later window that arrive
    /// earlier. `watch` reads the flag that a failing worker sets.
    ///
    /// # Errors
    /// `Memory` if an allocation fails; `Stopped` if the flag is set when the call looks at it.
    pub fn take_window<R: Wait, L: Ledger>(
        &mut self,
        rt: &R,
        alloc: Global,
        inbox: &Inbox,
        taker: &mut Taker,
        watch: &mut Watch<'_, L>,
        window_position: &WindowPosition<'_>,
        window: u64,
    ) -> Result<Vec<RadioCopy>, WorkerError>
        requires of_inbox { taker.old.inbox ≡ inbox.now }
        requires counts { AreTakersCounts self.old.counts.items taker.old.state }
        ensures took { IfOk result
            (λ copies. TakesExpected (position_of window_position.now) taker.old taker.new copies.items) }
        ensures counts { OnOk result (AreTakersCounts self.new.counts.items taker.new.state) }
        ensures marked { OnOk result (AllPast window self.new.counts.items) }
        ensures stopped { IfErr result (λ error. error ≡ Stopped → watch.new.seen ≡ true) }
        ensures refused { IfErr result (λ error. error ≢ Thread) }
    {
        let mut arrived = Vec::new(alloc);
        self.waiting.begin();
        for _ in rt.forever() {
            if all_past(&self.counts, window) {
                return Ok(arrived);
            }
            match inbox.take_next(rt, taker) {
                Some(item) => record_item(window_position, &mut self.counts, &mut arrived, item)?,
                None => wait(rt, inbox, watch, &self.counts, window, &mut self.waiting)?,
            }
        }
        unreachable!()
    }
}
