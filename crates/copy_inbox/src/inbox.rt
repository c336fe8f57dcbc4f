//! The inbox, its taker and its senders.

ghost use Rattle.std.specs.Prelude.{◌≡◌, ◌≤◌, true, false, [], ◌∷◌, ◌++◌, length, Some, None, codes, IfOk, OnOk};
ghost use Rattle.std.specs.Prelude.{OnErr, IfErr, IfSome, IfNone};
ghost use Rattle.copy_inbox.specs.declared.items.Carried.TheVariants.{Packet, Mark};
ghost use Rattle.copy_inbox.specs.declared.inbox.InboxError.TheVariants.{Memory};
ghost use Rattle.copy_inbox.specs.Items.{carries_packet, Packets, part, HasPrefix, OfMade};
ghost use Rattle.copy_inbox.specs.Gathered.{known_of, TookFronts};
ghost use Rattle.copy_inbox.specs.Views.{make_taker_state, make_sender_state};
ghost use Rattle.copy_inbox.specs.Handles.{InboxId, TakerView, SenderView, after_sender, after_pushing, after_gather};
ghost use Rattle.copy_inbox.specs.Handles.{after_taking, TakesCopies, Empties, AllGathered, NoMarkLeft, TakesPackets};
ghost use Rattle.copy_inbox.specs.Handles.{taker_state_in, sender_state_in, IsSender, MayBeTaken};
ghost use Rattle.copy_inbox.specs.Kept.{KeepsSenderCounts};
ghost use Rattle.copy_inbox.specs.Drains.{Drains};

use crate::count::{Count, count_taken, forget_first};
use crate::items::{Carried, Item};
use crate::mark_count::MarkCount;
use crate::rule::{Gathers, Makes, Marks, Pushes, Ruled, Takes, View};
use crossbeam_queue::{RuledSegQueue, SegPass};
use radio_packet::RadioCopy;
use std::alloc::{AllocError, Global};
use std::error::Error;
use std::fmt;
use std::marker::Model;
use std::sync::Wait;
use std::time::Duration;

// The largest number of items that one sender may push.
const MOST: u64 = 1 << 62;

/// The reason why a call gave up.
#[derive(Clone, Copy, Debug, PartialEq, Eq)]
pub enum InboxError {
    /// Out of memory: an allocation failed.
    Memory = 1,
}

impl fmt::Display for InboxError {
    ghost output = { λ _. Some (codes "out of memory") };

    fn fmt<W: fmt::Write>(&self, f: &mut fmt::Formatter<W>) -> fmt::Result {
        f.write_str("out of memory")
    }
}

impl Error for InboxError {}

impl From<AllocError> for InboxError {
    ghost from_gives = { λ _ e. e ≡ Memory };

    fn from(_error: AllocError) -> Self {
        InboxError::Memory
    }
}

/// An inbox. Its senders push copies of packets from any thread, and marks if it has marks; its only taker takes them.
/// No contract can name the contents of an inbox, because another thread may push at any moment. So contracts name the
/// items that a sender has pushed, and those that the taker has taken and gathered.
pub struct Inbox {
    queue: RuledSegQueue<Item, View, Ruled>,
    mark_count: MarkCount,
    alloc: Global,
}

impl Model for Inbox {
    ghost Value = { InboxId };

    ghost view = { λ i. i.queue };
}

/// Makes and gathers the senders of an inbox, and takes the items that they push.
pub struct Taker {
    pass: SegPass<Item, View>,
    /// The number of its first senders that are no longer counted.
    first: u64,
    /// The counts of its other senders.
    counts: Vec<Count>,
    known: u64,
}

impl Model for Taker {
    ghost Value = { TakerView };

    ghost view = { λ t. record {
      inbox = record { web = t.pass.web; heap = t.pass.heap };
      state = taker_state_in t.pass.me.view.client;
    } };

    ghost invariant = { λ t. KeepsSenderCounts t.pass.me.view.client t.first t.counts.items t.known
        × (t.pass.me.hand ≡ None) × (t.pass.me.spare ≡ None) };
}

/// Pushes copies and marks into an inbox.
pub struct Sender {
    pass: SegPass<Item, View>,
    number: u64,
    pushed: u64,
}

impl Model for Sender {
    ghost Value = { SenderView };

    ghost view = { λ s. record {
      inbox = record { web = s.pass.web; heap = s.pass.heap };
      state = sender_state_in s.pass.me.view.client;
    } };

    ghost invariant = { λ s. IsSender s.pass.me.view.client s.pushed
        × (s.number ≡ (sender_state_in s.pass.me.view.client).number)
        × (s.pass.me.hand ≡ None) × (s.pass.me.spare ≡ None) };
}

/// Implemented by hand, so that the check of a function that owns a taker sees only one call for the drop.
impl Drop for Taker {
    fn drop(self) {
        let Taker {
            pass: _,
            first: _,
            counts: _,
            known: _,
        } = self;
    }
}

/// Implemented by hand, for the same reason.
impl Drop for Sender {
    fn drop(self) {
        let Sender {
            pass: _,
            number: _,
            pushed: _,
        } = self;
    }
}

impl Sender {
    // Joins the sender's pass to the taker's pass. The taker then knows all items that the sender pushed.
    fn join<R: Wait>(self, rt: &R, inbox: &Inbox, taker: &mut Taker)
        requires taker { taker.old.inbox ≡ inbox.now }
        requires sender { self.inbox ≡ inbox.now }
        ensures gathered { taker.new ≡ after_gather taker.old self.state }
        ensures begun { HasPrefix self.state.pushed (part self.state.number taker.new.state.taken) }
        ensures plain { taker.old.state.marked ≡ false → Packets self.state.pushed }
    {
        let Sender {
            pass,
            number,
            pushed,
        } = self;
        inbox.queue.absorb::<Gathers>(&mut taker.pass, pass);
        // The call that reads the queue's length yields the proof that the rule holds, and that the counts fit.
        let _held = inbox.queue.len_as::<Takes, R>(rt, &mut taker.pass);
        let index = (number - taker.first) as usize;
        let count = taker.counts[index];
        taker.known += pushed - count.taken;
        taker.counts[index] = Count {
            taken: count.taken,
            gathered: true,
        };
        forget_first(&mut taker.first, &mut taker.counts);
    }
}

impl Inbox {
    /// Makes an inbox into which nothing was pushed, and its taker, which has made no sender.
    ///
    /// # Errors
    /// `Memory` if an allocation fails.
    pub fn make(alloc: Global) -> Result<(Inbox, Taker), InboxError>
        ensures of_inbox { IfOk result (λ made. made.1.inbox ≡ made.0) }
        ensures empty { IfOk result (λ made. made.1.state ≡ make_taker_state false 0 [] []) }
    {
        let (queue, pass) = RuledSegQueue::with_rule(alloc)?;
        let taker = Taker {
            pass,
            first: 0,
            counts: Vec::new(alloc),
            known: 0,
        };
        let inbox = Inbox {
            queue,
            mark_count: MarkCount::new(),
            alloc,
        };
        Ok((inbox, taker))
    }

    /// Makes an inbox with marks, and its taker. [`Inbox::make`] makes an inbox without marks.
    ///
    /// # Errors
    /// `Memory` if an allocation fails.
    pub fn make_marked(alloc: Global) -> Result<(Inbox, Taker), InboxError>
        ensures of_inbox { IfOk result (λ made. made.1.inbox ≡ made.0) }
        ensures empty { IfOk result (λ made. made.1.state ≡ make_taker_state true 0 [] []) }
    {
        let (inbox, mut taker) = Inbox::make(alloc)?;
        // This call records, for the proof, that the inbox has marks. The pass that this splits off belongs to nobody.
        let _nobody = inbox.queue.another::<Marks>(&mut taker.pass);
        Ok((inbox, taker))
    }

    /// Makes a sender, which has pushed nothing. Senders are numbered from 0, in the order in which they are made.
    ///
    /// # Errors
    /// `Memory` if an allocation fails. Then the taker is unchanged.
    pub fn sender(&self, taker: &mut Taker) -> Result<Sender, InboxError>
        requires of_inbox { taker.old.inbox ≡ self.now }
        ensures of_inbox { IfOk result (λ sender. sender.inbox ≡ self.now) }
        ensures fresh { IfOk result
            (λ sender. sender.state ≡ make_sender_state taker.old.state.marked taker.old.state.made []) }
        ensures taker { OnOk result (taker.new ≡ after_sender taker.old) }
        ensures refused { OnErr result (taker.new ≡ taker.old) }
    {
        taker.counts.reserve(1)?;
        let number = taker.first + taker.counts.len() as u64;
        let pass = self.queue.another::<Makes>(&mut taker.pass);
        taker.counts.push_reserved(Count {
            taken: 0,
            gathered: false,
        });
        Ok(Sender {
            pass,
            number,
            pushed: 0,
        })
    }

    /// Pushes a copy.
    ///
    /// # Errors
    /// The copy, if an allocation fails, or after 2^62 pushes. Then nothing has changed.
    pub fn push_copy<R: Wait>(
        &self,
        rt: &R,
        sender: &mut Sender,
        copy: RadioCopy,
    ) -> Result<(), RadioCopy>
        requires of_inbox { sender.old.inbox ≡ self.now }
        ensures of_inbox { sender.new.inbox ≡ sender.old.inbox }
        ensures pushed { OnOk result (sender.new.state ≡ after_pushing sender.old.state (Packet copy)) }
        ensures comes_back { IfErr result (λ back. back ≡ copy) }
        ensures refused { OnErr result (sender.new ≡ sender.old) }
    {
        self.push(rt, sender, Carried::Packet(copy))
            .map_err(|_| copy)
    }

    /// Pushes the mark of a window.
    ///
    /// # Errors
    /// The window's number, if an allocation fails, or after 2^62 pushes. Then nothing has changed.
    pub fn push_mark<R: Wait>(&self, rt: &R, sender: &mut Sender, window: u64) -> Result<(), u64>
        requires of_inbox { sender.old.inbox ≡ self.now }
        requires marked { sender.old.state.marked ≡ true }
        ensures of_inbox { sender.new.inbox ≡ sender.old.inbox }
        ensures pushed { OnOk result (sender.new.state ≡ after_pushing sender.old.state (Mark window)) }
        ensures comes_back { IfErr result (λ back. back ≡ window) }
        ensures refused { OnErr result (sender.new ≡ sender.old) }
    {
        self.push(rt, sender, Carried::Mark(window))
            .map_err(|_| window)?;
        self.mark_count.add();
        Ok(())
    }

    /// Lets the taker sleep until `marks` marks have been pushed in all, but at most for `longest`; it may wake
    /// sooner.
    pub fn wait_for_marks<R: Wait>(&self, rt: &R, marks: u64, longest: Duration) {
        self.mark_count.sleep(rt, marks, longest);
    }

    // Pushes a copy or a mark. A mark may be pushed only if the inbox has marks.
    fn push<R: Wait>(&self, rt: &R, sender: &mut Sender, what: Carried) -> Result<(), Carried>
        requires of_inbox { sender.old.inbox ≡ self.now }
        requires plain { sender.old.state.marked ≡ false → carries_packet what ≡ true }
        ensures of_inbox { sender.new.inbox ≡ sender.old.inbox }
        ensures pushed { OnOk result (sender.new.state ≡ after_pushing sender.old.state what) }
        ensures refused { OnErr result (sender.new ≡ sender.old) }
    {
        if sender.pushed >= MOST {
            return Err(what);
        }
        let item = Item {
            sender: sender.number,
            what,
        };
        self.queue
            .push_as::<Pushes, R>(rt, &mut sender.pass, item)
            .map_err(|_| what)?;
        sender.pushed += 1;
        Ok(())
    }

    /// Takes back a sender, which can't push any more. The taker then knows all items that the sender pushed.
    pub fn gather<R: Wait>(&self, rt: &R, taker: &mut Taker, sender: Sender)
        requires taker { taker.old.inbox ≡ self.now }
        requires sender { sender.inbox ≡ self.now }
        ensures gathered { taker.new ≡ after_gather taker.old sender.state }
        ensures begun { HasPrefix sender.state.pushed (part sender.state.number taker.new.state.taken) }
        ensures plain { taker.old.state.marked ≡ false → Packets sender.state.pushed }
    {
        sender.join(rt, self, taker);
    }

    /// Returns the number of copies and marks of gathered senders that haven't been taken yet.
    pub fn known(&self, taker: &Taker) -> u64
        requires of_inbox { taker.now.inbox ≡ self.now }
        ensures count { result ≡ known_of taker.now.state.gathered taker.now.state.taken }
    {
        let Taker { known, .. } = taker;
        *known
    }

    /// Takes a copy or a mark, and returns it with the number of its sender. This allocates nothing. The items taken
    /// from a gathered sender are still a prefix of those that it pushed. If it returns `None`, no item is known and
    /// nothing has changed. It takes the oldest item, and returns `None` only if it finds the queue empty; no clause
    /// says so, because other threads push at any moment. The tests `marked_inbox` and `items_one_by_one` show it.
    pub fn take_next<R: Wait>(&self, rt: &R, taker: &mut Taker) -> Option<Item>
        requires of_inbox { taker.old.inbox ≡ self.now }
        ensures still { (taker.new.inbox ≡ taker.old.inbox) × (taker.new.state.made ≡ taker.old.state.made)
            × (taker.new.state.gathered ≡ taker.old.state.gathered) }
        ensures taken { IfSome result (λ x. taker.new ≡ after_taking taker.old (x ∷ [])) }
        ensures next { IfSome result (λ x. MayBeTaken taker.old.state x) }
        ensures items { TookFronts taker.new.state.gathered taker.new.state.taken
            × OfMade taker.new.state.made taker.new.state.taken }
        ensures same { IfNone result (taker.new ≡ taker.old) }
        ensures none { IfNone result (known_of taker.old.state.gathered taker.old.state.taken ≡ 0) }
    {
        let item = self.queue.pop_as::<Takes, R>(rt, &mut taker.pass)?;
        let gathered = count_taken(taker.first, &mut taker.counts, item.sender);
        taker.known -= u64::from(gathered);
        Some(item)
    }

    /// Takes the `n` oldest copies of an inbox without marks.
    ///
    /// # Errors
    /// `Memory` if an allocation fails. The memory is allocated before the first copy is taken, so nothing has changed
    /// after this error.
    pub fn drain<R: Wait>(
        &self,
        rt: &R,
        taker: &mut Taker,
        n: u64,
    ) -> Result<Vec<RadioCopy>, InboxError>
        requires of_inbox { taker.old.inbox ≡ self.now }
        requires plain { taker.old.state.marked ≡ false }
        requires known { n ≤ known_of taker.old.state.gathered taker.old.state.taken }
        ensures count { IfOk result (λ copies. length copies.items ≡ n) }
        ensures taken { IfOk result (λ copies. TakesCopies taker.old taker.new copies.items) }
        ensures drained { OnOk result (Drains taker.old.state taker.new.state n) }
        ensures refused { OnErr result (taker.new ≡ taker.old) }
    {
        self.take_packets(rt, taker, n)
    }

    // Takes the `n` oldest copies, if no mark can be before them.
    fn take_packets<R: Wait>(
        &self,
        rt: &R,
        taker: &mut Taker,
        n: u64,
    ) -> Result<Vec<RadioCopy>, InboxError>
        requires of_inbox { taker.old.inbox ≡ self.now }
        requires packets { TakesPackets taker.old.state }
        requires known { n ≤ known_of taker.old.state.gathered taker.old.state.taken }
        ensures count { IfOk result (λ copies. length copies.items ≡ n) }
        ensures taken { IfOk result (λ copies. TakesCopies taker.old taker.new copies.items) }
        ensures drained { OnOk result (Drains taker.old.state taker.new.state n) }
        ensures refused { OnErr result (taker.new ≡ taker.old) }
    {
        let mut copies = Vec::with_capacity(self.alloc, n as usize)?;
        for _ in 0..n {
            match self.take_next(rt, taker) {
                Some(item) => match item.what {
                    Carried::Packet(copy) => copies.push_reserved(copy),
                    Carried::Mark(_) => unreachable!(),
                },
                None => unreachable!(),
            }
        }
        let _known = taker.known;
        Ok(copies)
    }

    /// Ends the inbox, and returns everything that is left in it.
    ///
    /// # Errors
    /// `Memory` if an allocation fails. Then everything that is left in the inbox is dropped with it.
    pub fn close<R: Wait>(self, rt: &R, taker: Taker) -> Result<Vec<RadioCopy>, InboxError>
        requires of_inbox { taker.inbox ≡ self }
        requires gathered { AllGathered taker.state }
        requires packets { NoMarkLeft taker.state }
        ensures empties { IfOk result (λ copies. Empties taker.state copies.items) }
    {
        let mut taker = taker;
        let known = self.known(&taker);
        self.take_packets(rt, &mut taker, known)
    }
}

impl Drop for Inbox {
    fn drop(self) {
        let Self {
            queue,
            mark_count: _,
            alloc: _,
        } = self;
        queue.destroy();
    }
}
