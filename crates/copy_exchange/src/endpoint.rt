//! The endpoint of a worker in the exchange: its taker, and its senders on the inboxes of the others.

ghost use Rattle.std.specs.Prelude.{[], ◌∷◌, ◌<◌, true, length, IfOk, IfSome, OnOk, OnErr, ◌≡◌};
ghost use Rattle.std.specs.List.{AllByRecursion as Each};
ghost use Rattle.copy_exchange.specs.Endpoints.{IsEndpoint, IsOnInboxes, HasMarks, Collects, Delivers, Leaves};
ghost use Rattle.copy_exchange.specs.Endpoints.{PushesMarks, sender_to};
ghost use Rattle.copy_exchange.specs.Inboxes.{HasNoMarks};
ghost use Rattle.copy_exchange.specs.Delivers.{PushesWindow};
ghost use Rattle.copy_exchange.specs.Steps.{MarksOne};

use copy_inbox::{Inbox, InboxError, Sender, Taker};
use radio_packet::RadioCopy;
use std::sync::Wait;

/// The endpoint with which a worker takes and delivers copies in its thread: the taker of its own inbox, and a sender
/// on the inbox of each other worker.
pub struct Endpoint {
    /// The number of the worker.
    pub worker: u16,
    pub taker: Taker,
    /// For each worker, the sender on its inbox; `None` for the endpoint's own worker.
    pub senders: Vec<Option<Sender>>,
}

/// Implemented by hand: for the checker, each function that owns an endpoint then drops it with a single call.
impl Drop for Endpoint {
    fn drop(self) {
        let Endpoint {
            worker: _,
            taker: _,
            senders: _,
        } = self;
    }
}

impl Endpoint {
    /// Separates the taker from the senders.
    pub fn into_parts(self) -> (Taker, Vec<Option<Sender>>)
        ensures parts { (result.0 ≡ self.taker) × (result.1 ≡ self.senders) }
    {
        let Endpoint {
            worker: _,
            taker,
            senders,
        } = self;
        (taker, senders)
    }

    /// Takes all copies that other workers delivered in earlier windows. The other workers may already deliver copies
    /// of this window. The inbox has no marks.
    ///
    /// # Errors
    /// `Memory` if an allocation fails. Then nothing has changed.
    pub fn collect<R: Wait>(
        &mut self,
        rt: &R,
        inboxes: &[Inbox],
    ) -> Result<Vec<RadioCopy>, InboxError>
        requires endpoint { IsEndpoint inboxes.now self.old }
        requires plain { HasNoMarks self.old.taker }
        ensures collects { IfOk result (λ copies. Collects self.old self.new copies.items) }
        ensures endpoint { OnOk result (IsEndpoint inboxes.now self.new) }
        ensures refused { OnErr result (self.new ≡ self.old) }
    {
        let inbox = &inboxes[usize::from(self.worker)];
        let known = inbox.known(&self.taker);
        inbox.drain(rt, &mut self.taker, known)
    }

    /// Delivers each copy, in order, to the worker of its receiver. `owners` is the worker of each mote.
    ///
    /// # Errors
    /// [`InboxError::Memory`] if a push fails. Some copies may have been delivered.
    pub fn deliver<R: Wait>(
        &mut self,
        rt: &R,
        inboxes: &[Inbox],
        owners: &[u16],
        copies: &[RadioCopy],
    ) -> Result<(), InboxError>
        requires on_inboxes { IsOnInboxes inboxes.now self.old }
        requires leaves { Each (Leaves owners.now (length inboxes.now) self.old.worker) copies.now }
        ensures delivers { OnOk result (Delivers owners.now self.old self.new copies.now) }
        ensures on_inboxes { OnOk result (IsOnInboxes inboxes.now self.new) }
    {
        for copy in copies {
            self.deliver_one(rt, inboxes, owners, *copy)?;
        }
        Ok(())
    }

    /// Pushes the copies of a window, each to the worker of its receiver, and then the mark of the window to each
    /// other worker. `owners` is the worker of each mote. The inboxes must have marks.
    ///
    /// # Errors
    /// [`InboxError::Memory`] if a push fails. Some items may have been pushed.
    pub fn deliver_window<R: Wait>(
        &mut self,
        rt: &R,
        inboxes: &[Inbox],
        owners: &[u16],
        copies: &[RadioCopy],
        window: u64,
    ) -> Result<(), InboxError>
        requires on_inboxes { IsOnInboxes inboxes.now self.old }
        requires marked { HasMarks self.old }
        requires leaves { Each (Leaves owners.now (length inboxes.now) self.old.worker) copies.now }
        ensures pushes { OnOk result
            (PushesWindow owners.now (length inboxes.now) window self.old self.new copies.now) }
        ensures on_inboxes { OnOk result (IsOnInboxes inboxes.now self.new) }
    {
        self.deliver(rt, inboxes, owners, copies)?;
        self.push_marks(rt, inboxes, window)
    }

    /// Pushes the mark of a window to each other worker. The inboxes must have marks.
    ///
    /// # Errors
    /// [`InboxError::Memory`] if a push fails. Some marks may have been pushed.
    fn push_marks<R: Wait>(
        &mut self,
        rt: &R,
        inboxes: &[Inbox],
        window: u64,
    ) -> Result<(), InboxError>
        requires on_inboxes { IsOnInboxes inboxes.now self.old }
        requires marked { HasMarks self.old }
        ensures pushes { OnOk result (PushesMarks (length inboxes.now) window self.old self.new) }
        ensures on_inboxes { OnOk result (IsOnInboxes inboxes.now self.new) }
    {
        for to in 0..inboxes.len() {
            self.push_mark_to(rt, &inboxes[to], to, window)?;
        }
        Ok(())
    }

    // Pushes the mark through the sender at a place, if there is one.
    fn push_mark_to<R: Wait>(
        &mut self,
        rt: &R,
        inbox: &Inbox,
        to: usize,
        window: u64,
    ) -> Result<(), InboxError>
        requires in_range { to < length self.old.senders.items }
        requires sender { IfSome (sender_to self.old to) (λ s. (s.inbox ≡ inbox.now) × (s.state.marked ≡ true)) }
        ensures marks { OnOk result (MarksOne to window self.old self.new) }
    {
        if let Some(sender) = &mut self.senders[to] {
            inbox
                .push_mark(rt, sender, window)
                .map_err(|_| InboxError::Memory)?;
        }
        Ok(())
    }

    fn deliver_one<R: Wait>(
        &mut self,
        rt: &R,
        inboxes: &[Inbox],
        owners: &[u16],
        copy: RadioCopy,
    ) -> Result<(), InboxError>
        requires on_inboxes { IsOnInboxes inboxes.now self.old }
        requires leaves { Leaves owners.now (length inboxes.now) self.old.worker copy }
        ensures delivers { OnOk result (Delivers owners.now self.old self.new (copy ∷ [])) }
        ensures on_inboxes { OnOk result (IsOnInboxes inboxes.now self.new) }
    {
        let to = usize::from(owners[usize::from(copy.to)]);
        let Some(sender) = &mut self.senders[to] else {
            unreachable!();
        };
        inboxes[to]
            .push_copy(rt, sender, copy)
            .map_err(|_| InboxError::Memory)?;
        Ok(())
    }
}
