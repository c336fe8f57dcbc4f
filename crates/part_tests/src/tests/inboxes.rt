//! Inboxes, with marks and without, and a worker that waits for marks.

mod marked;
mod plain;
mod team;
mod threads;
mod windows;

ghost use Rattle.std.specs.Prelude.{◌≡◌, true, [], IfOk};
ghost use Rattle.copy_inbox.specs.Handles.{AllGathered, NoMarkLeft};
ghost use Rattle.copy_inbox.specs.Views.{make_taker_state, make_sender_state};

use copy_inbox::{Inbox, InboxError, Sender, Taker};
use radio_packet::RadioCopy;
use std::alloc::Global;
use std::sync::Wait;
use test_helpers::write_copies;

/// A copy of this mote's packet with this number.
fn copy(sender: u16, number: u64) -> RadioCopy {
    RadioCopy {
        at: 5,
        to: 1,
        sender,
        number,
        value: 9,
    }
}

/// A new inbox, with marks or without, and its taker.
fn make(alloc: Global, marked: bool) -> Result<(Inbox, Taker), InboxError>
    ensures of_inbox { IfOk result (λ made. made.1.inbox ≡ made.0) }
    ensures taker { IfOk result (λ made. made.1.state ≡ make_taker_state marked 0 [] []) }
{
    if marked {
        Inbox::make_marked(alloc)
    } else {
        Inbox::make(alloc)
    }
}

/// A new inbox, with marks or without, its taker, and a sender.
fn with_one(alloc: Global, marked: bool) -> Result<(Inbox, Taker, Sender), InboxError>
    ensures of_inbox { IfOk result (λ made. (made.1.inbox ≡ made.0) × (made.2.inbox ≡ made.0)) }
    ensures taker { IfOk result (λ made. made.1.state ≡ make_taker_state marked 1 [] []) }
    ensures sender { IfOk result (λ made. made.2.state ≡ make_sender_state marked 0 []) }
{
    let (inbox, mut taker) = make(alloc, marked)?;
    let sender = inbox.sender(&mut taker)?;
    Ok((inbox, taker, sender))
}

/// A new inbox, with marks or without, its taker, and two senders.
fn with_two(alloc: Global, marked: bool) -> Result<(Inbox, Taker, Sender, Sender), InboxError>
    ensures of_inbox { IfOk result
        (λ made. (made.1.inbox ≡ made.0) × (made.2.inbox ≡ made.0) × (made.3.inbox ≡ made.0)) }
    ensures taker { IfOk result (λ made. made.1.state ≡ make_taker_state marked 2 [] []) }
    ensures senders { IfOk result (λ made. (made.2.state ≡ make_sender_state marked 0 [])
        × (made.3.state ≡ make_sender_state marked 1 [])) }
{
    let (inbox, mut taker, first) = with_one(alloc, marked)?;
    let second = inbox.sender(&mut taker)?;
    Ok((inbox, taker, first, second))
}

/// Pushes a copy. If an allocation fails, nothing is pushed.
fn push<R: Wait>(rt: &R, inbox: &Inbox, sender: &mut Sender, copied: RadioCopy)
    requires of_inbox { sender.old.inbox ≡ inbox.now }
    ensures sender { (sender.new.inbox ≡ inbox.now) × (sender.new.state.number ≡ sender.old.state.number)
        × (sender.new.state.marked ≡ sender.old.state.marked) }
{
    let _ = inbox.push_copy(rt, sender, copied);
}

/// Pushes the mark of a window. If an allocation fails, nothing is pushed.
fn push_mark<R: Wait>(rt: &R, inbox: &Inbox, sender: &mut Sender, window: u64)
    requires of_inbox { sender.old.inbox ≡ inbox.now }
    requires marked { sender.old.state.marked ≡ true }
    ensures sender { (sender.new.inbox ≡ inbox.now) × (sender.new.state.number ≡ sender.old.state.number)
        × (sender.new.state.marked ≡ true) }
{
    let _ = inbox.push_mark(rt, sender, window);
}

/// Writes down how many items are known.
fn write_known(text: &mut String, inbox: &Inbox, taker: &Taker)
    requires of_inbox { taker.now.inbox ≡ inbox.now }
{
    let known = inbox.known(taker);
    let _ = write!(text, "known {known}|");
}

/// Closes the inbox, and writes down the copies that are left in it. If an allocation fails, no copy is written.
fn write_rest<R: Wait>(rt: &R, text: &mut String, inbox: Inbox, taker: Taker)
    requires of_inbox { taker.inbox ≡ inbox }
    requires gathered { AllGathered taker.state }
    requires packets { NoMarkLeft taker.state }
{
    let _ = text.push_str("rest|");
    if let Ok(rest) = inbox.close(rt, taker) {
        let _ = write_copies(text, rest.as_slice());
    }
}
