//! Inboxes between threads: two threads push copies and marks into one inbox, and three threads push copies into
//! another one.

ghost use Rattle.std.specs.Prelude.{◌≡◌, true, false, []};
ghost use Rattle.copy_inbox.specs.Views.{make_taker_state};

use super::{copy, push, push_mark, with_two, write_known};
use copy_inbox::{Carried, Inbox, InboxError, Item, Sender, Taker};
use radio_packet::RadioCopy;
use std::alloc::Global;
use std::sync::Wait;
use std::test::*;
use std::thread;
use std::thread::Threads;
use test_helpers::same_text;

/// For each window, pushes three copies of a mote's packets and a mark.
fn push_windows<R: Wait>(rt: &R, inbox: &Inbox, mut sender: Sender, mote: u16, windows: u64)
    requires of_inbox { sender.inbox ≡ inbox.now }
    requires marked { sender.state.marked ≡ true }
{
    for window in 0..windows {
        for number in 0..3 {
            push(rt, inbox, &mut sender, copy(mote, number));
        }
        push_mark(rt, inbox, &mut sender, window);
    }
}

/// Tests whether a sender pushed this item at this position.
fn is_pushed(item: Item, position: u64) -> bool {
    match item.what {
        Carried::Packet(copied) => {
            u64::from(copied.sender) == item.sender
                && position % 4 < 3
                && copied == copy(copied.sender, position % 4)
        }
        Carried::Mark(window) => position % 4 == 3 && window == position / 4,
    }
}

/// Takes the items that two senders push in so many windows each, and yields the processor while the inbox is empty.
/// Returns `true` if all items arrived, those of each sender in order.
fn take_windows<R: Wait>(rt: &R, inbox: &Inbox, mut taker: Taker, windows: u64) -> bool
    requires of_inbox { taker.inbox ≡ inbox.now }
{
    let all = [windows.wrapping_mul(4); 2];
    let mut next = [0u64; 2];
    for _ in rt.forever() {
        if next == all {
            return true;
        }
        match inbox.take_next(rt, &mut taker) {
            None => thread::yield_now(),
            Some(item) => {
                let index = item.sender as usize;
                if index >= 2 || !is_pushed(item, next[index]) {
                    return false;
                }
                next[index] = next[index].wrapping_add(1);
            }
        }
    }
    unreachable!()
}

/// Pushes the windows of the second sender, and takes the windows of both senders.
fn push_and_take<R: Wait>(rt: &R, inbox: &Inbox, taker: Taker, second: Sender, windows: u64) -> bool
    requires taker { taker.inbox ≡ inbox.now }
    requires second { (second.inbox ≡ inbox.now) × (second.state.marked ≡ true) }
{
    push_windows(rt, inbox, second, 1, windows);
    take_windows(rt, inbox, taker, windows)
}

/// Tests whether all items of two threads arrive in order.
fn all_come<R: Threads + Wait + Sync>(
    rt: &R,
    alloc: Global,
    windows: u64,
) -> Result<bool, InboxError> {
    let (inbox, taker, first, second) = with_two(alloc, true)?;
    let shared = &inbox;
    let ((), all) = thread::join(
        rt,
        move ||
            requires { (first.inbox ≡ shared.now) × (first.state.marked ≡ true) }
        { push_windows(rt, shared, first, 0, windows) },
        move ||
            requires { (taker.inbox ≡ shared.now) × (second.inbox ≡ shared.now) × (second.state.marked ≡ true) }
        { push_and_take(rt, shared, taker, second, windows) },
    );
    Ok(all)
}

/// Two threads push copies and marks at once, and then one of them takes all items. All copies of a window arrive
/// before its mark.
#[test]
fn between_threads(rt: HostRuntime) -> Result<(), Fail> {
    assert!(rt; all_come(&rt, rt.alloc(), 1000)?);
    Ok(())
}

/// Pushes 1,000 copies of a mote.
fn push_thousand<R: Wait>(rt: &R, inbox: &Inbox, mut sender: Sender, mote: u16) -> Sender
    requires of_inbox { sender.inbox ≡ inbox.now }
    ensures sender { (result.inbox ≡ inbox.now) × (result.state.number ≡ sender.state.number) }
{
    for number in 0..1000 {
        push(rt, inbox, &mut sender, copy(mote, number));
    }
    sender
}

/// Lets two senders push 1,000 copies each, in threads of their own, and returns the senders.
fn push_two_thousand<R: Threads + Wait + Sync>(
    rt: &R,
    inbox: &Inbox,
    second: Sender,
    third: Sender,
) -> (Sender, Sender)
    requires senders { (second.inbox ≡ inbox.now) × (third.inbox ≡ inbox.now) }
    ensures second { (result.0.inbox ≡ inbox.now) × (result.0.state.number ≡ second.state.number) }
    ensures third { (result.1.inbox ≡ inbox.now) × (result.1.state.number ≡ third.state.number) }
{
    thread::join(
        rt,
        move ||
            requires of_inbox { second.inbox ≡ inbox.now }
        { push_thousand(rt, inbox, second, 1) },
        move ||
            requires of_inbox { third.inbox ≡ inbox.now }
        { push_thousand(rt, inbox, third, 2) },
    )
}

/// Lets three senders push 1,000 copies each, in threads of their own, and returns the senders.
fn push_three_thousand<R: Threads + Wait + Sync>(
    rt: &R,
    inbox: &Inbox,
    first: Sender,
    second: Sender,
    third: Sender,
) -> (Sender, (Sender, Sender))
    requires senders { (first.inbox ≡ inbox.now) × (second.inbox ≡ inbox.now) × (third.inbox ≡ inbox.now) }
    ensures first { (result.0.inbox ≡ inbox.now) × (result.0.state.number ≡ first.state.number) }
    ensures second { (result.1.0.inbox ≡ inbox.now) × (result.1.0.state.number ≡ second.state.number) }
    ensures third { (result.1.1.inbox ≡ inbox.now) × (result.1.1.state.number ≡ third.state.number) }
{
    thread::join(
        rt,
        move ||
            requires of_inbox { first.inbox ≡ inbox.now }
        { push_thousand(rt, inbox, first, 0) },
        move ||
            requires senders { (second.inbox ≡ inbox.now) × (third.inbox ≡ inbox.now) }
        { push_two_thousand(rt, inbox, second, third) },
    )
}

/// Writes down the number of copies, and the number of copies of each of three motes, if the copies of each mote are
/// in order.
fn write_counts(text: &mut String, copies: &[RadioCopy]) {
    let mut next = [0u64; 3];
    for copied in copies {
        let mote = usize::from(copied.sender);
        if mote >= 3 || copied.number != next[mote] {
            return;
        }
        next[mote] = next[mote].wrapping_add(1);
    }
    let _ = write!(text, "{} {next:?}|", copies.len());
}

/// Gathers three senders that pushed 1,000 copies each, closes the inbox, and writes down the numbers of its copies.
fn write_thousands<R: Wait>(
    rt: &R,
    text: &mut String,
    inbox: Inbox,
    mut taker: Taker,
    senders: (Sender, (Sender, Sender)),
) -> Result<(), InboxError>
    requires taker { (taker.inbox ≡ inbox) × (taker.state ≡ make_taker_state false 3 [] []) }
    requires first { (senders.0.inbox ≡ inbox) × (senders.0.state.number ≡ 0) }
    requires second { (senders.1.0.inbox ≡ inbox) × (senders.1.0.state.number ≡ 1) }
    requires third { (senders.1.1.inbox ≡ inbox) × (senders.1.1.state.number ≡ 2) }
{
    let (first, (second, third)) = senders;
    inbox.gather(rt, &mut taker, first);
    inbox.gather(rt, &mut taker, second);
    inbox.gather(rt, &mut taker, third);
    write_known(text, &inbox, &taker);
    let rest = inbox.close(rt, taker)?;
    write_counts(text, &rest);
    Ok(())
}

/// Three threads push 1,000 copies each. After the threads are joined, all senders are gathered, and the inbox is
/// closed.
fn write_three_threads<R: Threads + Wait + Sync>(
    rt: &R,
    alloc: Global,
    text: &mut String,
) -> Result<(), InboxError> {
    let (inbox, mut taker, first, second) = with_two(alloc, false)?;
    let third = inbox.sender(&mut taker)?;
    let senders = push_three_thousand(rt, &inbox, first, second, third);
    write_thousands(rt, text, inbox, taker, senders)
}

/// All copies of three threads arrive, those of each thread in order.
#[test]
fn inbox_of_three_threads(rt: HostRuntime) -> Result<(), Fail> {
    let mut text = String::new(rt.alloc());
    write_three_threads(&rt, rt.alloc(), &mut text)?;
    same_text(text.as_str(), "known 3000|3000 [1000, 1000, 1000]|")
}
