//! Inboxes without marks, each used in one thread.

ghost use Rattle.std.specs.Prelude.{◌≡◌, false};

use super::{copy, push, with_one, with_two, write_known, write_rest};
use copy_inbox::{Inbox, InboxError, Sender, Taker};
use std::alloc::{AllocGlobal, Global};
use std::sync::Wait;
use std::test::Fail;
use test_helpers::{same_text, write_copies};

/// Pushes each of these copies. A copy is given as its sender and its number.
fn push_each<R: Wait>(
    rt: &R,
    inbox: &Inbox,
    mut first: Sender,
    mut second: Sender,
    copies: &[(u16, u64)],
) -> (Sender, Sender)
    requires senders { (first.inbox ≡ inbox.now) × (second.inbox ≡ inbox.now) }
    ensures first { (result.0.inbox ≡ inbox.now) × (result.0.state.number ≡ first.state.number) }
    ensures second { (result.1.inbox ≡ inbox.now) × (result.1.state.number ≡ second.state.number) }
{
    for (sender, number) in copies {
        let copied = copy(*sender, *number);
        if *sender == 0 {
            push(rt, inbox, &mut first, copied);
        } else {
            push(rt, inbox, &mut second, copied);
        }
    }
    (first, second)
}

/// Takes `most` copies, or all known copies if there are fewer. Writes down these copies, and before and after them
/// the number of known copies. If an allocation fails, no copy is taken.
fn write_taken<R: Wait>(rt: &R, text: &mut String, inbox: &Inbox, taker: &mut Taker, most: u64)
    requires plain_taker { (taker.old.inbox ≡ inbox.now) × (taker.old.state.marked ≡ false) }
    ensures taker { (taker.new.inbox ≡ inbox.now) × (taker.new.state.marked ≡ false)
        × (taker.new.state.made ≡ taker.old.state.made) × (taker.new.state.gathered ≡ taker.old.state.gathered) }
{
    write_known(text, inbox, taker);
    let known = inbox.known(taker);
    if let Ok(taken) = inbox.drain(rt, taker, most.min(known)) {
        let _ = write_copies(text, taken.as_slice());
    }
    write_known(text, inbox, taker);
}

/// Lets two senders push these copies, and gathers the second sender, then the first. Writes down the copies that are
/// taken after each sender is gathered, and the copies that are left at the end.
fn write_of_two<R: Wait>(
    rt: &R,
    alloc: Global,
    text: &mut String,
    copies: &[(u16, u64)],
    most: (u64, u64),
) -> Result<(), InboxError> {
    let (inbox, mut taker, first, second) = with_two(alloc, false)?;
    let (first, second) = push_each(rt, &inbox, first, second, copies);
    write_known(text, &inbox, &taker);
    inbox.gather(rt, &mut taker, second);
    write_taken(rt, text, &inbox, &mut taker, most.0);
    inbox.gather(rt, &mut taker, first);
    write_taken(rt, text, &inbox, &mut taker, most.1);
    write_rest(rt, text, inbox, taker);
    Ok(())
}

/// Rows: a name, the copies that two senders push (as senders and numbers), and the largest number of copies that are
/// taken after the second sender is gathered, and after the first sender is gathered.
static OF_TWO: [(&str, &[(u16, u64)], (u64, u64)); 3] = [
    // Two copies of each sender: three are drained, and closing the inbox returns the fourth.
    ("", &[(0, 0), (1, 0), (1, 1), (0, 1)], (0, 3)),
    // A copy is in the inbox before its sender is gathered: the taker gets this copy, because it is the first one in
    // the shared queue, although only the other sender's copy is known.
    ("of both|", &[(0, 7), (1, 8)], (1, 0)),
    ("of nobody|", &[], (0, 0)),
];

/// Writes down the result of each row.
fn write_rows<R: Wait>(rt: &R, alloc: Global, text: &mut String) -> Result<(), InboxError> {
    for (name, copies, most) in OF_TWO.as_slice() {
        let _ = text.push_str(name);
        write_of_two(rt, alloc, text, copies, *most)?;
    }
    Ok(())
}

/// Sender 0 pushes a copy and is gathered. Then sender 1 is made, and pushes a copy. Only one copy is known, and it is
/// drained.
fn write_later<R: Wait>(rt: &R, alloc: Global, text: &mut String) -> Result<(), InboxError> {
    let (inbox, mut taker, mut first) = with_one(alloc, false)?;
    push(rt, &inbox, &mut first, copy(0, 7));
    inbox.gather(rt, &mut taker, first);
    let mut second = inbox.sender(&mut taker)?;
    push(rt, &inbox, &mut second, copy(1, 8));
    write_taken(rt, text, &inbox, &mut taker, 1);
    Ok(())
}

/// The copies that are known and that are taken while senders push copies and are gathered, all in one thread.
#[test]
fn inbox_in_one_thread(rt: HostRuntime) -> Result<(), Fail> {
    let mut text = String::new(rt.alloc());
    write_rows(&rt, rt.alloc(), &mut text)?;
    write_later(&rt, rt.alloc(), &mut text)?;
    same_text(
        text.as_str(),
        "known 0|known 2|known 2|known 4|5 1 0 0 9|5 1 1 0 9|5 1 1 1 9|known 1|rest|5 1 0 1 9|\
         of both|known 0|known 1|5 1 0 7 9|known 1|known 1|known 1|rest|5 1 1 8 9|\
         of nobody|known 0|known 0|known 0|known 0|known 0|rest|known 1|5 1 0 7 9|known 0|",
    )
}
