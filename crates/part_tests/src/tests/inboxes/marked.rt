//! Inboxes with marks, each used in one thread.

ghost use Rattle.std.specs.Prelude.{◌≡◌};

use super::{copy, push, push_mark, with_one, with_two, write_known, write_rest};
use copy_inbox::{Carried, Inbox, InboxError, Item, Taker};
use std::alloc::{AllocGlobal, Global};
use std::sync::Wait;
use std::test::Fail;
use test_helpers::{same_text, write_copies};

/// Writes down an item that was taken, with its sender's number.
fn write_item(text: &mut String, item: Item) {
    let _ = write!(text, "of {} ", item.sender);
    let _ = match item.what {
        Carried::Packet(copied) => write_copies(text, &[copied]),
        Carried::Mark(window) => write!(text, "mark {window}|"),
    };
}

/// Takes the next item `count` times. Writes down each item, and before it the number of known items.
fn write_nexts<R: Wait>(rt: &R, text: &mut String, inbox: &Inbox, taker: &mut Taker, count: u8)
    requires of_inbox { taker.old.inbox ≡ inbox.now }
    ensures taker { (taker.new.inbox ≡ inbox.now) × (taker.new.state.marked ≡ taker.old.state.marked)
        × (taker.new.state.made ≡ taker.old.state.made) × (taker.new.state.gathered ≡ taker.old.state.gathered) }
{
    for _ in 0..count {
        write_known(text, inbox, taker);
        match inbox.take_next(rt, taker) {
            None => {
                let _ = text.push_str("none|");
            }
            Some(item) => write_item(text, item),
        }
    }
}

/// Sender 0 pushes a copy and a mark, and sender 1 a mark. All items are taken. Then both senders are gathered, and
/// the inbox is closed.
#[tactic(auto, using(copy_inbox::proofs::Counts::none_left))]
fn write_marked<R: Wait>(rt: &R, alloc: Global, text: &mut String) -> Result<(), InboxError> {
    let (inbox, mut taker, mut first, mut second) = with_two(alloc, true)?;
    push(rt, &inbox, &mut first, copy(0, 7));
    push_mark(rt, &inbox, &mut first, 0);
    push_mark(rt, &inbox, &mut second, 0);
    write_nexts(rt, text, &inbox, &mut taker, 4);
    inbox.gather(rt, &mut taker, first);
    inbox.gather(rt, &mut taker, second);
    write_known(text, &inbox, &taker);
    if inbox.known(&taker) == 0 {
        write_rest(rt, text, inbox, taker);
    }
    Ok(())
}

/// The text has the number of known items before each item, and once more before the end.
#[test]
fn marked_inbox(rt: HostRuntime) -> Result<(), Fail> {
    let mut text = String::new(rt.alloc());
    write_marked(&rt, rt.alloc(), &mut text)?;
    same_text(
        text.as_str(),
        "known 0|of 0 5 1 0 7 9|known 0|of 0 mark 0|known 0|of 1 mark 0|known 0|none|known 0|rest|",
    )
}

/// Takes the items of two senders one by one, both known items and others, and writes each down with its sender's
/// number. The second sender is made once the first one is gathered. At the end no item is left.
#[tactic(auto, using(copy_inbox::proofs::Counts::none_left))]
fn write_items<R: Wait>(rt: &R, alloc: Global, text: &mut String) -> Result<(), InboxError> {
    let (inbox, mut taker, mut first) = with_one(alloc, true)?;
    push(rt, &inbox, &mut first, copy(0, 7));
    push_mark(rt, &inbox, &mut first, 0);
    write_nexts(rt, text, &inbox, &mut taker, 1);
    inbox.gather(rt, &mut taker, first);
    let mut second = inbox.sender(&mut taker)?;
    push_mark(rt, &inbox, &mut second, 0);
    push(rt, &inbox, &mut second, copy(1, 8));
    write_nexts(rt, text, &inbox, &mut taker, 2);
    inbox.gather(rt, &mut taker, second);
    write_nexts(rt, text, &inbox, &mut taker, 2);
    if inbox.known(&taker) == 0 {
        write_rest(rt, text, inbox, taker);
    }
    Ok(())
}

/// The text has the number of known items before each item, and once more before the end.
#[test]
fn items_one_by_one(rt: HostRuntime) -> Result<(), Fail> {
    let mut text = String::new(rt.alloc());
    write_items(&rt, rt.alloc(), &mut text)?;
    same_text(
        text.as_str(),
        "known 0|of 0 5 1 0 7 9|known 1|of 0 mark 0|known 0|of 1 mark 0|known 1|of 1 5 1 1 8 9|known 0|none|rest|",
    )
}
