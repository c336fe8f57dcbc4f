//! The windows of a worker that waits for marks: workers 0 and 1 push items, and worker 2 receives them. Mote 0
//! belongs to worker 0, mote 1 to worker 1, and mote 2 to worker 2.

ghost use Rattle.std.specs.Prelude.{◌≡◌, true, [], IfOk};
ghost use Rattle.copy_inbox.specs.Views.{make_taker_state};
ghost use Rattle.copy_exchange.specs.Marks.{AreTakersCounts};

use super::team::write_team;
use super::{push, push_mark, with_two};
use copy_exchange::MarkTaker;
use copy_inbox::{Inbox, InboxError, Sender, Taker};
use radio_packet::RadioCopy;
use std::alloc::{AllocGlobal, Global};
use std::sync::Wait;
use std::test::Fail;
use std::thread::Threads;
use std::time::Clock;
use test_helpers::same_text;

/// The actions of worker 2, which receives windows, and of worker 1, which fails.
#[derive(Clone, Copy)]
pub(crate) enum Scene {
    /// Worker 1 fails at once. All marks of each window are in the inbox.
    Windows,
    /// Worker 1 fails at once. The mark of worker 1 isn't in the inbox.
    Stopped,
    /// Worker 1 fails while worker 2 waits for a mark of worker 1.
    Woken,
    /// Three windows with numbers above 1,000. The marks of the first window are in the inbox, the last mark of the
    /// second arrives late, and the last mark of the third doesn't arrive before worker 1 fails.
    Late,
}

impl Scene {
    /// The windows that worker 2 receives. A window is given as the moment at which it begins and its number.
    pub(crate) fn windows(self) -> &'static [(u64, u64)] {
        match self {
            Scene::Windows => &[(5, 0), (9, 1), (10, 2)],
            Scene::Stopped | Scene::Woken => &[(5, 0)],
            Scene::Late => &[(5, 1001), (5, 1002), (5, 1003)],
        }
    }
}

/// All scenes.
static SCENES: [Scene; 4] = [Scene::Windows, Scene::Stopped, Scene::Woken, Scene::Late];

/// A copy of mote 0's packet for mote 2.
fn copy(at: u64, number: u64) -> RadioCopy {
    RadioCopy {
        at,
        to: 2,
        sender: 0,
        number,
        value: 9,
    }
}

/// The taker of worker 2, and the marks that it took.
#[derive(Drop)]
pub(crate) struct Receiver {
    pub(crate) taker: Taker,
    pub(crate) marks: MarkTaker,
}

/// The taker of worker 2, on whose inbox two senders were made.
fn make_worker_2(alloc: Global, taker: Taker) -> Result<Receiver, InboxError>
    requires taker { taker.state ≡ make_taker_state true 2 [] [] }
    ensures taker { IfOk result (λ worker_2. worker_2.taker ≡ taker) }
    ensures counts { IfOk result (λ worker_2. AreTakersCounts worker_2.marks.counts.items worker_2.taker.state) }
{
    let marks = MarkTaker::new(alloc, 2, &taker)?;
    Ok(Receiver { taker, marks })
}

/// Pushes a copy, and the mark of the window in which it was sent.
fn push_window<R: Wait>(rt: &R, inbox: &Inbox, sender: &mut Sender, copied: RadioCopy, window: u64)
    requires of_inbox { sender.old.inbox ≡ inbox.now }
    requires marked { sender.old.state.marked ≡ true }
    ensures sender { (sender.new.inbox ≡ inbox.now) × (sender.new.state.marked ≡ true) }
{
    push(rt, inbox, sender, copied);
    push_mark(rt, inbox, sender, window);
}

/// Pushes the marks of the windows before window `windows`.
fn push_marks<R: Wait>(rt: &R, inbox: &Inbox, sender: &mut Sender, windows: u64)
    requires of_inbox { sender.old.inbox ≡ inbox.now }
    requires marked { sender.old.state.marked ≡ true }
    ensures sender { (sender.new.inbox ≡ inbox.now) × (sender.new.state.marked ≡ true) }
{
    for window in 0..windows {
        push_mark(rt, inbox, sender, window);
    }
}

/// Worker 0 pushes windows 0 and 1, and worker 1 pushes window 0. So taking window 0 returns the copies that worker 0
/// sent in both windows. Then worker 1 pushes its next mark, so taking window 1 returns no copies. Last, worker 0
/// pushes a copy of window 2 that arrives before the window begins, so it isn't among those of window 2.
fn push_three_windows<R: Wait>(rt: &R, inbox: &Inbox, first: &mut Sender, second: &mut Sender)
    requires first { (first.old.inbox ≡ inbox.now) × (first.old.state.marked ≡ true) }
    requires second { (second.old.inbox ≡ inbox.now) × (second.old.state.marked ≡ true) }
    ensures second { (second.new.inbox ≡ inbox.now) × (second.new.state.marked ≡ true) }
{
    push_window(rt, inbox, first, copy(5, 0), 0);
    push_window(rt, inbox, first, copy(9, 1), 1);
    push_mark(rt, inbox, second, 0);
    push_mark(rt, inbox, second, 1);
    push_window(rt, inbox, first, copy(9, 2), 2);
    push_mark(rt, inbox, second, 2);
}

/// Worker 0 pushes the marks of the windows up to 1002, and worker 1 those of the windows up to 1001.
fn push_thousand_marks<R: Wait>(rt: &R, inbox: &Inbox, first: &mut Sender, second: &mut Sender)
    requires first { (first.old.inbox ≡ inbox.now) × (first.old.state.marked ≡ true) }
    requires second { (second.old.inbox ≡ inbox.now) × (second.old.state.marked ≡ true) }
    ensures second { (second.new.inbox ≡ inbox.now) × (second.new.state.marked ≡ true) }
{
    push_marks(rt, inbox, first, 1003);
    push_marks(rt, inbox, second, 1002);
}

/// Pushes the items that are in the inbox of worker 2 from the start.
fn push_before<R: Wait>(
    rt: &R,
    inbox: &Inbox,
    first: &mut Sender,
    second: &mut Sender,
    scene: Scene,
)
    requires first { (first.old.inbox ≡ inbox.now) × (first.old.state.marked ≡ true) }
    requires second { (second.old.inbox ≡ inbox.now) × (second.old.state.marked ≡ true) }
    ensures second { (second.new.inbox ≡ inbox.now) × (second.new.state.marked ≡ true) }
{
    match scene {
        Scene::Windows => push_three_windows(rt, inbox, first, second),
        Scene::Stopped | Scene::Woken => push_mark(rt, inbox, first, 0),
        Scene::Late => push_thousand_marks(rt, inbox, first, second),
    }
}

/// Runs a scene, and writes down the result of the team and the windows that worker 2 received.
fn write_scene<R: Threads + Wait + Clock + Sync>(
    rt: &R,
    alloc: Global,
    text: &mut String,
    scene: Scene,
) -> Result<(), InboxError> {
    let (inbox, taker, mut first, mut second) = with_two(alloc, true)?;
    push_before(rt, &inbox, &mut first, &mut second, scene);
    let worker_2 = make_worker_2(alloc, taker)?;
    write_team(rt, alloc, text, scene, &inbox, worker_2, second);
    Ok(())
}

/// Windows that are received although the flag is set; a window whose mark is missing; a worker that sleeps when the
/// flag is set; and windows with numbers above 1,000.
#[test]
fn windows_by_hand(rt: HostRuntime) -> Result<(), Fail> {
    let mut text = String::new(rt.alloc());
    for scene in SCENES.as_slice() {
        write_scene(&rt, rt.alloc(), &mut text, *scene)?;
    }
    same_text(
        text.as_str(),
        "Err(Thread) 5 2 0 0 9|9 2 0 1 9|marks|marks|marks|Err(Thread) Stopped|Err(Thread) Stopped|\
         Err(Thread) marks|marks|Stopped|",
    )
}
