//! Small parts, each tested by itself: a queue of posted events, timers and callbacks.

ghost use Rattle.std.specs.Prelude.{◌≡◌, ◌+◌, ◌<◌, ◌≤◌, length};

use event_queue::{EventQueue, Full, Posted};
use mote_timers::{Callbacks, Timers};
use program_tree::{Event, Proc, Target};
use std::alloc::Global;
use std::test::Fail;

const EVENT: Event = Event {
    number: 139,
    word: 7,
    sender: 0,
};

/// The event as the first one that the queue accepted.
const FIRST: Posted = Posted {
    serial: 0,
    target: Target::All,
    event: EVENT,
};

/// Posts the event.
fn post(queue: &mut EventQueue) -> Result<u64, Full>
    requires accepted_bounded { queue.old.accepted < 10 }
    ensures at_most_one_more { queue.new.accepted ≤ queue.old.accepted + 1 }
{
    queue.post(Target::All, EVENT)
}

/// Tests whether a queue with room for one event refuses the second of two events, and accepts another event after the
/// first one is taken. Serial numbers count only accepted events: a refused event has none.
fn refuses_the_second(queue: &mut EventQueue) -> bool
    requires none_accepted { queue.old.accepted ≡ 0 }
{
    let first = post(queue);
    let second = post(queue);
    let taken = queue.take();
    [first, second, post(queue)] == [Ok(0), Err(Full), Ok(1)] && taken == Some(FIRST)
}

const OWN: Proc = Proc::Own(0);

/// Tests timers when the event of timer 1 is refused at moment 1: timer 1 remains due, and timer 0 follows it. Timer 1
/// is restarted. At the moment when timer 1 is due again, it precedes timer 0 again. After timer 1 is stopped, it is
/// no longer due. A new timer was never set, so it counts as expired. Returns `true` if all this is so.
fn refused_one_stays(timers: &mut Timers) -> bool
    requires two_timers { length timers.old.timers ≡ 2 }
{
    let fresh = timers.expired(0);
    timers.set(0, OWN, 1, 0);
    timers.set(1, Proc::Ctimer, 1, 0);
    let Some((refused, owner)) = timers.next_due(1, None) else {
        return false;
    };
    let behind = timers.next_due(1, Some(refused));
    timers.restart(1, OWN, 5);
    let at_5 = timers.next_due(5, None);
    let at_6 = timers.next_due(6, None);
    timers.stop(1);
    let at_the_end = timers.next_due(6, None);
    let own = Some((0, OWN));
    let walked = (refused, owner) == (1, Proc::Ctimer);
    fresh
        && walked
        && timers.expired(1)
        && [behind, at_5, at_6, at_the_end] == [own, own, Some((1, OWN)), own]
}

/// Tests whether two new callbacks work. Each is looked up; the second is added twice; both are looked up again; the
/// first is removed; the second is removed twice, and looked up once more.
fn come_and_go(callbacks: &mut Callbacks) -> bool
    requires two_callbacks { callbacks.old.limit ≡ 2 }
{
    let first = callbacks.holds(0);
    let second = callbacks.holds(1);
    callbacks.put(1);
    callbacks.put(1);
    let answers = [
        first,
        second,
        callbacks.holds(0),
        callbacks.holds(1),
        callbacks.remove(0),
        callbacks.remove(1),
        callbacks.remove(1),
        callbacks.holds(1),
    ];
    answers == [false, false, false, true, false, true, false, false]
}

/// Tests each of the three parts.
fn parts_do(alloc: Global) -> Result<[bool; 3], Fail> {
    let queue = refuses_the_second(&mut EventQueue::new(alloc, 1)?);
    let timers = refused_one_stays(&mut Timers::new(alloc, 2)?);
    let callbacks = come_and_go(&mut Callbacks::new(alloc, 2)?);
    Ok([queue, timers, callbacks])
}

#[test]
fn small_parts(rt: HostRuntime) -> Result<(), Fail> {
    assert!(rt; parts_do(rt.alloc())? == [true; 3]);
    Ok(())
}
