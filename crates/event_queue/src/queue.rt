//! A queue of posted events, stored in a ring buffer that is allocated once.

ghost use Rattle.std.specs.Prelude.{◌≡◌, ◌+◌, ◌^◌, ◌<◌, ◌≤◌, ◌↔◌, [], ◌∷◌, length, IsNone, IfNone, IfSome, IsErr};
ghost use Rattle.std.specs.Prelude.{IfOk, OnOk, OnErr, Some, codes};
ghost use Rattle.event_queue.specs.Queue.{empty_queue, with_posted, without_front};

use circular_buffer::HeapCircularBuffer;
use program_tree::{Event, Target};
use std::alloc::{AllocError, Global};
use std::error::Error;
use std::fmt;
use std::marker::Model;

/// An event that was accepted: its serial, its target, and the event itself.
#[derive(Clone, Copy, Debug, PartialEq, Eq)]
pub struct Posted {
    pub serial: u64,
    pub target: Target,
    pub event: Event,
}

/// The error if the queue is full (`PROCESS_ERR_FULL` of `process.h`): the queue refuses the posted event.
#[derive(Clone, Copy, Debug, PartialEq, Eq)]
pub struct Full;

impl fmt::Display for Full {
    ghost output = { λ _. Some (codes "the event queue is full") };

    fn fmt<W: fmt::Write>(&self, f: &mut fmt::Formatter<W>) -> fmt::Result {
        f.write_str("the event queue is full")
    }
}

impl Error for Full {}

/// A waiting event and its target. Its serial isn't stored, because the serials of waiting events are consecutive.
#[derive(Clone, Copy)]
struct Waiting {
    target: Target,
    event: Event,
}

/// The events of a mote that were posted and not yet taken, the oldest first, and the number of all events that were
/// ever accepted (the ring `events` of `process.c`). `new` allocates all memory of the queue.
#[derive(Drop)]
pub struct EventQueue {
    waiting: HeapCircularBuffer<Waiting>,
    /// The number of events taken. It is the serial of the oldest waiting event or, if none waits, of the next event.
    taken: u64,
}

impl Model for EventQueue {
    ghost use Rattle.std.specs.Prelude.{◌+◌, ◌≤◌, ◌^◌, length};
    ghost use Rattle.event_queue.specs.Queue.{Queue};
    ghost use Rattle.event_queue.specs.Posting.{queue_holding};

    ghost Value = { Queue };

    ghost view = { λ q. queue_holding q.waiting.items q.taken q.waiting.capacity };

    ghost invariant = { λ q. (length q.waiting.items ≤ q.waiting.capacity)
        × (q.taken + length q.waiting.items ≤ 2 ^ 62) };
}

/// Takes the oldest waiting event. If only one event waits, the function takes it from the back. A ring buffer that
/// holds one event at a time then stays at its first slot, which is likely to be in the cache.
#[inline(always)]
#[tactic(auto, using(crate::proofs::Only::only_first))]
fn take_oldest(waiting: &mut HeapCircularBuffer<Waiting>) -> Option<Waiting>
    ensures empty { IsNone result ↔ (waiting.old.items ≡ []) }
    ensures oldest { IfSome result (λ first. waiting.old.items ≡ first ∷ waiting.new.items) }
    ensures none { IfNone result (waiting.new ≡ waiting.old) }
    ensures room { waiting.new.capacity ≡ waiting.old.capacity }
{
    if waiting.len() == 1 {
        waiting.pop_back()
    } else {
        waiting.pop_front()
    }
}

impl EventQueue {
    /// An empty queue with room for `capacity` events (1 to 128).
    ///
    /// # Errors
    /// `AllocError` if an allocation fails.
    pub fn new(alloc: Global, capacity: u16) -> Result<EventQueue, AllocError>
        requires some_room { 1 ≤ capacity }
        requires limit { capacity ≤ 128 }
        ensures empty { IfOk result (λ queue. queue ≡ empty_queue capacity) }
    {
        Ok(EventQueue {
            waiting: HeapCircularBuffer::with_capacity(alloc, usize::from(capacity))?,
            taken: 0,
        })
    }

    /// The number of waiting events.
    #[tactic(auto, using(crate::proofs::Posting::length_posted))]
    pub fn len(&self) -> usize
        ensures len { result ≡ length self.now.events }
        ensures within { result ≤ self.now.capacity }
    {
        self.waiting.len()
    }

    /// The number of events that were ever accepted.
    #[inline(always)]
    pub fn accepted(&self) -> u64
        ensures accepted { result ≡ self.now.accepted }
    {
        self.taken + self.waiting.len() as u64
    }

    /// Appends an event and returns its serial: the number of events that were accepted before it.
    ///
    /// # Errors
    /// [`Full`] if the queue is full. The queue is then unchanged.
    #[tactic(auto, using(crate::proofs::Posting::length_posted))]
    pub fn post(&mut self, target: Target, event: Event) -> Result<u64, Full>
        requires count_bounded { self.old.accepted < 2 ^ 62 }
        ensures serial { IfOk result (λ serial. serial ≡ self.old.accepted) }
        ensures ok { OnOk result (self.new ≡ with_posted self.old target event) }
        ensures room { OnOk result (length self.old.events < self.old.capacity) }

        ensures full { IsErr result ↔ (length self.old.events ≡ self.old.capacity) }
        ensures err { OnErr result (self.new ≡ self.old) }
    {
        let serial = self.accepted();
        let waiting = Waiting { target, event };
        self.waiting.try_push_back(waiting).map_err(|_| Full)?;
        Ok(serial)
    }

    /// Takes the oldest event and returns it. Returns `None` if the queue is empty.
    pub fn take(&mut self) -> Option<Posted>
        ensures empty { IsNone result ↔ (self.old.events ≡ []) }
        ensures front { IfSome result (λ first. self.old.events ≡ first ∷ self.new.events) }
        ensures after { self.new ≡ without_front self.old }
    {
        let Waiting { target, event } = take_oldest(&mut self.waiting)?;
        let serial = self.taken;
        self.taken = serial + 1;
        Some(Posted {
            serial,
            target,
            event,
        })
    }
}
