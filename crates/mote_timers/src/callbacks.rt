//! The callbacks that wait for their timers.

ghost use Rattle.std.specs.Prelude.{◌≡◌, ◌<◌, [], IfOk};
ghost use Rattle.mote_timers.specs.Numbers.{numbers, is_member, with_member, without_member};

use crate::number_list::NumberList;
use std::alloc::{AllocError, Global};
use std::marker::Model;

/// The callback list of a mote: the callback timers that are set and whose callback hasn't run yet (`ctimer_list` of
/// `ctimer.c`). `new` allocates all memory of the list.
#[derive(Drop)]
pub struct Callbacks {
    waiting: NumberList,
}

impl Model for Callbacks {
    ghost use Rattle.mote_timers.specs.Numbers.{Numbers};

    ghost Value = { Numbers };

    ghost view = { λ c. c.waiting };
}

impl Callbacks {
    /// An empty list, with room for the timers 0 to n - 1.
    ///
    /// # Errors
    /// `AllocError` if an allocation fails.
    pub fn new(alloc: Global, n: u16) -> Result<Callbacks, AllocError>
        ensures empty { IfOk result (λ callbacks. callbacks ≡ numbers [] n) }
    {
        Ok(Callbacks {
            waiting: NumberList::new(alloc, n)?,
        })
    }

    /// Inserts a timer's callback at the front of the list. A callback that is already on the list keeps its place.
    pub fn put(&mut self, id: u16)
        requires in_range { id < self.old.limit }
        ensures after { self.new ≡ numbers (with_member id self.old.members) self.old.limit }
    {
        self.waiting.add(id);
    }

    /// Takes a timer's callback off the list, and returns whether it was on the list.
    pub fn remove(&mut self, id: u16) -> bool
        requires in_range { id < self.old.limit }
        ensures was_there { result ≡ is_member id self.old.members }
        ensures after { self.new ≡ numbers (without_member id self.old.members) self.old.limit }
    {
        let was_there = self.holds(id);
        self.waiting.remove(id);
        was_there
    }

    /// Returns whether a timer's callback is on the list.
    pub fn holds(&self, id: u16) -> bool
        requires in_range { id < self.now.limit }
        ensures value { result ≡ is_member id self.now.members }
    {
        self.waiting.contains(id)
    }
}
