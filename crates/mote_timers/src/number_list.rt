//! Lists in which a number occurs at most once, with room for every number below a limit.

ghost use Rattle.std.specs.Prelude.{◌≡◌, ◌<◌, [], IfOk};
ghost use Rattle.std.specs.Fn.{CalledAt};
ghost use Rattle.std.specs.List.Retain.{IsFiltered};
ghost use Rattle.mote_timers.specs.Numbers.{AreNumbers, numbers, is_member, with_member, without_member};

use std::alloc::{AllocError, Global};
use std::marker::Model;

/// A list of numbers below a limit, in which each number occurs at most once. `new` allocates all memory of the list.
#[derive(Drop)]
pub struct NumberList {
    members: Vec<u16>,
}

impl Model for NumberList {
    ghost use Rattle.std.specs.Vec.{vec_capacity};
    ghost use Rattle.mote_timers.specs.Numbers.{Numbers, numbers, AreNumbers};

    ghost Value = { Numbers };

    ghost view = { λ l. numbers l.members.items (vec_capacity l.members) };

    ghost invariant = { λ l. AreNumbers l.members.items (vec_capacity l.members) };
}

impl NumberList {
    /// An empty list of numbers below the limit.
    ///
    /// # Errors
    /// `AllocError` if an allocation fails.
    pub fn new(alloc: Global, limit: u16) -> Result<NumberList, AllocError>
        ensures empty { IfOk result (λ list. list ≡ numbers [] limit) }
    {
        Ok(NumberList {
            members: Vec::with_capacity(alloc, usize::from(limit))?,
        })
    }

    /// The numbers, beginning at the front.
    pub fn as_slice(&self) -> &[u16]
        ensures value { result.now ≡ self.now.members }
        ensures numbers { AreNumbers self.now.members self.now.limit }
    {
        self.members.as_slice()
    }

    /// Returns whether a number is on the list.
    pub fn contains(&self, number: u16) -> bool
        ensures value { result ≡ is_member number self.now.members }
    {
        self.members.contains(&number)
    }

    /// Inserts a number at the front. A number that is already on the list keeps its place.
    pub fn add(&mut self, number: u16)
        requires in_range { number < self.old.limit }
        ensures after { self.new ≡ numbers (with_member number self.old.members) self.old.limit }
    {
        if !self.contains(number) {
            self.members.insert(0, number).unwrap();
        }
    }

    /// Keeps only the numbers for which the closure returns true.
    pub fn retain<F: FnMut(&u16) -> bool>(&mut self, keep: F)
        requires callable { F.IsAlwaysCallable keep }
        ensures kept { IsFiltered (CalledAt F.FnMut) keep self.old.members self.new.members }
        ensures limit { self.new.limit ≡ self.old.limit }
    {
        self.members.retain(keep);
    }

    /// Takes a number off the list, if the list contains it.
    pub fn remove(&mut self, number: u16)
        ensures after { self.new ≡ numbers (without_member number self.old.members) self.old.limit }
    {
        self.retain(|k| *k != number);
    }
}
