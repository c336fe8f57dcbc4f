//! Counting semaphores.
ghost use Rattle.std.specs.Prelude.{◌≡◌, ◌+◌, ◌-◌, ◌%◌, ◌^◌, ◌<◌, ◌↔◌, IsTrue};

use std::marker::Model;

/// A counting semaphore as in Contiki's `pt-sem.h`, with a count of 16 bits.
#[derive(Clone, Copy, Debug, PartialEq, Eq)]
pub struct Semaphore {
    count: u16,
}

impl Model for Semaphore {
    ghost use Rattle.std.specs.Prelude.{ℕ};

    ghost Value = { ℕ };

    ghost view = { λ s. s.count };

    ghost inverse = { λ n. record { count = n } };
}

impl Semaphore {
    /// A semaphore with this count.
    pub fn new(count: u16) -> Semaphore
        ensures count { result ≡ count }
    {
        Semaphore { count }
    }

    /// The count.
    pub fn count(&self) -> u16
        ensures value { result ≡ self.now }
    {
        self.count
    }

    /// Subtracts one if the count is above 0, and returns whether it was above 0.
    pub fn take(&mut self) -> bool
        ensures took { IsTrue result ↔ (0 < self.old) }
        // A count of 0 stays 0.
        ensures count { self.new ≡ self.old - 1 }
    {
        if self.count == 0 {
            return false;
        }
        self.count -= 1;
        true
    }

    /// Adds one, modulo 65,536.
    pub fn signal(&mut self)
        ensures after { self.new ≡ (self.old + 1) % 2 ^ 16 }
    {
        self.count = self.count.wrapping_add(1);
    }
}
