//! One timer.

ghost use Rattle.std.specs.Prelude.{◌≡◌, ◌≤◌, ◌^◌};
ghost use Rattle.mote_timers.specs.Timer.{expiration, is_due, is_owned_by};

use program_tree::Proc;

/// A timer: its start in moments, its interval in moments, and the process that gets an event when the timer is due
/// (`struct timer` of `timer.h`, and `p` of `struct etimer`).
#[derive(Clone, Copy, Debug, PartialEq, Eq)]
pub struct Timer {
    pub start: u64,
    pub interval: u16,
    pub owner: Option<Proc>,
}

/// The latest start that `reset` gives a timer.
pub const LATEST_START: u64 = 1 << 62;

impl Timer {
    ghost use Rattle.mote_timers.specs.Timer.{unset};

    /// A timer that was never set.
    pub fn unset() -> Timer
        ensures value { result ≡ unset }
    {
        Timer {
            start: 0,
            interval: 0,
            owner: None,
        }
    }

    /// The first moment at which the timer is due.
    pub fn expiration(&self) -> u64
        requires start_bounded { self.now.start ≤ 2 ^ 62 }
        ensures value { result ≡ expiration self.now }
    {
        self.start + u64::from(self.interval)
    }

    /// Returns whether the timer is due at this moment.
    pub fn is_due(&self, now: u64) -> bool
        ensures value { result ≡ is_due now self.now }
    {
        now >= self.start && now - self.start >= u64::from(self.interval)
    }

    /// Returns whether this process owns the timer.
    pub fn is_owned_by(&self, owner: Proc) -> bool
        ensures value { result ≡ is_owned_by owner self.now }
    {
        self.owner == Some(owner)
    }
}
