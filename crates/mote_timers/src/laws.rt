//! Laws of the timers: theorems, each stated as the contract of an empty function.

ghost use Rattle.mote_timers.specs.TimerCalls.{ListedOnce, CallsKeepTimers, DueFromExpiration, DueFromSet};
ghost use Rattle.mote_timers.specs.TimerCalls.{DueFromNextExpiration};

/// After any calls on new timers, each timer is on the timer list at most once, so a walk along the list ends.
pub fn listed_once()
    ensures listed_once { ListedOnce }
{}

/// No call creates or removes a timer, so the numbers that a caller may use stay the same.
pub fn timers_stay()
    ensures keeps_timers { CallsKeepTimers }
{}

/// Suppose that a timer was set, and that no later call fired, stopped or purged it. Then the timer is due from its
/// expiration (its start plus its interval) on, and not before. If no later call set the timer again either, its
/// expiration is the moment at which it was set plus the interval with which it was set.
pub fn due_from_expiration()
    ensures last_set { DueFromExpiration }
    ensures set_once { DueFromSet }
{}

/// The next expiration is the first moment at which `next_due`, called without `after`, finds a timer.
pub fn due_from_next_expiration()
    ensures due_from_next_expiration { DueFromNextExpiration }
{}
