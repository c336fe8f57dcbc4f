//! Laws of turns. Each is a theorem, stated as the contract of an empty function.

ghost use Rattle.mote_node.specs.Laws.{HaltedTurnDoesNothing, TurnsRise, WakesInTime, WakesLater};

/// The wake that a turn returns is later than the turn.
pub fn wakes_later()
    ensures wakes_later { WakesLater }
{}

/// A node that has not halted wakes when its first timer is due, or before. If the timer is due at the turn's own
/// moment or earlier, the node wakes at the next moment.
pub fn wakes_in_time()
    ensures wakes_in_time { WakesInTime }
{}

/// Turns happen only at rising moments.
pub fn turns_rise()
    ensures turns_rise { TurnsRise }
{}

/// A turn of a node that has halted changes only its clock, writes nothing, sends nothing, and returns no wake.
pub fn halted_turn_does_nothing()
    ensures halted_turn_does_nothing { HaltedTurnDoesNothing }
{}
