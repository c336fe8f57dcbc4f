//! Laws of the traces of a mote. Each is a theorem, stated as the contract of an empty function.

ghost use Rattle.mote_laws.specs.Laws.{MotesHandOn, NewGoesWithNoLines, TurnKeeps};
ghost use Rattle.mote_node.specs.Laws.{WakesInTime, WakesLater};
ghost use Rattle.mote_laws.specs.Due.{TurnsForgetNone, TurnsKeepOwners, TurnsServeTimers};
ghost use Rattle.mote_laws.specs.Ring.{TurnsHear, TurnsCollide, RingGoesWithLines, TurnsEmptyRing};
ghost use Rattle.mote_laws.specs.Ring.{PacketsAreAccountedFor};
ghost use Rattle.mote_laws.specs.Stamps.{TurnsStamp, PacketsCountUp, TurnsNeverGoBack};

/// Each trace of a mote delivers events in the order in which they were accepted, nothing follows a halt, and a
/// process starts only if it isn't listed. This is true for any program and for any turns.
pub fn motes_hand_on()
    ensures motes_hand_on { MotesHandOn }
{}

/// The lines of a mote agree with its state, turn after turn.
pub fn each_turn_keeps_order()
    // An empty list of lines agrees with a mote before its first turn.
    ensures new { NewGoesWithNoLines }
    // After each turn, the lines so far still agree with the mote.
    ensures turn { TurnKeeps }
{}

/// The lines and packets of a mote are stamped with their moment, a tick of the simulated clock.
pub fn each_turn_bears_its_moment()
    // Each line and each packet of a turn is stamped with the turn's moment, and the packets with the mote's number.
    ensures turn { TurnsStamp }
    // The packets of a mote are numbered from 0 on, in order, whatever turns it takes.
    ensures packets { PacketsCountUp }
    // The moments of the lines never go back.
    ensures lines { TurnsNeverGoBack }
{}

/// Each packet that arrives gets its lines, whatever turns a mote takes. If the mote halts, some packets may be left
/// after those that were delivered. A `post` or `full` line looks the same if a program itself posts `packet` to the
/// receiver.
pub fn each_packet_is_handed_on()
    // Each packet that arrives is received (`recv`) or lost (`lost`), unless the packets of the turn collide or the
    // mote has halted by the end of the turn.
    ensures heard { TurnsHear }
    // If they collide, the lines of the turn begin with one `collide` line for each of them, in order, and none is
    // received.
    ensures collide { TurnsCollide }
    // A packet is appended to the ring if the ring holds fewer than 8, is lost only if it holds 8, and leaves the ring
    // from the front. No `deaf` line is written for another reason.
    ensures ring { RingGoesWithLines }
    // After a turn the ring is empty, unless the mote has halted.
    ensures emptied { TurnsEmptyRing }
    // After each turn, unless the mote has halted, each packet that was received so far has a line of its own, in the
    // order of the packets. The packet is posted to the receiver (`post`), refused because the queue is full (`full`),
    // or heard by nobody because there is no receiver (`deaf`).
    ensures packets { PacketsAreAccountedFor }
{}

/// No timer is forgotten, whatever turns a mote takes. The clauses `serves`, `forgets_none` and `wakes_in_time` claim
/// nothing about a mote that has halted by the end of the turn. A timer whose event was refused by a full queue, or
/// that was set too late in the turn, is served at the next moment.
pub fn no_timer_is_forgotten()
    // Each timer on the list has an owner.
    ensures owners { TurnsKeepOwners }
    // A turn at or after the expiration of a listed timer polls etimer in its first kernel run. The run first polls
    // the processes that precede etimer on the process list and had asked for a poll, and then etimer. For each timer
    // that is due then, a line of that turn states that TIMER was posted to its owner (`post`), or that the queue was
    // full (`full`).
    ensures serves { TurnsServeTimers }
    // After a turn each listed timer expires later than the turn's moment, or a poll of etimer waits and the mote
    // wakes at the next moment.
    ensures forgets_none { TurnsForgetNone }
    // The next wake is never later than the next expiration. But if this expiration isn't later than the turn, the
    // mote wakes at the next moment.
    ensures wakes_in_time { WakesInTime }
    // The next wake is always later than the turn's moment.
    ensures wakes_later { WakesLater }
{}
