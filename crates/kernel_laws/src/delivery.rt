//! Laws of the delivery of events. Each is a theorem, stated as the contract of an empty function.

ghost use Rattle.kernel_laws.specs.DeliveryLaws.{DeliveryHandsOn, DeliveryHaltsLast, DeliveryStartsTheUnlisted};
ghost use Rattle.kernel_laws.specs.DeliveryTraces.{TracesThatDoNotDeliver, TracesThatDeliver, TracesWithUnseenFaults};
ghost use Rattle.kernel_laws.specs.DeliveryTraces.{TracesThatBreakTheOthers};

/// Each trace of the delivery machine delivers events in the order in which they were accepted.
pub fn delivery_hands_on()
    ensures delivery_hands_on { DeliveryHandsOn }
{}

/// Nothing follows a halt in a trace of the machine.
pub fn nothing_follows_a_halt()
    ensures delivery_halts_last { DeliveryHaltsLast }
{}

/// No process of the machine starts while it is already listed.
pub fn only_the_unlisted_start()
    ensures delivery_starts_the_unlisted { DeliveryStartsTheUnlisted }
{}

/// Small correct traces have the property `HandedOn`, and small traces with one fault each don't have it. `HandedOn`
/// doesn't detect some faults; the properties of [`nothing_follows_a_halt`] and [`only_the_unlisted_start`] detect two
/// of these.
pub fn traces_are_distinct()
    ensures traces_that_deliver { TracesThatDeliver }
    ensures broken { TracesThatDoNotDeliver }
    ensures unseen { TracesWithUnseenFaults }
    ensures others { TracesThatBreakTheOthers }
{}
