//! The laws for surveys of nets. Each is a theorem, stated as the contract of an empty function.

ghost use Rattle.fault_keys.specs.Offers.{NetsOfferAll};
ghost use Rattle.fault_keys.specs.Laws.{KeysOfferAll};

/// If the keys that a run of a net offers are those of the faults that aren't in its set and may change it, then what a
/// survey rests on is true: the order of faults means nothing, and a fault that isn't offered changes no claim and makes the
/// run offer no more. A fault may change a run if it keeps a mote off, or names a copy that isn't lost in it. Keys may stand
/// for faults of all kinds.
pub fn nets_offer_all()
    ensures nets_offer_all { NetsOfferAll }
{}

/// The runs of a net with the faults of some keys are what a survey rests on: all faults that may change a run are offered,
/// and no key is offered twice.
pub fn keys_offer_all()
    ensures keys_offer_all { KeysOfferAll }
{}
