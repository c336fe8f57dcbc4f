//! Laws of the copies that cross between workers. Each is a theorem, stated as the contract of an empty function.

ghost use Rattle.window_laws.specs.System.{System};
ghost use Rattle.copy_exchange.specs.CutLaws.{WindowCopiesAreWhole, CrossedOnce};

/// Consider the copies that a worker's own motes sent, and all copies that crossed to the worker and that it took.
/// Among these copies, those for one of its motes in one window are the copies that the law of windows requires.
pub fn window_copies_are_whole<S, L>()
    ensures window_copies_are_whole { (system : System S L) → WindowCopiesAreWhole system }
{}

/// Suppose that a net runs forward, that its motes ran through windows from moment 0, and that a worker gathered, for
/// each mote, the copies that the mote sent to it across the partition. Then the worker has gathered exactly those
/// copies of the packets in the log that cross to it, each once.
pub fn crossed_once<S, L>()
    ensures crossed_once { (system : System S L) → CrossedOnce system }
{}
