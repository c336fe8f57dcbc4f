//! Laws of windows. Each is a theorem, stated as the contract of an empty function.

ghost use Rattle.worker_window.specs.Laws.{EarlierStaysInFront, EndIsOne, EndsWithItsWake, NoTurnIsPast};

/// The run of a mote's window has at most one end. The run is the mote's own, so the order of the turns of several
/// motes doesn't matter.
pub fn one_window_run()
    ensures end_is_one { EndIsOne }
{}

/// The run of a window appends its lines and packets after the earlier ones, and depends on the earlier ones in no
/// other way.
pub fn earlier_stays_in_front()
    ensures earlier_stays_in_front { EarlierStaysInFront }
{}

/// If the wake recorded in a window is the mote's next wake at the beginning, it is the mote's next wake at the end,
/// too.
pub fn ends_with_its_wake()
    ensures ends_with_its_wake { EndsWithItsWake }
{}

/// After a turn of a window, the next event is later. So only the first turn of a window can return `Past`.
pub fn no_turn_is_past()
    ensures no_turn_is_past { NoTurnIsPast }
{}
