//! Laws of nets with faults.

ghost use Rattle.std.specs.Prelude.{List};
ghost use Rattle.window_laws.specs.System.{System, Turned};
ghost use Rattle.radio_faults.specs.Cases.{LinkIsBroken, LinkIsBrokenAndMoteIsSilent, MoteIsSilent, PacketIsLate};
ghost use Rattle.radio_faults.specs.Cases.{MoteBootsTwice, MoteIsOff, MoteIsOffForever, MoteRestarts, MoteStartsLate, OffWins};
ghost use Rattle.radio_faults.specs.Cases.{PacketIsLost, PacketIsLostOnOneWay};
ghost use Rattle.radio_faults.specs.NetLaws.{CopiesDecide, FaultsRunForward, NoFaults, OrderMeansNothing, PrefixLaw};
ghost use Rattle.radio_faults.specs.NetLaws.{UnsentIsNothing};
ghost use Rattle.radio_faults.specs.WithFaults.{Reboot};

/// Without faults a net is the same.
pub fn no_faults<S, L>()
    ensures no_faults { (reboot : Reboot S L) (system : System S L) → NoFaults reboot system }
{}

/// With faults a net runs forward as before. So it has a run, and only one, and windows commute in it.
pub fn faults_run_forward<S, L>()
    ensures faults_run_forward { (reboot : Reboot S L) (system : System S L) → FaultsRunForward reboot system }
{}

/// Faults matter only by when motes are off and boot again, and by what they make of the copies of packets that the run sends.
pub fn copies_decide<S, L>()
    ensures copies_decide { (reboot : Reboot S L) (system : System S L) → CopiesDecide reboot system }
{}

/// A fault changes nothing if it keeps no mote off and boots none, and names no copy that is left of the packets of the run.
pub fn unsent_is_nothing<S, L>()
    ensures unsent_is_nothing { (reboot : Reboot S L) (system : System S L) → UnsentIsNothing reboot system }
{}

/// The order of faults means nothing. (Several faults that make one copy late add up.)
pub fn order_means_nothing()
    ensures order_means_nothing { OrderMeansNothing }
{}

/// If two lists of faults make the same of all packets that are sent before a moment, and motes are off the same, both runs
/// pass through the same state at each earlier moment.
pub fn prefix_law<S, L>()
    ensures prefix_law { (reboot : Reboot S L) (system : System S L) → PrefixLaw reboot system }
{}

/// A case of each kind of fault of copies, and of two faults at once.
pub fn cases_by_hand()
    ensures link_is_broken { LinkIsBroken }
    ensures mote_is_silent { MoteIsSilent }
    ensures packet_is_lost_on_one_way { PacketIsLostOnOneWay }
    ensures packet_is_lost { PacketIsLost }
    ensures packet_is_late { PacketIsLate }
    ensures link_is_broken_and_mote_is_silent { LinkIsBrokenAndMoteIsSilent }
{}

/// Cases of motes that are off and boot again, for each kind of mote.
pub fn off_by_hand<S, L>()
    ensures forever { (reboot : Reboot S L) (first state : S) (turn : S → Turned S L) → MoteIsOffForever reboot first state turn }
    ensures off { (reboot : Reboot S L) (first state : S) (turn : S → Turned S L) → MoteIsOff reboot first state turn }
    ensures late { (reboot : Reboot S L) (first state : S) (turn : S → Turned S L) → MoteStartsLate reboot first state turn }
    ensures restarts { (reboot : Reboot S L) (first state : S) (turn : S → Turned S L) → MoteRestarts reboot first state turn }
    ensures off_wins { (reboot : Reboot S L) (first state : S) (turn : S → Turned S L) → OffWins reboot first state turn }
    ensures twice { (reboot : Reboot S L) (first state : S) (turn : S → Turned S L) → MoteBootsTwice reboot first state turn }
{}
