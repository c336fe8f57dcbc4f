//! Laws of media with faults. Each is a theorem, stated as the contract of an empty function.

ghost use Rattle.radio_faults.specs.Laws.{FatesTellCopies, LossTablesAgree, LossTablesAreSound};

/// The copies that are left of a packet with faults are those whose fates, with these faults, tell an arrival.
pub fn fates_tell_copies()
    ensures fates_tell_copies { FatesTellCopies }
{}

/// With broken links and silent motes, each packet has the fates that it has in the medium that loses every packet on the
/// broken links and otherwise the same packets, as if the scenario had these losses. Such a medium has no error if it has
/// none without these losses. (It may have more losses than a scenario may list.)
pub fn loss_tables_agree()
    ensures loss_tables_agree { LossTablesAgree }
    ensures loss_tables_are_sound { LossTablesAreSound }
{}
