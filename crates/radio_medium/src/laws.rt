//! Laws of the medium. Each is a theorem, stated as the contract of an empty function.

ghost use Rattle.radio_medium.specs.Laws.{LooksAhead, CopiesComeLater, CopiesRise};

/// A medium without an error has a lookahead above 0. Each copy of a packet goes to a mote of the net that hears the
/// sender, and needs at least the lookahead to arrive.
pub fn copies_come_later()
    ensures ahead { LooksAhead }
    ensures later { CopiesComeLater }
{}

/// The copies of a packet are sorted by receiver, and no mote has two of them.
pub fn copies_rise()
    ensures copies_rise { CopiesRise }
{}
