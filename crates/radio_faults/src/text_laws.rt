//! Laws of the text of faults.
ghost use Rattle.radio_faults.specs.TextLaws.{OneFault, TextsAreRead};

/// Two faults don't share a text.
pub fn one_fault()
    ensures one_fault { OneFault }
{}

/// The text of a fault is a line that is read as this fault.
pub fn texts_are_read()
    ensures texts_are_read { TextsAreRead }
{}
