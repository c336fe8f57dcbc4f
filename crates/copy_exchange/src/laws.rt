//! Laws of marks. Each is a theorem, stated as the contract of an empty function.

ghost use Rattle.copy_exchange.specs.Laws.{AllIsTaken, EarlyIsUnseen};

/// Suppose that a sender pushed, for one window after another, its copies and then a mark, and that the items taken
/// from it are a prefix of these items. If all its marks have been taken, all items that it pushed have been taken.
pub fn all_is_taken()
    ensures all_is_taken { AllIsTaken }
{}

/// Copies that are taken early don't change a window. The law has these premises: the window sees no copy that is sent
/// in it or later; and the items taken from a sender are the first ones that it pushed, up to the mark of the window
/// before this one or further. Then the window sees the same copies from this sender in both cases: if it has only the
/// copies sent before it, and if it has all copies that were taken.
pub fn early_is_unseen()
    ensures early_is_unseen { EarlyIsUnseen }
{}
