//! Laws of the notation: theorems, each stated as the contract of an empty function.
ghost use Rattle.std.specs.Prelude.{◌≡◌, ℕ, List};
ghost use Rattle.program_tree.specs.Code.{Tree};
ghost use Rattle.program_tree.specs.Reading.{IsTreeOf, IsErrorOf};
ghost use Rattle.program_tree.specs.ReadingLaws.{HasTreeOrFault};
ghost use Rattle.program_tree.specs.declared.error.ReadErrorKind.{ReadErrorKind};

/// A text has at most one tree.
pub fn at_most_one_tree()
    ensures at_most_one { (text : List ℕ) (t u : Tree) → IsTreeOf text t → IsTreeOf text u → t ≡ u }
{}

/// Each text has a tree or a reported error, and no text has both.
pub fn tree_or_fault()
    ensures has_tree_or_fault { (text : List ℕ) → HasTreeOrFault text }
{}

/// A text has at most one reported error.
pub fn at_most_one_fault()
    ensures at_most_one { (text : List ℕ) (j k : ReadErrorKind) (l m : ℕ) → IsErrorOf text j l → IsErrorOf text k m →
        (j ≡ k)
        × (l ≡ m) }
{}
