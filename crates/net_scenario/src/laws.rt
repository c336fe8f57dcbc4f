//! Laws about the meaning of a text. Each is stated as the contract of a function that only cites the laws about the
//! texts of programs.
ghost use Rattle.net_scenario.specs.Laws.{OneNet, AtMostOneFault, NeverBoth, NetOrFault};

use program_reader::laws::{
    at_most_one_fault as at_most_one_program_fault, at_most_one_tree, tree_or_fault,
};

/// A text describes at most one net.
pub fn at_most_one_net()
    ensures one_net { OneNet }
{
    at_most_one_tree();
    at_most_one_program_fault();
    tree_or_fault();
}

/// A text has at most one first fault.
pub fn at_most_one_fault()
    ensures one_fault { AtMostOneFault }
{
    at_most_one_tree();
    at_most_one_program_fault();
    tree_or_fault();
}

/// No text both describes a net and has a fault.
pub fn never_a_net_and_a_fault()
    ensures never_both { NeverBoth }
{
    at_most_one_tree();
    at_most_one_program_fault();
    tree_or_fault();
}

/// Each text describes a net or has a fault.
pub fn a_net_or_a_fault()
    ensures net_or_fault { NetOrFault }
{
    tree_or_fault();
}
