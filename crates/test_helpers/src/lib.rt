//! The common part of several crates of tests. Tests write the results of a part into a text, which is compared once,
//! and they simulate nets of a few motes. The functions here have no contracts, because no proof depends on them.
#![tactic(auto)]

mod nets;
mod texts;

pub use nets::{PRINT_THEN_YIELD, TWO_SENDERS};
pub use texts::{same_text, write_copies, write_lines, write_sends};
