//! Claims about the report of a run, the decision whether a report keeps a claim, and where a claim is broken: the case, the
//! test, the mote and the line.
#![tactic(auto)]

mod claim;
mod compared;
mod count;
mod difference;
mod laws;
mod limits;
mod lines;
mod medium;
mod order;
mod pattern;
mod process;
mod ratio;
mod seen;
mod set;
mod shown;
mod trace;
mod values;
mod what;
mod witness;

pub use claim::{Case, Claim, Test, holding, holds};
pub use compared::{Comparison, Way};
pub use count::Count;
pub use difference::Difference;
pub use laws::{after_means_after_the_first, any_order_is_a_permutation, values_are_in_time};
pub use limits::Limits;
pub use lines::Lines;
pub use medium::{Copies, CopyFate, Packets};
pub use order::{Order, Relation};
pub use pattern::Pattern;
pub use ratio::Ratio;
pub use set::{Set, Span};
pub use trace::{Deed, Found, Watched, trace_of};
pub use what::{LineKind, Said};
pub use witness::{Break, BrokenTest, Spare, Witness, break_of};
