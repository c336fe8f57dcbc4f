//! The faults that a net may have, each with a key: broken links, motes that are silent or off, and faults of copies. Which
//! copies there are depends on the run. The runs of a net with faults are what a survey rests on.
#![tactic(auto)]

mod keys;
pub mod laws;
mod offers;

pub use keys::{Candidates, CopyFault};
pub use offers::offered_keys;
