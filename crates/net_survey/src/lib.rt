//! Surveys of a net: the minimal sets of faults with which a claim doesn't hold in the report of the net's run; and the
//! text of a survey.
#![tactic(auto)]

mod candidates;
mod claim;
mod fault;
mod net_trial;
mod report;
mod search;

pub use candidates::{MoteFault, candidates_of};
pub use claim::put_claim;
pub use fault::put_set;
pub use fault_keys::{Candidates, CopyFault};
pub use report::{is_complete, write_survey};
pub use search::{survey_net, survey_net_serial};
pub use survey::{Broken, Limits, NoProgress, Progress, Survey};
