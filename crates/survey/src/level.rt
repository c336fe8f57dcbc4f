//! The search of the sets of one size.

use crate::broken::Broken;
use crate::task::{Node, Task};

/// What is known after some sets of one size.
#[derive(Drop)]
pub(crate) struct Level {
    /// The breaks that were found so far.
    pub found: Vec<Broken>,
    /// How many runs were made so far.
    pub trials: u64,
    /// The sets of this size that were tried, if there is a next size.
    pub nodes: Vec<Node>,
    /// The sets that are tried next, together.
    pub waiting: Vec<Task>,
}
