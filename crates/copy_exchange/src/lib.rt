//! Partitions of the motes of a net among workers, the copies that cross from one worker to another, and their exchange
//! through the workers' inboxes, window by window: the copies of a window and, in a
//! run with marks, a mark after them. No copy that one worker delivers to another is lost, duplicated or invented, and
//! the copies of each mote stay in order. With marks, a worker takes items until the marks of a window have arrived.
//! `window_workers` ensures that a worker begins no window before the marks of the previous one have arrived.
#![tactic(auto)]

mod cut;
pub mod cut_laws;
mod endpoint;
mod heard;
mod inboxes;
pub mod laws;
mod own;
mod take;
mod wait;
mod window;

pub use cut::Cut;
pub use endpoint::Endpoint;
pub use inboxes::{known, make_inboxes, pair_inboxes, split_pairs};
pub use own::is_own;
pub use take::{MarkTaker, WindowPosition};
pub use window::{endpoints, gather_back, gather_window};
