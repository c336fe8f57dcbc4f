//! An inbox: many threads push copies of packets into it, and one takes them. No copy is lost, duplicated or invented.
#![tactic(auto)]

mod count;
mod inbox;
mod items;
mod mark_count;
mod rule;

pub use inbox::{Inbox, InboxError, Sender, Taker};
pub use items::{Carried, Item};
