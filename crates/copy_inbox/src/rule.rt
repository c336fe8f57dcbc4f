//! The rule of an inbox's queue, and the knowledge of each pass of the queue. Values of these types don't exist at run
//! time: they are for contracts and proofs.

use crate::items::{Carried, Item};
use crossbeam_queue::protocol::{Join, Lesson, Outcome, Protocol, Split};
use std::collections::LinkedList;

/// A sender that was gathered: its number, the number of senders that had been made by then, and all items that it
/// pushed.
pub struct Gathered {
    pub number: u64,
    pub made: u64,
    pub pushed: LinkedList<Carried>,
}

/// The taker's knowledge: whether the inbox has marks, the number of senders that the taker has made, the items that
/// it has taken, and the senders that it has gathered, the newest first.
pub struct TakerState {
    pub marked: bool,
    pub made: u64,
    pub taken: LinkedList<Item>,
    pub gathered: LinkedList<Gathered>,
}

/// A sender's knowledge: whether the inbox has marks, the sender's number, and the items that the sender has pushed.
pub struct SenderState {
    pub marked: bool,
    pub number: u64,
    pub pushed: LinkedList<Carried>,
}

/// The knowledge of a pass of the queue. A spent pass was joined to the taker's pass, or never belonged to a sender.
pub enum View {
    Taking(TakerState),
    Sending(SenderState),
    Spent,
}

/// The rule of the queue.
pub struct Ruled;

impl Protocol<Item, View> for Ruled {
    ghost use Rattle.copy_inbox.specs.Rule.{InboxRule};
    ghost use Rattle.copy_inbox.specs.Views.{new_taker};

    ghost holds = { InboxRule };

    ghost first = { new_taker };
}

/// The taker makes a sender.
pub struct Makes;

impl Split<View> for Makes {
    ghost use Rattle.copy_inbox.specs.Views.{with_one_more, next_sender};

    ghost left = { with_one_more };

    ghost right = { next_sender };
}

/// The inbox gets marks. The pass that is split off belongs to nobody.
pub struct Marks;

impl Split<View> for Marks {
    ghost use Rattle.copy_inbox.specs.Views.{with_marks, no_sender};

    ghost left = { with_marks };

    ghost right = { no_sender };
}

/// The taker gathers a sender.
pub struct Gathers;

impl Join<View> for Gathers {
    ghost use Rattle.copy_inbox.specs.Views.{with_gathered};
    ghost use Rattle.copy_inbox.specs.declared.rule.View.TheVariants.{Spent};

    ghost both = { with_gathered };

    ghost spent = { Spent };
}

/// A sender pushes an item.
pub struct Pushes;

impl Outcome<Item, View> for Pushes {
    ghost use Rattle.copy_inbox.specs.Rule.{Pushed};

    ghost then = { Pushed };
}

/// The taker takes an item, or finds the queue empty.
pub struct Takes;

impl Outcome<Item, View> for Takes {
    ghost use Rattle.copy_inbox.specs.Rule.{Took};

    ghost then = { Took };
}

impl Lesson<Item, View> for Takes {
    ghost use Rattle.copy_inbox.specs.Rule.{SeenBy};

    ghost fact = { SeenBy };
}
