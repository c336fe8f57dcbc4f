//! Lines before and after other lines.
ghost use Rattle.std.specs.Prelude.{◌≡◌};
ghost use Rattle.claims.specs.Orders.{is_before, is_beside_or_before, is_related};

use crate::trace::{Deed, Found};

/// A relation of a line to a line of an event.
#[derive(Clone, Copy)]
pub enum Relation {
    /// The event is before the line.
    After,
    /// The event isn't after the line.
    NotBefore,
    /// The event is before the line, or at the same moment at another mote, and at most this many moments earlier.
    Within(u64),
    /// The event is after the line, or at the same moment at another mote, and at most this many moments later. A line
    /// near the end of a run isn't followed by an event that would come in time, but after the end.
    Followed(u64),
}

/// The lines that have (`is_so`), or don't have, a relation to some line of an event.
#[derive(Drop)]
pub struct Order {
    pub relation: Relation,
    pub event: Deed,
    pub is_so: bool,
}

impl Found {
    /// Returns whether this line is before another one. Two lines of different motes at the same moment have no order.
    pub fn is_before(&self, other: &Found) -> bool
        ensures value { result ≡ is_before self.now other.now }
    {
        self.line.at < other.line.at
            || self.line.at == other.line.at && self.mote == other.mote && self.place < other.place
    }

    /// Returns whether this line is before another one, or at the same moment at another mote.
    pub fn is_beside_or_before(&self, other: &Found) -> bool
        ensures value { result ≡ is_beside_or_before self.now other.now }
    {
        self.is_before(other) || self.line.at == other.line.at && self.mote != other.mote
    }
}

impl Relation {
    /// Returns whether a line has the relation to a line of an event.
    pub fn relates(self, line: &Found, event: &Found) -> bool
        ensures value { result ≡ is_related self line.now event.now }
    {
        match self {
            Relation::After => event.is_before(line),
            Relation::NotBefore => !line.is_before(event),
            Relation::Within(moments) => {
                event.is_beside_or_before(line) && line.line.at - event.line.at <= moments
            }
            Relation::Followed(moments) => {
                line.is_beside_or_before(event) && event.line.at - line.line.at <= moments
            }
        }
    }
}
