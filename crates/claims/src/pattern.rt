//! Patterns of lines.
ghost use Rattle.std.specs.Prelude.{◌≡◌};
ghost use Rattle.claims.specs.Patterns.{has_kind, fits, wants_all};

use crate::process::wants_target;
use crate::set::{Set, wants};
use crate::what::{LineKind, Said};
use program_tree::Target;
use trace_lines::What;

/// The lines of some kinds, whose parts are as wanted. A line of another kind, or without a part that is wanted, doesn't
/// fit. A part that is `None` may be anything, or missing.
#[derive(Drop)]
pub struct Pattern {
    pub kinds: Vec<LineKind>,
    pub target: Option<Target>,
    pub serial: Option<Set>,
    pub event: Option<Set>,
    pub sender: Option<Set>,
    pub packet: Option<Set>,
    pub value: Option<Set>,
}

impl Pattern {
    fn has_kind(&self, what: &What) -> bool
        ensures value { result ≡ has_kind self.now what.now }
    {
        self.kinds.iter().any(|kind| kind.is_of(what))
    }

    fn wants(&self, said: &Said) -> bool
        ensures value { result ≡ wants_all self.now said.now }
    {
        wants_target(self.target, said.target)
            && wants(&self.serial, said.serial)
            && wants(&self.event, said.event)
            && wants(&self.sender, said.sender)
            && wants(&self.packet, said.packet)
            && wants(&self.value, said.value)
    }

    /// Returns whether a line with this event fits the pattern.
    pub fn fits(&self, what: &What) -> bool
        ensures value { result ≡ fits self.now what.now }
    {
        self.has_kind(what) && self.wants(&Said::by(what))
    }
}
