//! Events as programs name them. The types determine which events may be used in which place.
ghost use Rattle.std.specs.Prelude.{◌≡◌, ◌<◌};

use crate::event::SystemEvent;

/// The number of a program's first declared event. The others follow in the order of their declaration.
pub const FIRST_DECLARED: u8 = 0x8b;

/// An event that a program declares, numbered from 0 in the order of declaration. A program declares at most 117
/// events.
#[derive(Clone, Copy, Debug, PartialEq, Eq)]
pub struct DeclaredEvent {
    pub place: u8,
    ghost few: { place < 117 },
}

/// An event that may be broadcast.
#[derive(Clone, Copy, Debug, PartialEq, Eq)]
pub enum BroadcastEvent {
    Continue,
    Msg,
    Com,
    Packet,
    Declared(DeclaredEvent),
}

impl BroadcastEvent {
    ghost use Rattle.program_tree.specs.Meaning.{cast_of};
    ghost use Rattle.program_tree.specs.EventNames.{cast_number};

    /// The number of the event.
    pub fn number(self) -> u8
        ensures number { result ≡ cast_number (cast_of self) }
    {
        match self {
            BroadcastEvent::Continue => SystemEvent::Continue.number(),
            BroadcastEvent::Msg => SystemEvent::Msg.number(),
            BroadcastEvent::Com => SystemEvent::Com.number(),
            BroadcastEvent::Packet => SystemEvent::Packet.number(),
            BroadcastEvent::Declared(event) => FIRST_DECLARED + event.place,
        }
    }
}

/// An event that may be posted to one process, or delivered to it at once.
#[derive(Clone, Copy, Debug, PartialEq, Eq)]
pub enum PostedEvent {
    Cast(BroadcastEvent),
    Exit,
}

impl PostedEvent {
    ghost use Rattle.program_tree.specs.Meaning.{sent_of};
    ghost use Rattle.program_tree.specs.EventNames.{sent_number};

    /// The number of the event.
    pub fn number(self) -> u8
        ensures number { result ≡ sent_number (sent_of self) }
    {
        match self {
            PostedEvent::Cast(event) => event.number(),
            PostedEvent::Exit => SystemEvent::Exit.number(),
        }
    }
}

/// An event that a program may test for.
#[derive(Clone, Copy, Debug, PartialEq, Eq)]
pub enum TestedEvent {
    Sent(PostedEvent),
    Init,
    Poll,
    Exited,
    Timer,
}

impl TestedEvent {
    ghost use Rattle.program_tree.specs.Meaning.{any_of};
    ghost use Rattle.program_tree.specs.EventNames.{any_number};

    /// The number of the event.
    pub fn number(self) -> u8
        ensures number { result ≡ any_number (any_of self) }
    {
        match self {
            TestedEvent::Sent(event) => event.number(),
            TestedEvent::Init => SystemEvent::Init.number(),
            TestedEvent::Poll => SystemEvent::Poll.number(),
            TestedEvent::Exited => SystemEvent::Exited.number(),
            TestedEvent::Timer => SystemEvent::Timer.number(),
        }
    }
}
