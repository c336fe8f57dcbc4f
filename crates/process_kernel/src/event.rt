//! The events of the kernel itself.

ghost use Rattle.std.specs.Prelude.{◌≡◌};
ghost use Rattle.process_kernel.specs.Posts.{own_event, is_system_event as has_number_of};

use program_tree::{Event, SystemEvent};

/// An event of the kernel itself, with a word. Its sender is 0.
pub fn system_event(event: SystemEvent, word: u16) -> Event
    ensures value { result ≡ own_event event word }
{
    Event {
        number: event.number(),
        word,
        sender: 0,
    }
}

/// Returns `true` if an event has the number of this event, no matter who posted it.
pub fn is_event(which: SystemEvent, event: &Event) -> bool
    ensures value { result ≡ has_number_of which event.now }
{
    event.number == which.number()
}
