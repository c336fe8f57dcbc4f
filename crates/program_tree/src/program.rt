//! A program.
//!
//! The fields are public for the crates that read and print programs. The facts in the ghost fields hold for each
//! value, so a value is always the program of a text.
ghost use Rattle.std.specs.Prelude.{◌≡◌, ◌<◌, ◌≤◌, length, map, slice_get, Some, IfSome, option_map};
ghost use Rattle.std.specs.Option.{ForSome};
ghost use Rattle.std.specs.List.{All};
ghost use Rattle.program_tree.specs.ProcessText.{code_of};
ghost use Rattle.program_tree.specs.Made.{WasRead, IsProgramTree};

use crate::event_name::FIRST_DECLARED;
use crate::names::Names;
use crate::process_text::ProcessText;
use crate::timer::Timer;
use std::fmt;
use std::fmt::{Debug, Formatter};

/// A program: its declared events and semaphores, its processes in the order of the `process` line, the processes that
/// start at boot, the process that gets packets, the text of each process, and the timers of all processes.
pub struct Program {
    pub events: Names,
    pub semaphores: Names,
    pub counts: Vec<u16>,
    pub processes: Names,
    pub autostart: Vec<u8>,
    pub receiver: Option<u8>,
    pub codes: Vec<ProcessText>,
    pub timers: Vec<Timer>,
    ghost few_events: { length events ≤ 117 },
    ghost few_semaphores: { length semaphores ≤ 64 },
    ghost each_count: { length counts.items ≡ length semaphores },
    ghost few_processes: { length processes ≤ 64 },
    ghost started: { All (λ i. i < length processes) autostart.items },
    ghost received: { ForSome receiver (λ i. i < length processes) },
    ghost each_code: { length codes.items ≡ length processes },
    ghost few_timers: { length timers.items ≤ 64 },
    ghost owned: { All (λ t. t.process < length processes) timers.items },
    ghost was_read: { WasRead (record {
      events = events;
      semaphores = semaphores;
      counts = counts.items;
      processes = processes;
      autostart = autostart.items;
      receiver = receiver;
      codes = map code_of codes.items;
      timers = timers.items;
    }) },
}

/// Implemented by hand: when the prover checks a function that owns a program, it sees the program's drop as one call.
impl Drop for Program {
    fn drop(self) {
        let Program {
            events: _,
            semaphores: _,
            counts: _,
            processes: _,
            autostart: _,
            receiver: _,
            codes: _,
            timers: _,
        } = self;
    }
}

/// Implemented by hand: it shows only the names of the processes. `mote_program::print_program` returns the whole text.
impl Debug for Program {
    fn fmt<W: fmt::Write>(&self, f: &mut Formatter<W>) -> fmt::Result {
        f.debug_struct("Program")
            .field("processes", &self.processes)
            .finish_non_exhaustive()
    }
}

impl Program {
    ghost use Rattle.program_tree.specs.Code.{declared_name};
    ghost use Rattle.program_tree.specs.Program.{tree_of};

    /// Makes a program of these parts. The numbers in each part refer to the other parts.
    pub fn new(
        events: Names,
        semaphores: Names,
        counts: Vec<u16>,
        processes: Names,
        autostart: Vec<u8>,
        receiver: Option<u8>,
        codes: Vec<ProcessText>,
        timers: Vec<Timer>,
    ) -> Program
        requires is_made { IsProgramTree (record {
          events = events;
          semaphores = semaphores;
          counts = counts.items;
          processes = processes;
          autostart = autostart.items;
          receiver = receiver;
          codes = map code_of codes.items;
          timers = timers.items;
        }) }
        ensures tree { tree_of result ≡ record {
          events = events;
          semaphores = semaphores;
          counts = counts.items;
          processes = processes;
          autostart = autostart.items;
          receiver = receiver;
          codes = map code_of codes.items;
          timers = timers.items;
        } }
    {
        Program {
            events,
            semaphores,
            counts,
            processes,
            autostart,
            receiver,
            codes,
            timers,
        }
    }

    /// The number of processes.
    pub fn processes(&self) -> u8
        ensures value { result ≡ length (tree_of self.now).processes }
        ensures bounded { result ≤ 64 }
    {
        self.processes.len() as u8
    }

    /// The name of the process with this number.
    pub fn name(&self, process: u8) -> &str
        requires process_exists { process < length (tree_of self.now).processes }
        ensures name { slice_get (tree_of self.now).processes process ≡ Some result.now }
    {
        self.processes.get(usize::from(process))
    }

    /// The text of the process with this number.
    pub fn process(&self, process: u8) -> &ProcessText
        requires process_exists { process < length (tree_of self.now).processes }
        ensures code { slice_get (tree_of self.now).codes process ≡ Some (code_of result.now) }
    {
        &self.codes[usize::from(process)]
    }

    /// The name of a declared event, by the event's number (0x8b or above).
    pub fn event_name(&self, number: u8) -> Option<&str>
        ensures name { option_map (λ n. n.now) result ≡ declared_name (tree_of self.now) number }
    {
        let place = usize::from(number.checked_sub(FIRST_DECLARED)?);
        if place < self.events.len() {
            Some(self.events.get(place))
        } else {
            None
        }
    }

    /// The numbers of the processes that start at boot, in order.
    pub fn autostart(&self) -> &[u8]
        ensures value { result.now ≡ (tree_of self.now).autostart }
        ensures within { All (λ i. i < length (tree_of self.now).processes) result.now }
    {
        &self.autostart
    }

    /// The number of the process that gets the packets from the radio, if there is one.
    pub fn receiver(&self) -> Option<u8>
        ensures value { result ≡ (tree_of self.now).receiver }
        ensures within { IfSome result (λ i. i < length (tree_of self.now).processes) }
    {
        self.receiver
    }

    /// The number of timers, with both kinds counted together.
    pub fn timers(&self) -> u16
        ensures value { result ≡ length (tree_of self.now).timers }
        ensures bounded { result ≤ 64 }
    {
        self.timers.len() as u16
    }

    /// Returns `true` if a timer is a callback timer.
    pub fn is_callback(&self, timer: u16) -> bool
        requires is_timer { timer < length (tree_of self.now).timers }
        ensures value { IfSome (slice_get (tree_of self.now).timers timer) (λ t. result ≡ t.is_callback) }
    {
        self.timers[usize::from(timer)].is_callback
    }

    /// The number of the process that has this timer.
    pub fn timer_process(&self, timer: u16) -> u8
        requires is_timer { timer < length (tree_of self.now).timers }
        ensures value { IfSome (slice_get (tree_of self.now).timers timer) (λ t. result ≡ t.process) }
        ensures within { result < length (tree_of self.now).processes }
    {
        self.timers[usize::from(timer)].process
    }

    /// The first count of each semaphore.
    pub fn semaphores(&self) -> &[u16]
        ensures value { result.now ≡ (tree_of self.now).counts }
        ensures bounded { length result.now ≤ 64 }
    {
        &self.counts
    }
}
