//! The words for processes, targets and events: the system's own words, and the names in a mote's program. Each word
//! is found by its number.
ghost use Rattle.std.specs.Prelude.{◌≡◌, [], slice_get, unwrap_or};
ghost use Rattle.program_tree.specs.Program.{tree_of};
ghost use Rattle.trace_printer.specs.Words.{process_word, target_word, event_word};

use program_tree::{Proc, Program, SystemEvent, Target};

// The numbers of the system's events.
const INIT: u8 = SystemEvent::Init as u8;

const POLL: u8 = SystemEvent::Poll as u8;

const EXIT: u8 = SystemEvent::Exit as u8;

const CONTINUE: u8 = SystemEvent::Continue as u8;

const MSG: u8 = SystemEvent::Msg as u8;

const EXITED: u8 = SystemEvent::Exited as u8;

const TIMER: u8 = SystemEvent::Timer as u8;

const COM: u8 = SystemEvent::Com as u8;

const PACKET: u8 = SystemEvent::Packet as u8;

/// Returns the name of a process of the program, or the empty text if the program has no such process.
fn own_word(program: &Program, number: u8) -> &str
    ensures value { result.now ≡ unwrap_or (slice_get (tree_of program.now).processes number) [] }
{
    if number < program.processes() {
        program.name(number)
    } else {
        ""
    }
}

/// Returns the name of a process, or the empty text if the program doesn't have the process.
pub fn process_word(program: &Program, process: Proc) -> &str
    ensures value { result.now ≡ process_word (tree_of program.now) process }
{
    match process {
        Proc::Own(number) => own_word(program, number),
        Proc::Etimer => "etimer",
        Proc::Ctimer => "ctimer",
        Proc::Radio => "radio",
    }
}

/// Returns the name of an event's receiver, or `all`.
pub fn target_word(program: &Program, target: Target) -> &str
    ensures value { result.now ≡ target_word (tree_of program.now) target }
{
    match target {
        Target::One(process) => process_word(program, process),
        Target::All => "all",
    }
}

/// Returns the word of an event, or the empty text if the program doesn't declare the event.
pub fn event_word(program: &Program, event: u8) -> &str
    ensures value { result.now ≡ event_word (tree_of program.now) event }
{
    match event {
        INIT => SystemEvent::Init.word(),
        POLL => SystemEvent::Poll.word(),
        EXIT => SystemEvent::Exit.word(),
        CONTINUE => SystemEvent::Continue.word(),
        MSG => SystemEvent::Msg.word(),
        EXITED => SystemEvent::Exited.word(),
        TIMER => SystemEvent::Timer.word(),
        COM => SystemEvent::Com.word(),
        PACKET => SystemEvent::Packet.word(),
        _ => program.event_name(event).unwrap_or(""),
    }
}
