//! Processes, targets and events, in the form in which the kernel's functions use them.
ghost use Rattle.std.specs.Prelude.{◌≡◌};

/// A process of a mote: one of the program's own processes, numbered in the order of the `process` line, or one of the
/// three system processes that each mote starts first.
#[derive(Clone, Copy, Debug, PartialEq, Eq)]
pub enum Proc {
    Own(u8),
    Etimer,
    Ctimer,
    Radio,
}

/// The receivers of an event: one process, or all processes on the process list (`PROCESS_BROADCAST` of `process.h`).
#[derive(Clone, Copy, Debug, PartialEq, Eq)]
pub enum Target {
    One(Proc),
    All,
}

/// The event with which a process is called: its number (`process_event_t`), its word of 16 bits, and the number of
/// the mote that sent it. The number of the mote is 0, except for a packet from the radio.
#[derive(Clone, Copy, Debug, PartialEq, Eq)]
pub struct Event {
    pub number: u8,
    pub word: u16,
    pub sender: u16,
}

/// An event that every kernel knows, with its number: the events of `process.h` (`PROCESS_EVENT_INIT` is 0x81), and
/// the packet that the radio delivers.
#[derive(Clone, Copy, Debug, PartialEq, Eq)]
pub enum SystemEvent {
    Init = 0x81,
    Poll = 0x82,
    Exit = 0x83,
    Continue = 0x85,
    Msg = 0x86,
    Exited = 0x87,
    Timer = 0x88,
    Com = 0x89,
    Packet = 0x8a,
}

impl SystemEvent {
    ghost use Rattle.program_tree.specs.Events.{system_number, system_word};

    /// The number of the event.
    pub fn number(self) -> u8
        ensures number { result ≡ system_number self }
    {
        self as u8
    }

    /// The word for the event in programs and reports.
    pub fn word(self) -> &'static str
        ensures word { result.now ≡ system_word self }
    {
        match self {
            SystemEvent::Init => "init",
            SystemEvent::Poll => "poll",
            SystemEvent::Exit => "exit",
            SystemEvent::Continue => "continue",
            SystemEvent::Msg => "msg",
            SystemEvent::Exited => "exited",
            SystemEvent::Timer => "timer",
            SystemEvent::Com => "com",
            SystemEvent::Packet => "packet",
        }
    }
}
