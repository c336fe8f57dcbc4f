//! A line of a trace.

use program_tree::{Proc, Target};

/// The event that a line of a trace reports.
#[derive(Clone, Copy, Debug, PartialEq, Eq)]
pub enum What {
    /// A process enters the process list.
    Start(Proc),
    /// A process leaves the process list.
    Leave(Proc),
    /// The queue accepted an event: the event's serial, target, number and word.
    Post(u64, Target, u8, u16),
    /// The queue was full and refused an event: the event's target, number and word.
    Full(Target, u8, u16),
    /// The event with this serial reaches a process.
    Take(u64, Proc),
    /// The event with this serial is dropped, because this process isn't, or is no longer, on the process list.
    Drop(u64, Proc),
    /// A process prints a value.
    Print(Proc, u16),
    /// A process couldn't be started or killed, because it was busy.
    Busy(Proc),
    /// The mote halts for good.
    Halt,
    /// The mote sends a packet with this number and value.
    Send(u64, u16),
    /// The receive ring stored a packet: the mote that sent it, the packet's number among that mote's packets, and its
    /// value.
    Recv(u16, u64, u16),
    /// The receive ring was full when a packet arrived (an overflow).
    Lost(u16, u64),
    /// A packet arrived at a mote whose program has no receiver.
    Deaf(u16, u64),
    /// A collision destroyed a packet.
    Collide(u16, u64),
    /// The mote boots again after a fault. What follows are the lines of a new life: its events have serials from 0 on.
    Boots,
}

/// A line of a trace: its moment (a tick of the simulated clock) and its event.
#[derive(Clone, Copy, Debug, PartialEq, Eq)]
pub struct Line {
    pub at: u64,
    pub what: What,
}
