//! The answer of a thread that is advanced.
use crate::answer::PtState;
use program_tree::{Proc, Target};

/// An operation, with evaluated operands, that the caller performs for the thread.
#[derive(Clone, Copy, Debug, PartialEq, Eq)]
pub enum Op {
    /// Posts an event with this number and this word. The caller then calls `answer`.
    Post(Target, u8, u16),
    /// Calls a process at once, with an event of this number and this word.
    Synch(Proc, u8, u16),
    /// Requests a poll of a process.
    Poll(Proc),
    /// Starts a process.
    Start(Proc),
    /// Makes a process exit.
    Kill(Proc),
    /// Sets a timer to this interval.
    Set(u16, u16),
    /// Sets a timer again with its interval, from its expiration, which may be past or still to come.
    Reset(u16),
    /// Sets a timer again with its interval, from now.
    RestartTimer(u16),
    /// Stops a timer.
    Stop(u16),
    /// Sends a packet with this value.
    Send(u16),
    /// Prints a value.
    Print(u16),
    /// Subtracts one from the count of a semaphore, which is above 0.
    Take(u8),
    /// Adds one to the count of a semaphore.
    Signal(u8),
}

/// The answer of a thread that is advanced.
#[derive(Clone, Copy, Debug, PartialEq, Eq)]
pub enum Step {
    /// An operation. After it, the caller advances the thread again with the same event.
    Op(Op),
    /// The thread gave up control.
    Done(PtState),
    /// The thread needed a unit of work when none was left. It has run away for good.
    Runaway,
}
