//! The processes of a mote: their states, and their incarnations on the process list.

use program_tree::Proc;

/// The state of a process (`PROCESS_STATE_NONE` and the other states of `process.c`).
#[derive(Clone, Copy)]
pub enum ProcessState {
    /// The process isn't running.
    Off,
    /// The process waits for an event.
    Running,
    /// The process was called, and its call hasn't ended yet.
    Called,
}

/// A process on the process list. A process that left and was started again has a new incarnation.
#[derive(Clone, Copy)]
pub struct Member {
    pub process: Proc,
    pub incarnation: u32,
}

impl Default for Member {
    fn default() -> Self {
        Member {
            process: Proc::Etimer,
            incarnation: 0,
        }
    }
}
