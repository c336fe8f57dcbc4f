//! The timers of a program.

/// A timer of a program: its process, and whether it is a callback timer (`ctimer.h`) or an event timer (`etimer.h`).
#[derive(Clone, Copy, Debug, PartialEq, Eq)]
pub struct Timer {
    pub process: u8,
    pub is_callback: bool,
}
