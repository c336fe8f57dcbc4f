//! The classes of the things that names refer to.

/// The classes of things that a name can refer to.
#[derive(Clone, Copy)]
pub enum Class {
    Event,
    Semaphore,
    Process,
    Variable,
    Timer,
    Thread,
}
