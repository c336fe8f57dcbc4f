//! A hook in the turns of workers, for tests and measurements.

/// A hook that is called from inside the workers.
pub trait Gate {
    /// Called once inside each turn: after the copies for the turn were collected, and before the mote takes them. Its
    /// arguments are the worker, the turn's moment and the mote.
    fn inside(&self, worker: u16, moment: u64, mote: u16);

    /// Returns whether a worker's thread may start. It is called before each start; `false` counts as a failed start.
    fn start(&self, _worker: u16) -> bool {
        true
    }
}

/// A gate that does nothing.
#[derive(Clone, Copy, Debug)]
pub struct NoGate;

impl Gate for NoGate {
    fn inside(&self, _worker: u16, _moment: u64, _mote: u16) {}
}
