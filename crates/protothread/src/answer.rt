//! The answer of a protothread.
ghost use Rattle.std.specs.Prelude.{◌≡◌, ◌<◌, ◌↔◌, IsTrue};
ghost use Rattle.protothread.specs.State.{state_number};

/// The answer of a protothread when it gives up control, as in Contiki's `pt.h`.
#[derive(Clone, Copy, Debug, PartialEq, Eq)]
pub enum PtState {
    /// The protothread waits for a condition (`PT_WAITING`).
    Waiting,
    /// The protothread yielded the processor once (`PT_YIELDED`).
    Yielded,
    /// The protothread exited (`PT_EXITED`).
    Exited,
    /// The protothread reached the end of its block (`PT_ENDED`).
    Ended,
}

impl PtState {
    /// The number of the state in `pt.h`, 0 to 3.
    pub fn number(self) -> u8
        ensures number { result ≡ state_number self }
    {
        match self {
            PtState::Waiting => 0,
            PtState::Yielded => 1,
            PtState::Exited => 2,
            PtState::Ended => 3,
        }
    }

    /// Returns whether the caller must call the protothread again (`PT_SCHEDULE` of `pt.h`).
    pub fn scheduled(self) -> bool
        ensures decides { IsTrue result ↔ (state_number self < 2) }
    {
        self.number() < 2
    }
}
