//! A protothread's view of its mote.
ghost use Rattle.std.specs.Prelude.{◌≡◌, ◌%◌, ◌^◌, ◌↔◌, IsTrue, Contains, slice_index};
ghost use Rattle.protothread.specs.Looks.{Looks};

/// A protothread's view of its mote. All five functions answer for one fixed state of the kernel, the record `looks`.
pub trait Look {
    ghost looks: { Self → Looks };

    /// The current moment, modulo 65,536.
    fn now(&self) -> u16
        ensures value { result ≡ (looks self.now).moment % 2 ^ 16 };

    /// The number of the mote.
    fn mote(&self) -> u16
        ensures value { result ≡ (looks self.now).mote };

    /// Returns whether a timer has expired, which means that nobody owns it.
    fn expired(&self, timer: u16) -> bool
        ensures decides { IsTrue result ↔ Contains (looks self.now).expired timer };

    /// Returns whether a process is running or called.
    fn running(&self, process: u8) -> bool
        ensures decides { IsTrue result ↔ Contains (looks self.now).running process };

    /// The count of a semaphore.
    fn count(&self, semaphore: u8) -> u16
        ensures value { result ≡ slice_index (looks self.now).counts semaphore };
}
