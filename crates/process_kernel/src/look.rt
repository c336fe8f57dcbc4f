//! The view of the kernel that a protothread gets.

ghost use Rattle.std.specs.Prelude.{◌≡◌, ◌<◌, ◌≤◌, slice_set, ◌↔◌, ◌%◌, ◌^◌, IsTrue, length};

use crate::process::ProcessState;
use crate::table::{is_alive, state_at};
use mote_timers::Timers;
use protothread::{Look, Semaphore};

/// A protothread's view: the moment, the mote's number, the timers, the states of the processes and the semaphores.
#[derive(Drop)]
pub struct KernelView {
    pub(crate) moment: u64,
    pub(crate) mote: u16,
    pub(crate) timer_count: u16,
    pub(crate) timers: Timers,
    pub(crate) states: Vec<ProcessState>,
    pub(crate) semaphores: Vec<Semaphore>,
    ghost each_timer: { length timers.timers ≡ timer_count },
}

impl KernelView {
    pub(crate) fn set_state(&mut self, place: usize, state: ProcessState)
        requires in_range { place < length self.old.states.items }
        ensures states { self.new.states.items ≡ slice_set self.old.states.items place state }
        ensures kernel { (self.new.moment ≡ self.old.moment) × (self.new.mote ≡ self.old.mote) }
        ensures timers { (self.new.timers ≡ self.old.timers) × (self.new.timer_count ≡ self.old.timer_count) }
        ensures semaphores { self.new.semaphores ≡ self.old.semaphores }
    {
        self.states[place] = state;
    }
}

impl Look for KernelView {
    ghost use Rattle.process_kernel.specs.Views.{looks_of_view};

    ghost looks = { looks_of_view };

    fn now(&self) -> u16 {
        (self.moment % 65_536) as u16
    }

    fn mote(&self) -> u16 {
        self.mote
    }

    fn expired(&self, timer: u16) -> bool {
        if timer < self.timer_count {
            self.timers.expired(timer)
        } else {
            false
        }
    }

    fn running(&self, process: u8) -> bool {
        is_alive(state_at(&self.states, usize::from(process) + 3))
    }

    fn count(&self, semaphore: u8) -> u16 {
        match self.semaphores.get(usize::from(semaphore)) {
            Some(semaphore) => semaphore.count(),
            None => 0,
        }
    }
}
