//! Lines, units of work, posts, polls and packets.

ghost use Rattle.std.specs.Prelude.{◌≡◌, ◌+◌, ◌^◌, ◌++◌, ◌∷◌, [], OnOk};
ghost use Rattle.program_tree.specs.Code.{Tree};
ghost use Rattle.process_kernel.specs.State.{Goes, write_of, spend_of, halted_of};
ghost use Rattle.process_kernel.specs.Posts.{process_post, process_poll};
ghost use Rattle.process_kernel.specs.Radio.{send_of};
ghost use Rattle.process_kernel.specs.Operations.{take_of, signal_of};
ghost use Rattle.process_kernel.specs.Views.{first_list_of, kernel_state_of, StepMatches, Grows, Continues};
ghost use Rattle.process_kernel.specs.Views.{KeepsLists, OnlyAdds};

use crate::machine::{Machine, Stop};
use crate::table::is_alive;
use program_tree::{Event, Proc, Target};
use radio_packet::Sent;
use trace_lines::{Line, What};

/// The number of events that a mote accepts before it halts, and also the number of packets that it sends before it
/// halts.
const LIMIT: u64 = 1 << 62;

impl Machine {
    /// Appends a line about an event at the current moment.
    ///
    /// # Errors
    /// `Memory` if the allocation for the line fails. The error is never `Halted`.
    #[tactic(auto, unfolding(crate::specs::State::write_of, crate::specs::Views::OutBegins))]
    pub fn write(&mut self, what: What) -> Result<(), Stop>
        ensures exact { (t : Tree)
            → StepMatches result (kernel_state_of t self.new) (write_of (kernel_state_of t self.old) what) }
        ensures continues { Continues self.old self.new }
        ensures adds { OnlyAdds self.old self.new }
    {
        let at = self.view.moment;
        self.out.lines.push(Line { at, what })?;
        Ok(())
    }

    /// Writes a line about the mote's halt.
    #[inline(never)]
    #[tactic(auto, unfolding(crate::specs::State::write_of, crate::specs::State::halted_of))]
    pub fn halt(&mut self) -> Stop
        ensures exact { (t : Tree) → result ≡ Stop.Halted
            → kernel_state_of t self.new ≡ halted_of (kernel_state_of t self.old) }
        ensures grows { Grows self.old.out self.new.out }
    {
        match self.write(What::Halt) {
            Ok(()) => Stop::Halted,
            Err(stop) => stop,
        }
    }

    /// Spends a unit of work.
    ///
    /// # Errors
    /// `Halted` if no unit is left; `Memory` if the allocation for the line of the halt fails.
    #[inline(always)]
    #[tactic(auto, unfolding(crate::specs::State::spend_of))]
    pub fn spend(&mut self) -> Result<(), Stop>
        ensures exact { (t : Tree)
            → StepMatches result (kernel_state_of t self.new) (spend_of (kernel_state_of t self.old)) }
        ensures units { OnOk result ((self.new.fuel + 1 ≡ self.old.fuel)
            × (first_list_of self.new ≡ first_list_of self.old)) }
        ensures grows { Grows self.old.out self.new.out }
    {
        if !self.fuel.spend() {
            return Err(self.halt());
        }
        Ok(())
    }

    /// Posts an event. Returns `true` if the queue was full.
    ///
    /// # Errors
    /// `Halted` if the mote has accepted 2^62 events; `Memory` if the allocation for the line fails. A full queue
    /// isn't an error.
    #[inline(always)]
    #[tactic(auto, unfolding(crate::specs::Posts::process_post))]
    pub fn post(&mut self, target: Target, event: Event) -> Result<bool, Stop>
        ensures exact { (t : Tree) → StepMatches result (kernel_state_of t self.new)
            (process_post (kernel_state_of t self.old) target event) }
        ensures continues { OnOk result (Continues self.old self.new) }
        ensures lists { OnOk result (KeepsLists self.old self.new) }
        ensures grows { Grows self.old.out self.new.out }
    {
        if self.queue.accepted() >= LIMIT {
            return Err(self.halt());
        }
        match self.queue.post(target, event) {
            Ok(serial) => {
                self.write(What::Post(serial, target, event.number, event.word))?;
                Ok(false)
            }
            Err(_) => {
                self.write(What::Full(target, event.number, event.word))?;
                Ok(true)
            }
        }
    }

    /// Asks for a poll of a process if it is running or called.
    #[tactic(auto, unfolding(crate::specs::ProcessList::with_needs_poll, crate::specs::Posts::process_poll))]
    pub fn poll(&mut self, process: Proc)
        ensures exact { (t : Tree) → kernel_state_of t self.new ≡ process_poll (kernel_state_of t self.old) process }
        ensures continues { Continues self.old self.new }
        ensures adds { OnlyAdds self.old self.new }
    {
        if is_alive(self.process_state(process)) {
            self.set_needs_poll(process, true);
            self.poll_requested = true;
        }
    }

    /// Records a sent packet.
    #[tactic(auto, unfolding(crate::specs::Views::OutBegins))]
    fn put_sent(&mut self, packet: Sent) -> Result<(), Stop>
        ensures exact { (t : Tree) → StepMatches result (kernel_state_of t self.new)
            (Goes tt (record (kernel_state_of t self.old) { sends = self.old.out.sends.items ++ packet ∷ [] })) }
        ensures continues { Continues self.old self.new }
        ensures grows { Grows self.old.out self.new.out }
    {
        self.out.sends.push(packet)?;
        Ok(())
    }

    /// Sends a packet with this value at the current moment, and writes a line about it. The packets of a mote are
    /// numbered from 0.
    ///
    /// # Errors
    /// `Halted` if the mote has sent 2^62 packets; `Memory` if an allocation for the packet or for a line fails.
    #[tactic(auto, unfolding(crate::specs::Radio::send_of))]
    pub fn send(&mut self, value: u16) -> Result<(), Stop>
        ensures exact { (t : Tree)
            → StepMatches result (kernel_state_of t self.new) (send_of (kernel_state_of t self.old) value) }
        ensures continues { OnOk result (Continues self.old self.new) }
        ensures grows { Grows self.old.out self.new.out }
    {
        if self.sent >= LIMIT {
            return Err(self.halt());
        }
        let number = self.sent;
        self.put_sent(Sent {
            at: self.view.moment,
            sender: self.view.mote,
            number,
            value,
        })?;
        self.sent = number + 1;
        self.write(What::Send(number, value))
    }

    /// Subtracts one from a semaphore's count if it is above 0. If the mote has no such semaphore, nothing changes.
    #[tactic(auto, unfolding(crate::specs::Operations::take_of))]
    pub fn take_semaphore(&mut self, semaphore: u8)
        ensures exact { (t : Tree) → kernel_state_of t self.new ≡ take_of (kernel_state_of t self.old) semaphore }
        ensures continues { Continues self.old self.new }
        ensures grows { Grows self.old.out self.new.out }
    {
        let place = usize::from(semaphore);
        if place < self.view.semaphores.len() {
            self.view.semaphores[place].take();
        }
    }

    /// Adds one to a semaphore's count, modulo 65,536. If the mote has no such semaphore, nothing changes.
    #[tactic(auto, unfolding(crate::specs::Operations::signal_of))]
    pub fn signal_semaphore(&mut self, semaphore: u8)
        ensures exact { (t : Tree) → kernel_state_of t self.new ≡ signal_of (kernel_state_of t self.old) semaphore }
        ensures continues { Continues self.old self.new }
        ensures grows { Grows self.old.out self.new.out }
    {
        let place = usize::from(semaphore);
        if place < self.view.semaphores.len() {
            self.view.semaphores[place].signal();
        }
    }
}
