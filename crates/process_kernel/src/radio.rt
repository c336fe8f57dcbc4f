//! The radio process.

ghost use Rattle.std.specs.Prelude.{◌≡◌, ◌++◌, [], ◌∷◌, if◌then◌else◌, drop, nat_lt, length, slice_get, OnOk};
ghost use Rattle.program_tree.specs.Code.{Tree};
ghost use Rattle.program_tree.specs.Program.{tree_of};
ghost use Rattle.process_kernel.specs.Radio.{packet_of, hand_to, empty_ring, radio_process};
ghost use Rattle.process_kernel.specs.Views.{kernel_state_of, StepMatches, Grows, Continues};

use crate::event::is_event;
use crate::machine::{Machine, Stop};
use program_tree::{Event, Proc, Program, SystemEvent, Target};
use radio_packet::Arrival;
use trace_lines::What;

/// A packet as an event: its value, and the mote that sent it.
fn packet_event(packet: &Arrival) -> Event
    ensures value { result ≡ packet_of packet.now }
{
    Event {
        number: SystemEvent::Packet.number(),
        word: packet.value,
        sender: packet.sender,
    }
}

impl Machine {
    /// Appends a packet to the receive ring. Returns `true` if the ring had room; a full ring is unchanged.
    pub fn accept_packet(&mut self, packet: Arrival) -> bool
        ensures room { result ≡ nat_lt (length self.old.ring.items) 8 }
        ensures after { (t : Tree) → kernel_state_of t self.new
            ≡ (if result then record
            (kernel_state_of t self.old) { ring = self.old.ring.items ++ packet ∷ [] } else kernel_state_of t
            self.old) }
    {
        match self.ring.try_put(packet) {
            Ok(()) => true,
            Err(_) => false,
        }
    }

    /// Removes the oldest packet from the ring.
    fn take_packet(&mut self) -> Option<Arrival>
        ensures value { result ≡ slice_get self.old.ring.items 0 }
        ensures after { (t : Tree) → kernel_state_of t self.new
            ≡ record (kernel_state_of t self.old) { ring = drop 1 self.old.ring.items } }
        ensures ring { self.new.ring.items ≡ drop 1 self.old.ring.items }
        ensures continues { Continues self.old self.new }
        ensures grows { Grows self.old.out self.new.out }
    {
        self.ring.take()
    }

    /// Posts a packet to the receiver. If there is no receiver, nobody hears the packet.
    #[tactic(auto, unfolding(crate::specs::Radio::hand_to))]
    fn hand_to(&mut self, receiver: Option<u8>, packet: &Arrival) -> Result<(), Stop>
        ensures exact { (t : Tree) → StepMatches result (kernel_state_of t self.new)
            (hand_to receiver (kernel_state_of t self.old) packet.now) }
        ensures continues { OnOk result (Continues self.old self.new) }
        ensures ring { OnOk result (self.new.ring ≡ self.old.ring) }
        ensures grows { Grows self.old.out self.new.out }
    {
        match receiver {
            Some(process) => {
                self.post(Target::One(Proc::Own(process)), packet_event(packet))?;
                Ok(())
            }
            None => self.write(What::Deaf(packet.sender, packet.number)),
        }
    }

    /// Removes the packets from the ring, the oldest first, and posts each of them.
    fn empty_ring(&mut self, receiver: Option<u8>) -> Result<(), Stop>
        ensures exact { (t : Tree) → StepMatches result (kernel_state_of t self.new)
            (empty_ring receiver self.old.ring.items (kernel_state_of t self.old)) }
        ensures continues { OnOk result (Continues self.old self.new) }
        ensures grows { Grows self.old.out self.new.out }
    {
        while let Some(packet) = self.take_packet() {
            self.hand_to(receiver, &packet)?;
        }
        Ok(())
    }

    /// Lets the radio process react to an event.
    ///
    /// # Errors
    /// `Halted` if the mote halts meanwhile; `Memory` if an allocation fails.
    #[tactic(auto, unfolding(crate::specs::Radio::radio_process))]
    pub fn react_as_radio(&mut self, program: &Program, event: &Event) -> Result<(), Stop>
        ensures exact { StepMatches result (kernel_state_of (tree_of program.now) self.new)
            (radio_process (kernel_state_of (tree_of program.now) self.old) event.now) }
        ensures continues { OnOk result (Continues self.old self.new) }
        ensures grows { Grows self.old.out self.new.out }
    {
        if is_event(SystemEvent::Poll, event) {
            return self.empty_ring(program.receiver());
        }
        Ok(())
    }
}
