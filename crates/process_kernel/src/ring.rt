//! The receive ring.

ghost use Rattle.std.specs.Prelude.{◌≡◌, ◌↔◌, ◌<◌, ◌++◌, [], ◌∷◌, drop, length, slice_get, IsOk, IfOk, IfErr, OnOk};
ghost use Rattle.circular_buffer.specs.Buffer.{buffer};

use circular_buffer::HeapCircularBuffer;
use radio_packet::Arrival;
use std::alloc::{AllocError, Global};
use std::marker::Model;

/// The number of packets for which the ring has room.
const ROOM: usize = 8;

/// The packets that a mote has received and that its radio process hasn't handed on yet, the oldest first. `new`
/// allocates all memory of the ring.
#[derive(Drop)]
pub struct Ring {
    packets: HeapCircularBuffer<Arrival>,
}

impl Model for Ring {
    ghost use Rattle.circular_buffer.specs.Buffer.{Buffer};
    ghost use Rattle.radio_packet.specs.declared.arrival.Arrival.{Arrival};

    ghost Value = { Buffer Arrival };

    ghost view = { λ r. r.packets };
}

impl Ring {
    /// Makes an empty ring with room for 8 packets.
    ///
    /// # Errors
    ///
    /// Out of memory.
    pub fn new(alloc: Global) -> Result<Ring, AllocError>
        ensures empty { IfOk result (λ ring. ring ≡ buffer [] 8) }
    {
        Ok(Ring {
            packets: HeapCircularBuffer::with_capacity(alloc, ROOM)?,
        })
    }

    /// Appends a packet to the ring.
    ///
    /// # Errors
    ///
    /// If the ring is full, it is unchanged, and the packet is returned.
    pub fn try_put(&mut self, packet: Arrival) -> Result<(), Arrival>
        ensures variant { IsOk result ↔ (length self.old.items < self.old.capacity) }
        ensures ok { OnOk result (self.new ≡ buffer (self.old.items ++ packet ∷ []) self.old.capacity) }
        ensures err { IfErr result (λ it. (it ≡ packet) × (self.new ≡ self.old)) }
    {
        self.packets.try_push_back(packet)
    }

    /// Removes the oldest packet, if there is one. The only packet of a ring is removed from the back, so a ring that
    /// holds at most one packet at a time always uses the same slot.
    pub fn take(&mut self) -> Option<Arrival>
        ensures value { result ≡ slice_get self.old.items 0 }
        ensures after { self.new ≡ buffer (drop 1 self.old.items) self.old.capacity }
    {
        if self.packets.len() == 1 {
            self.packets.pop_back()
        } else {
            self.packets.pop_front()
        }
    }
}
