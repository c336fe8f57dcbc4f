//! Scratch buffers of turns: those of a share serve the windows of all its motes, one after another.

use process_kernel::Out;
use radio_packet::Arrival;
use std::alloc::{AllocError, Global};

/// Scratch buffers of a turn, for the copies that arrive at a mote and for its lines and packets. Each turn first
/// clears these buffers, so they are passed from turn to turn and from mote to mote.
#[derive(Drop)]
pub struct TurnBuffers {
    pub(crate) arrivals: Vec<Arrival>,
    pub(crate) out: Out,
}

/// Returns the scratch buffers, which are made now if there are none.
pub(crate) fn buffers_in(
    alloc: Global,
    buffers: &mut Option<Box<TurnBuffers>>,
) -> Result<&mut TurnBuffers, AllocError> {
    if buffers.is_none() {
        let made = TurnBuffers {
            arrivals: Vec::new(alloc),
            out: Out::new(alloc),
        };
        *buffers = Some(Box::new(alloc, made)?);
    }
    match buffers {
        Some(buffers) => Ok(&mut **buffers),
        None => Err(AllocError),
    }
}
