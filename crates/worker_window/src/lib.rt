//! Windows of time. For one mote, the crate defines the relation between the mote before a window and after it, if the
//! mote runs by itself up to a bound; the state of such a window; and a future that runs one turn of the window at
//! each poll. For one worker of a net, it defines the worker's data, the worker's future over the windows of its
//! motes, and the worker's run through one window.
#![tactic(auto)]

mod events;
mod gate;
pub mod laws;
mod mote_window;
mod out;
mod own;
mod share;
mod turn_buffers;
mod window;
mod worker;

pub use gate::{Gate, NoGate};
pub use mote_window::MoteWindow;
pub use out::WindowOut;
pub use own::OwnWindow;
pub use share::{EndedShare, Share};
pub use turn_buffers::TurnBuffers;
pub use worker::{ShareWindow, run_motes};
