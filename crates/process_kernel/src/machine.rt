//! The state of a kernel, and the reasons for which its run stops.

ghost use Rattle.std.specs.Prelude.{◌≡◌, ◌≤◌, ◌^◌, true, length};
ghost use Rattle.process_kernel.specs.ProcessList.{AreMembers, numbered_from};
ghost use Rattle.std.proofs.Props.{props};

use crate::look::KernelView;
use crate::process::Member;
use crate::ring::Ring;
use event_queue::EventQueue;
use mote_timers::Callbacks;
use protothread::{Fuel, Thread, Vars};
use std::alloc::{AllocError, AllocFailed};
use trace_lines::Out;

/// The greatest number of processes that a mote can have: 64 of its program, and the three system processes.
pub const MOST_PROCESSES: usize = 67;

/// The reason for which a run stops.
#[derive(Clone, Copy)]
pub enum Stop {
    /// The mote has halted.
    Halted,
    /// Out of memory: an allocation failed, such as that of a line, a packet or a thread.
    Memory,
}

impl From<AllocError> for Stop {
    ghost use Rattle.process_kernel.specs.declared.machine.Stop.TheVariants.{Memory};

    ghost from_gives = { λ _ e. e ≡ Memory };

    fn from(_error: AllocError) -> Self {
        Stop::Memory
    }
}

impl<T: Drop> From<AllocFailed<T>> for Stop {
    ghost use Rattle.process_kernel.specs.declared.machine.Stop.TheVariants.{Memory};

    ghost from_gives = { λ _ e. e ≡ Memory };

    fn from(_error: AllocFailed<T>) -> Self {
        Stop::Memory
    }
}

/// The kernel of a mote. The tables have the system processes first, and then the processes of the program in their
/// order; threads and variables are only those of the program's processes. A thread that isn't in its table counts as
/// fresh: a thread is taken out while it runs, and is allocated at the first call of its process. If `is_numbered` is
/// true, the incarnations on the process list are numbered from 0 on, so the list hasn't changed since the boot or run
/// began. If it is false, `first_list` is the list at that time. `needs_poll` records for each process whether it
/// needs a poll (Contiki's `needspoll`). The fields that a run uses are next to each other, so that a run needs few
/// cache lines.
#[derive(Drop)]
pub struct Machine {
    pub(crate) view: KernelView,
    pub(crate) members: Vec<Member>,
    pub(crate) started: u32,
    pub(crate) is_numbered: bool,
    pub(crate) poll_requested: bool,
    pub(crate) fuel: Fuel,
    pub(crate) needs_poll: Vec<bool>,
    pub(crate) threads: Vec<Option<Box<Thread>>>,
    pub(crate) variables: Vec<Vars>,
    pub(crate) queue: EventQueue,
    pub(crate) ring: Ring,
    pub(crate) sent: u64,
    pub(crate) out: Out,
    pub(crate) callbacks: Callbacks,
    pub(crate) exiting: Vec<bool>,
    pub(crate) first_list: Vec<Member>,
    ghost numbered: { is_numbered ≡ true → members.items ≡ numbered_from 0 members.items } by { Prim.hlevel props },
    ghost few_processes: { length view.states.items ≤ 67 },
    ghost few_members: { length members.items ≤ 67 },
    ghost are_members: { AreMembers members.items (length view.states.items) },
    ghost short_queue: { queue.capacity ≤ 128 },
    ghost room_for_callbacks: { callbacks.limit ≡ view.timer_count },
    ghost ring_room: { ring.capacity ≡ 8 },
    ghost early: { view.moment ≤ 2 ^ 40 },
}
