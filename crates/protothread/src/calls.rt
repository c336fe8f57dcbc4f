//! The threads that a thread has spawned, nested in one another.
ghost use Rattle.std.specs.Prelude.{◌≡◌, ◌+◌, ◌<◌, [], ◌∷◌, ◌++◌, length, IfNone, OnSome, IsSome, ◌↔◌, option_to_list};
ghost use Rattle.protothread.specs.Calls.{CanSpawn, IsLast};

use arrayvec::ArrayVec;
use std::marker::Model;

/// The room for nested spawned threads. A part may spawn a thread with any number, and a thread may spawn only threads
/// with numbers below 7 and below its own. So at most 8 threads are nested, and at most 7 if the process has only 7.
const DEPTH: usize = 8;

/// A spawned thread, and the place from which its spawner continues after the spawn.
#[derive(Clone, Copy, Default)]
pub(crate) struct Call {
    pub(crate) thread: u8,
    pub(crate) next: u16,
}

/// The threads that a thread has spawned, from the outermost to the innermost.
#[derive(Drop)]
pub(crate) struct Calls {
    calls: ArrayVec<Call, DEPTH>,
}

impl Model for Calls {
    ghost use Rattle.std.specs.Prelude.{List};
    ghost use Rattle.protothread.specs.declared.calls.Call.{Call};
    ghost use Rattle.protothread.specs.Calls.{AreNested};

    ghost Value = { List Call };

    ghost view = { λ c. c.calls.items };

    ghost invariant = { λ c. AreNested c.calls.items };
}

impl Calls {
    /// An empty list of threads.
    pub(crate) fn new() -> Calls
        ensures empty { result ≡ [] }
    {
        Calls {
            calls: ArrayVec::new(),
        }
    }

    /// The number of spawned threads.
    pub(crate) fn len(&self) -> usize
        ensures length { result ≡ length self.now }
    {
        self.calls.len()
    }

    /// The innermost thread, if any thread is spawned.
    pub(crate) fn last(&self) -> Option<Call>
        ensures is_last { IsLast self.now result }
    {
        self.calls.as_slice().last().copied()
    }

    /// Adds a thread that the innermost thread spawns.
    pub(crate) fn push(&mut self, call: Call)
        requires can_spawn { CanSpawn self.old call.thread }
        ensures appended { self.new ≡ self.old ++ call ∷ [] }
    {
        self.calls.push(call);
    }

    /// Removes the innermost thread, if there is one, and returns it.
    pub(crate) fn pop(&mut self) -> Option<Call>
        ensures items { self.old ≡ self.new ++ option_to_list result }
        ensures variant { IsSome result ↔ (0 < length self.old) }
        ensures len { OnSome result (length self.new + 1 ≡ length self.old) }
        ensures empty { IfNone result (self.new ≡ self.old) }
    {
        self.calls.pop()
    }
}
