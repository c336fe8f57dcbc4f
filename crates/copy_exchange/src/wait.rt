//! The wait of a worker for the marks of a window.

ghost use Rattle.std.specs.Prelude.{◌≡◌, true, IfErr, OnErr};
ghost use Rattle.fork_join.specs.declared.work.WorkerError.TheVariants.{Stopped};

use crate::heard::marks_wanted;
use copy_inbox::Inbox;
use fork_join::{Watch, WorkerError};
use std::sync::Wait;
use std::sync::ledger::Ledger;
use std::time::Duration;

// The bounds of the spin budget: the number of attempts in a window that find nothing before the worker sleeps.
const LEAST_LOOKS: u32 = 32;

const MOST_LOOKS: u32 = 4096;

// The longest time that a worker sleeps before it reads the flag again.
const NAP_MILLIS: u64 = 10;

/// The state of a worker that waits for its next item.
#[derive(Clone, Copy)]
pub struct Waiting {
    /// The number of attempts without an item in this window before the worker sleeps.
    looks: u32,
    /// The number of these attempts that are left.
    left: u32,
}

impl Waiting {
    /// Returns the state before the first window, in which the worker may try 4,096 times before it sleeps.
    pub fn new() -> Waiting {
        Waiting {
            looks: MOST_LOOKS,
            left: MOST_LOOKS,
        }
    }

    /// Begins the wait of a window. If some attempts were left in the previous window, this window has twice as many
    /// attempts; otherwise, it has half as many.
    pub fn begin(&mut self) {
        self.looks = if self.left > 0 {
            self.looks.saturating_mul(2).min(MOST_LOOKS)
        } else {
            (self.looks / 2).max(LEAST_LOOKS)
        };
        self.left = self.looks;
    }
}

/// Waits after an attempt that found nothing: gives up if the flag is set, and otherwise lets some time pass.
///
/// # Errors
/// `Stopped` if the flag is set. There is no other error.
pub fn wait<R: Wait, L: Ledger>(
    rt: &R,
    inbox: &Inbox,
    watch: &mut Watch<'_, L>,
    marks: &[u64],
    window: u64,
    waiting: &mut Waiting,
) -> Result<(), WorkerError>
    ensures seen { OnErr result (watch.new.seen ≡ true) }
    ensures stopped { IfErr result (λ error. error ≡ Stopped) }
{
    if watch.is_set(rt) {
        return Err(WorkerError::Stopped);
    }
    if waiting.left > 0 {
        waiting.left -= 1;
        std::hint::spin_loop();
    } else {
        let nap = Duration::from_millis(NAP_MILLIS);
        inbox.wait_for_marks(rt, marks_wanted(marks, window), nap);
    }
    Ok(())
}
