//! The count of marks. It wakes a taker that waits for marks.

use std::sync::Wait;
use std::sync::atomic::{AtomicU64, Ordering};
use std::time::Duration;

/// Counts the marks of an inbox, so that its taker can sleep until enough marks have been pushed. No contract promises
/// that the count wakes the taker: after some time, the taker also wakes by itself.
#[derive(Drop)]
pub struct MarkCount {
    /// The number of marks that were pushed.
    marks: AtomicU64,
    /// The number of marks for which the taker waits.
    wanted: AtomicU64,
}

impl MarkCount {
    /// Makes the count of an inbox into which no mark was pushed, and whose taker waits for no mark.
    pub fn new() -> MarkCount {
        MarkCount {
            marks: AtomicU64::new(0),
            wanted: AtomicU64::new(0),
        }
    }

    /// Counts a mark that was pushed, and wakes the taker if this is the last mark for which it waits.
    pub fn add(&self) {
        let marks = self.marks.fetch_add(1, Ordering::SeqCst).wrapping_add(1);
        if marks == self.wanted.load(Ordering::SeqCst) {
            self.marks.wake_one();
        }
    }

    /// Sleeps until `wanted` marks have been pushed, but at most for `longest`; it may wake sooner.
    pub fn sleep<R: Wait>(&self, rt: &R, wanted: u64, longest: Duration) {
        self.wanted.store(wanted, Ordering::SeqCst);
        let marks = self.marks.load(Ordering::SeqCst);
        if marks < wanted {
            // If a mark is pushed in the meantime, the low half of the count changes, and this call doesn't sleep.
            let low = (marks % (1 << 32)) as u32;
            self.marks.park_timeout(rt, low, longest);
        }
    }
}
