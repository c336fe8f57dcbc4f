//! The number of marks that have arrived from each sender.

ghost use Rattle.std.specs.Prelude.{◌≡◌, ℕ, ◌+◌, ◌<◌, ◌≤◌, ◌^◌, ◌↔◌, length, slice_index_or, slice_set, IfOk, IsTrue};
ghost use Rattle.copy_exchange.specs.Marks.{AllPast, AreNone};

use std::alloc::{AllocError, Global};

/// Returns a count of 0 for each sender.
///
/// # Errors
/// `AllocError` if an allocation fails.
pub fn no_marks(alloc: Global, senders: usize) -> Result<Vec<u64>, AllocError>
    ensures count { IfOk result (λ marks. length marks.items ≡ senders) }
    ensures none { IfOk result (λ marks. AreNone marks.items) }
{
    let mut marks = Vec::with_capacity(alloc, senders)?;
    for _ in 0..senders {
        marks.push_reserved(0);
    }
    Ok(marks)
}

/// Returns whether the mark of the window numbered `window`, counted from 0, has arrived from each sender: that is,
/// whether more than `window` marks have arrived from each sender.
pub fn all_past(marks: &[u64], window: u64) -> bool
    ensures decides { IsTrue result ↔ AllPast window marks.now }
{
    for sender in 0..marks.len() {
        if marks[sender] <= window {
            return false;
        }
    }
    true
}

/// Returns the sum of all senders' marks, plus one more mark for each sender whose mark of the window is missing.
pub fn marks_wanted(marks: &[u64], window: u64) -> u64 {
    let mut wanted: u64 = 0;
    for count in marks {
        wanted = wanted.wrapping_add(*count);
        if *count <= window {
            wanted = wanted.wrapping_add(1);
        }
    }
    wanted
}
