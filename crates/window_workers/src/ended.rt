//! The results of the workers at the end, the number of copies left, and the end of the inboxes.

ghost use Rattle.std.specs.Prelude.{◌≡◌, ◌+◌, length, IfOk};
ghost use Rattle.std.specs.List.{AllByRecursion as Each, AllZip, sum_by};
ghost use Rattle.copy_exchange.specs.Takers.{taken_by, gathered_by};
ghost use Rattle.copy_exchange.specs.Inboxes.{IsSettled};
ghost use Rattle.window_workers.specs.Over.{TellsWhatItKept};

use copy_exchange::known;
use copy_inbox::{Inbox, Taker};
use std::alloc::{AllocError, Global};
use std::sync::Wait;
use worker_window::{EndedShare, Share};

/// Takes the shares of all workers apart, and returns their results.
///
/// # Errors
/// `AllocError` if an allocation fails, or if a share's number of copies is above `u64::MAX`. No memory has room for
/// so many copies.
pub fn end_all(alloc: Global, shares: Vec<Share>) -> Result<Vec<EndedShare>, AllocError>
    ensures tells_what_it_kept { IfOk result (λ all. AllZip TellsWhatItKept shares.items all.items) }
{
    let mut all = Vec::new(alloc);
    for share in shares {
        let ended = share.end()?;
        all.push(ended)?;
    }
    Ok(all)
}

/// Returns the sum of two counts of copies. If it overflows, there are more copies than any memory holds.
fn plus(one: u64, other: u64) -> Result<u64, AllocError>
    ensures sum { IfOk result (λ sum. sum ≡ one + other) }
{
    one.checked_add(other).ok_or(AllocError)
}

/// Returns the number of copies that were still on their way to the workers' motes, without those in the inboxes.
fn left_to_come(ended: &[EndedShare]) -> Result<u64, AllocError>
    ensures sum { IfOk result (λ left. left ≡ sum_by (λ one. one.left) ended.now) }
{
    let mut left = 0;
    for one in ended {
        left = plus(left, one.left)?;
    }
    Ok(left)
}

/// Returns the number of copies in the inboxes.
fn left_in_inboxes(pairs: &[(Inbox, Taker)]) -> Result<u64, AllocError>
    requires settled { Each (λ pair. IsSettled pair.0 pair.1) pairs.now }
    ensures balanced { IfOk result (λ left. sum_by (λ pair. length (gathered_by pair.1)) pairs.now
        ≡ sum_by (λ pair. length (taken_by pair.1)) pairs.now + left) }
{
    let mut left = 0;
    for (inbox, taker) in pairs {
        left = plus(left, known(inbox, taker))?;
    }
    Ok(left)
}

/// Returns the number of copies left, with the workers and in the inboxes.
///
/// # Errors
/// `AllocError` only for a number above `u64::MAX`. No memory has room for so many copies. Nothing is allocated.
pub fn left_of_all(ended: &[EndedShare], pairs: &[(Inbox, Taker)]) -> Result<u64, AllocError>
    requires settled { Each (λ pair. IsSettled pair.0 pair.1) pairs.now }
    ensures balanced { IfOk result (λ left. sum_by (λ one. one.left) ended.now
        + sum_by (λ pair. length (gathered_by pair.1)) pairs.now
        ≡ left + sum_by (λ pair. length (taken_by pair.1)) pairs.now) }
{
    plus(left_to_come(ended)?, left_in_inboxes(pairs)?)
}

/// Closes all inboxes. The copies that are left in them would arrive after the end, and are dropped.
pub fn close_all<R: Wait>(rt: &R, pairs: Vec<(Inbox, Taker)>)
    requires settled { Each (λ pair. IsSettled pair.0 pair.1) pairs.items }
{
    for (inbox, taker) in pairs {
        let _left = inbox.close(rt, taker);
    }
}
