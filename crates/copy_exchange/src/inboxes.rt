//! The inboxes of all workers, before the first window and after the last.

ghost use Rattle.std.specs.Prelude.{◌≡◌, ◌+◌, length, map, IfOk};
ghost use Rattle.std.specs.List.{AllByRecursion as Each, zip};
ghost use Rattle.copy_exchange.specs.Takers.{taken_by, gathered_by};
ghost use Rattle.copy_exchange.specs.Inboxes.{IsFresh, IsSettled};

use copy_inbox::{Inbox, InboxError, Taker};
use std::alloc::{AllocError, Global};

/// Makes `count` inboxes, each with its taker, with marks or without.
///
/// # Errors
/// `Memory` if an allocation fails.
pub fn make_inboxes(
    alloc: Global,
    count: usize,
    marked: bool,
) -> Result<Vec<(Inbox, Taker)>, InboxError>
    ensures count { IfOk result (λ pairs. length pairs.items ≡ count) }
    ensures fresh { IfOk result (λ pairs. Each (λ pair. IsFresh pair.0 pair.1) pairs.items) }
    ensures marked { IfOk result (λ pairs. Each (λ pair. pair.1.state.marked ≡ marked) pairs.items) }
{
    let mut pairs = Vec::with_capacity(alloc, count)?;
    for _ in 0..count {
        pairs.push_reserved(make_inbox(alloc, marked)?);
    }
    Ok(pairs)
}

// Makes an inbox and its taker, with marks or without.
fn make_inbox(alloc: Global, marked: bool) -> Result<(Inbox, Taker), InboxError>
    ensures fresh { IfOk result (λ pair. IsFresh pair.0 pair.1) }
    ensures marked { IfOk result (λ pair. pair.1.state.marked ≡ marked) }
{
    if marked {
        Inbox::make_marked(alloc)
    } else {
        Inbox::make(alloc)
    }
}

/// Separates the inboxes from their takers.
///
/// # Errors
/// `AllocError` if an allocation fails. Then the inboxes and takers are dropped.
pub fn split_pairs(
    alloc: Global,
    pairs: Vec<(Inbox, Taker)>,
) -> Result<(Vec<Inbox>, Vec<Taker>), AllocError>
    ensures inboxes { IfOk result (λ r. r.0.items ≡ map (λ pair. pair.0) pairs.items) }
    ensures takers { IfOk result (λ r. r.1.items ≡ map (λ pair. pair.1) pairs.items) }
{
    let mut inboxes = Vec::with_capacity(alloc, pairs.len())?;
    let mut takers = Vec::with_capacity(alloc, pairs.len())?;
    for (inbox, taker) in pairs {
        inboxes.push(inbox)?;
        takers.push(taker)?;
    }
    Ok((inboxes, takers))
}

/// Pairs each inbox with its taker.
///
/// # Errors
/// `AllocError` if an allocation fails. Then the inboxes and takers are dropped.
pub fn pair_inboxes(
    alloc: Global,
    inboxes: Vec<Inbox>,
    takers: Vec<Taker>,
) -> Result<Vec<(Inbox, Taker)>, AllocError>
    ensures pairs { IfOk result (λ pairs. pairs.items ≡ zip inboxes.items takers.items) }
{
    let mut pairs = Vec::with_capacity(alloc, inboxes.len())?;
    for pair in inboxes.into_iter().zip(takers) {
        pairs.push(pair)?;
    }
    Ok(pairs)
}

/// Returns, between windows, the number of copies that were delivered to a worker and that it hasn't taken yet.
pub fn known(inbox: &Inbox, taker: &Taker) -> u64
    requires is_settled { IsSettled inbox.now taker.now }
    ensures count { length (gathered_by taker.now) ≡ length (taken_by taker.now) + result }
{
    inbox.known(taker)
}
