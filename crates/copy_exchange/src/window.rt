//! The steps before a window, and those after it.

ghost use Rattle.std.specs.Prelude.{◌≡◌, ◌≤◌, ◌^◌, true, length, map, IfOk, IfSome, OnOk};
ghost use Rattle.std.specs.List.{AllByRecursion as Each, AllZip, range_with_len};
ghost use Rattle.copy_exchange.specs.Endpoints.{IsOnInboxes, Together, StartsAs, HasMarks, HasPushedNothing};
ghost use Rattle.copy_exchange.specs.Endpoints.{AllReturn};
ghost use Rattle.copy_exchange.specs.Endpoints.{GathersDelivered};
ghost use Rattle.copy_exchange.specs.Inboxes.{HasNoMarks, Settled};
ghost use Rattle.copy_exchange.specs.Steps.{AreTakersOf, Opens, opened_taker, opened_sender, AreSendersOn};
ghost use Rattle.copy_exchange.specs.Steps.{gather_into, GathersRow, GathersBack, AgreesWithSender};

use crate::endpoint::Endpoint;
use copy_inbox::{Inbox, InboxError, Sender, Taker};
use std::alloc::{AllocError, Global};
use std::sync::Wait;

/// Makes an endpoint for each worker before a window, with a new sender on the inbox of each other worker.
///
/// # Errors
/// `Memory` if an allocation fails.
pub fn endpoints(
    alloc: Global,
    inboxes: &[Inbox],
    takers: Vec<Taker>,
) -> Result<Vec<Endpoint>, InboxError>
    requires inboxes_bounded { length inboxes.now ≤ 2 ^ 16 }
    requires settled { Settled inboxes.now takers.items }
    ensures together { IfOk result (λ endpoints. Together inboxes.now endpoints.items) }
    ensures starts { IfOk result (λ endpoints. AllZip StartsAs takers.items endpoints.items) }
    ensures nothing { IfOk result (λ endpoints. Each HasPushedNothing endpoints.items) }
    ensures marked { IfOk result
        (λ endpoints. Each (λ taker. taker.state.marked ≡ true) takers.items → Each HasMarks endpoints.items) }
{
    let mut takers = takers;
    let mut rows = Vec::with_capacity(alloc, inboxes.len())?;
    for worker in 0..inboxes.len() {
        rows.push_reserved(senders_of(alloc, inboxes, &mut takers, worker)?);
    }
    let mut endpoints = Vec::with_capacity(alloc, inboxes.len())?;
    for (taker, senders) in takers.into_iter().zip(rows) {
        let endpoint = Endpoint {
            worker: endpoints.len() as u16,
            taker,
            senders,
        };
        let Ok(()) = endpoints.push(endpoint) else {
            return Err(InboxError::Memory);
        };
    }
    Ok(endpoints)
}

// Makes the senders of one worker, one on the inbox of each other worker.
fn senders_of(
    alloc: Global,
    inboxes: &[Inbox],
    takers: &mut Vec<Taker>,
    worker: usize,
) -> Result<Vec<Option<Sender>>, InboxError>
    requires are_takers_of { AreTakersOf inboxes.now takers.old.items }
    ensures opens { IfOk result (λ senders. Opens worker takers.old.items takers.new.items senders.items) }
{
    let mut senders = Vec::with_capacity(alloc, inboxes.len())?;
    for other in 0..inboxes.len() {
        let sender = sender_on(&inboxes[other], &mut takers[other], other == worker)?;
        senders.push_reserved(sender);
    }
    Ok(senders)
}

// Makes a sender on an inbox, or `None` for the worker's own inbox.
fn sender_on(inbox: &Inbox, taker: &mut Taker, own: bool) -> Result<Option<Sender>, InboxError>
    requires of_inbox { taker.old.inbox ≡ inbox.now }
    ensures sender { IfOk result (λ sender. sender ≡ opened_sender own taker.old) }
    ensures taker { OnOk result (taker.new ≡ opened_taker own taker.old) }
{
    if own {
        return Ok(None);
    }
    let sender = inbox.sender(taker)?;
    Ok(Some(sender))
}

/// Ends a window by calling [`gather_back`]. The contract here is about the copies delivered to each worker. The
/// inboxes have no marks.
///
/// # Errors
/// `Memory` if an allocation fails.
pub fn gather_window<R: Wait>(
    rt: &R,
    alloc: Global,
    inboxes: &[Inbox],
    endpoints: Vec<Endpoint>,
) -> Result<Vec<Taker>, InboxError>
    requires all_return { AllReturn inboxes.now endpoints.items }
    ensures settled { IfOk result (λ takers. Settled inboxes.now takers.items) }
    ensures plain { IfOk result (λ takers. Each HasNoMarks takers.items) }
    ensures gathers { IfOk result (λ takers. AllZip (GathersDelivered endpoints.items) endpoints.items takers.items) }
{
    gather_back(rt, alloc, inboxes, endpoints)
}

/// Gathers the senders on each inbox after the workers have run. Each worker's taker gathers the senders on the
/// worker's inbox one after another, in the order of the workers.
///
/// # Errors
/// `Memory` if an allocation fails.
pub fn gather_back<R: Wait>(
    rt: &R,
    alloc: Global,
    inboxes: &[Inbox],
    endpoints: Vec<Endpoint>,
) -> Result<Vec<Taker>, InboxError>
    requires workers { map (λ endpoint. endpoint.worker) endpoints.items ≡ range_with_len 0 (length inboxes.now) }
    requires on_inboxes { Each (IsOnInboxes inboxes.now) endpoints.items }
    ensures gathers_back { IfOk result (λ takers. GathersBack endpoints.items takers.items) }
{
    let (mut takers, rows) = split_endpoints(alloc, endpoints)?;
    for senders in rows {
        gather_all(rt, inboxes, &mut takers, senders);
    }
    Ok(takers)
}

/// The senders of all workers; each worker's senders are a row.
type Rows = Vec<Vec<Option<Sender>>>;

// Separates the takers of the endpoints from their senders.
fn split_endpoints(
    alloc: Global,
    endpoints: Vec<Endpoint>,
) -> Result<(Vec<Taker>, Rows), AllocError>
    ensures takers { IfOk result (λ r. r.0.items ≡ map (λ endpoint. endpoint.taker) endpoints.items) }
    ensures rows { IfOk result (λ r. r.1.items ≡ map (λ endpoint. endpoint.senders) endpoints.items) }
{
    let mut takers = Vec::with_capacity(alloc, endpoints.len())?;
    let mut rows = Vec::with_capacity(alloc, endpoints.len())?;
    for endpoint in endpoints {
        let (taker, senders) = endpoint.into_parts();
        takers.push(taker)?;
        rows.push(senders)?;
    }
    Ok((takers, rows))
}

// Gathers one worker's senders. The taker of each inbox gathers the sender on it.
fn gather_all<R: Wait>(
    rt: &R,
    inboxes: &[Inbox],
    takers: &mut Vec<Taker>,
    senders: Vec<Option<Sender>>,
)
    requires takers { AreTakersOf inboxes.now takers.old.items }
    requires senders { AreSendersOn inboxes.now senders.items }
    ensures gathers_row { GathersRow takers.old.items takers.new.items senders.items }
{
    for (place, sender) in senders.into_iter().enumerate() {
        gather_one(rt, &inboxes[place], &mut takers[place], sender);
    }
}

// Gathers a sender, if there is one.
fn gather_one<R: Wait>(rt: &R, inbox: &Inbox, taker: &mut Taker, sender: Option<Sender>)
    requires taker { taker.old.inbox ≡ inbox.now }
    requires sender { IfSome sender (λ s. s.inbox ≡ inbox.now) }
    ensures gathered { taker.new ≡ gather_into taker.old sender }
    ensures matches { IfSome sender (λ s. AgreesWithSender taker.old.state s.state) }
{
    if let Some(sender) = sender {
        inbox.gather(rt, taker, sender);
    }
}
