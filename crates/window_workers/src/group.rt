//! All workers between two windows, and before the first window.

ghost use Rattle.std.specs.Prelude.{◌≡◌, ◌≤◌, length, IfOk, IfErr};
ghost use Rattle.std.specs.List.{AllZip};
ghost use Rattle.fork_join.specs.declared.work.WorkerError.TheVariants.{Memory};
ghost use Rattle.mote_net.specs.Meaning.{net_of};
ghost use Rattle.copy_exchange.specs.Inboxes.{IsFresh};
ghost use Rattle.window_workers.specs.Start.{AreFirst};
ghost use Rattle.window_workers.specs.WorkerGroup.{WorkersAreAt, IsCut};

use copy_inbox::{Inbox, Taker};
use fork_join::WorkerError;
use mote_net::Net;
use std::alloc::Global;
use worker_window::Share;

/// The workers of a net: their shares, their inboxes with the takers, and `first_out`, a moment at or before the
/// arrivals of the copies in the inboxes.
#[derive(Drop)]
pub struct WorkerGroup {
    pub shares: Vec<Share>,
    pub inboxes: Vec<Inbox>,
    pub takers: Vec<Taker>,
    pub first_out: Option<u64>,
}

/// Makes the shares of this many workers before the motes' first turns: each mote wakes at 0.
fn first_shares(
    alloc: Global,
    net: &Net,
    owners: &[u16],
    workers: u16,
) -> Result<Vec<Share>, WorkerError>
    requires covers_motes { length owners.now ≡ length (net_of net.now).motes }
    ensures first { let model = net_of net.now in IfOk result
        (λ shares. AreFirst model owners.now workers shares.items) }
    ensures err { IfErr result (λ e. e ≡ Memory) }
{
    let mut shares = Vec::new(alloc);
    for worker in 0..workers {
        let share = Share::new(alloc, net, owners, worker)?;
        shares.push(share)?;
    }
    Ok(shares)
}

impl WorkerGroup {
    /// Makes the workers before the motes' first turns: each mote wakes at 0, and the inboxes are empty. `owners` is
    /// the worker of each mote.
    ///
    /// # Errors
    /// `Memory` if an allocation fails. There is no other error.
    pub fn new(
        alloc: Global,
        net: &Net,
        owners: &[u16],
        inboxes: Vec<Inbox>,
        takers: Vec<Taker>,
    ) -> Result<WorkerGroup, WorkerError>
        requires inboxes_bounded { length inboxes.items ≤ 16 }
        requires cut { IsCut (length (net_of net.now).motes) (length inboxes.items) owners.now }
        requires fresh { AllZip IsFresh inboxes.items takers.items }
        ensures at_moment { IfOk result (λ group. WorkersAreAt (net_of net.now) owners.now 0 group) }
        ensures first { IfOk result
            (λ group. AreFirst (net_of net.now) owners.now (length inboxes.items) group.shares.items) }
        ensures inboxes { IfOk result
            (λ group. (group.inboxes.items ≡ inboxes.items) × (group.takers.items ≡ takers.items)) }
        ensures err { IfErr result (λ e. e ≡ Memory) }
    {
        let shares = first_shares(alloc, net, owners, inboxes.len() as u16)?;
        Ok(WorkerGroup {
            shares,
            inboxes,
            takers,
            first_out: None,
        })
    }
}
