//! The first pending event of all workers, at which the next window begins.

ghost use Rattle.std.specs.Prelude.{◌≡◌};
ghost use Rattle.worker_window.specs.Next.{TellsNext};
ghost use Rattle.window_workers.specs.JoinedNext.{IsNextOfAll, FirstOfAll};

use crate::group::WorkerGroup;
use crate::joins::worker::sooner;
use crate::worker::Worker;
use worker_window::Share;

/// Calls `Share::next`. It is a separate function so that the proof of the loop in `next_of_all` uses only this one
/// clause.
fn next_of(share: &Share) -> Option<u64>
    ensures tells_next { TellsNext share.now result }
{
    share.next()
}

/// Returns the `first_out` of a worker. It is a separate function so that the proof of the loop in `first_of_all` uses
/// only this one clause.
fn first_out_of(worker: &Worker) -> Option<u64>
    ensures value { result ≡ worker.now.first_out }
{
    worker.first_out
}

/// Returns the earliest moment of arrival among the copies that these workers delivered.
pub fn first_of_all(workers: &[Worker]) -> Option<u64>
    ensures first_of_all { FirstOfAll workers.now result }
{
    let mut first = None;
    for worker in workers {
        first = sooner(first_out_of(worker), first);
    }
    first
}

/// Returns the moment of the first pending event in these shares or in the inboxes, if there is one.
fn next_of_all(first_out: Option<u64>, shares: &[Share]) -> Option<u64>
    ensures is_next_of_all { IsNextOfAll first_out shares.now result }
{
    let mut next = first_out;
    for share in shares {
        next = sooner(next_of(share), next);
    }
    next
}

/// Returns the moment of the first pending event in the shares or in the inboxes, if there is one.
pub fn next_moment(group: &WorkerGroup) -> Option<u64>
    ensures is_next_of_all { IsNextOfAll group.now.first_out group.now.shares.items result }
{
    next_of_all(group.first_out, &group.shares)
}
