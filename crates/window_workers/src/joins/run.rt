//! The run of all workers, window by window.

ghost use Rattle.std.specs.Prelude.{◌≡◌, ◌+◌, ◌≤◌, suc, true, length, IfErr, IfOk};
ghost use Rattle.fork_join.specs.Gravest.{is_own_failure};
ghost use Rattle.mote_net.specs.Limits.{latest_end};
ghost use Rattle.mote_net.specs.Meaning.{net_of};
ghost use Rattle.net_agenda.specs.NetSystem.{system_of};
ghost use Rattle.std.specs.List.{AllByRecursion as Each};
ghost use Rattle.copy_exchange.specs.Inboxes.{HasNoMarks};
ghost use Rattle.window_workers.specs.WorkerGroup.{WorkersAreAt};
ghost use Rattle.window_workers.specs.JoinedRun.{BeginsAt, GroupRunsToEnd};
ghost use Rattle.window_workers.specs.WindowLength.{HasSoundMedium, length_of_window};

use crate::group::WorkerGroup;
use crate::joins::next::next_moment;
use crate::joins::window::run_window;
use crate::windows::{lookahead_of, window_end, window_length};
use fork_join::WorkerError;
use mote_net::Net;
use std::alloc::{AllocGlobal, Global};
use std::random::RandomSource;
use std::sync::Wait;
use std::thread::Threads;
use worker_window::Gate;

/// Returns the first moment of the next window: the moment of the first pending event, or the moment after the end, if
/// nothing is pending up to the end.
fn window_start(group: &WorkerGroup, end: u64) -> u64
    requires end_bounded { end ≤ latest_end }
    ensures value { BeginsAt end group.now result }
    ensures within { result ≤ end + 1 }
{
    let after = end + 1;
    match next_moment(group) {
        Some(moment) => moment.min(after),
        None => after,
    }
}

/// Runs all workers to the end of the net, window by window. Each window begins at the moment of the first pending
/// event. Its length is the lookahead, or `longest` if that is above 0 and below the lookahead. No window goes past
/// the net's end. `owners` is the worker of each mote. The inboxes have no marks.
///
/// # Errors
/// `Memory` if an allocation fails; `Thread` if a thread couldn't be started, the gate refused a start, or the
/// executor returned an error. If several workers failed, the error is that of the worker with the lowest number, as a
/// test shows. It is never `Stopped`.
pub fn run_by_joins<R, G>(
    rt: &R,
    alloc: Global,
    net: &Net,
    owners: &[u16],
    longest: u32,
    gate: &G,
    group: WorkerGroup,
) -> Result<WorkerGroup, WorkerError>
where
    R: Threads + Wait + RandomSource + AllocGlobal + Sync,
    G: Gate + Sync,
    requires inboxes_bounded { length group.inboxes.items ≤ 16 }
    requires at_moment { WorkersAreAt (net_of net.now) owners.now 0 group }
    requires plain { Each HasNoMarks group.takers.items }
    ensures at_moment { let model = net_of net.now in IfOk result (λ done. WorkersAreAt model owners.now (suc model.end) done) }
    ensures inboxes { IfOk result (λ done. done.inboxes.items ≡ group.inboxes.items) }
    ensures windows { let model = net_of net.now in
        IfOk result (GroupRunsToEnd model owners.now (length_of_window (system_of model).lookahead longest) group) }
    ensures failed { IfErr result (λ e. is_own_failure e ≡ true) }
    ensures sound { HasSoundMedium (net_of net.now) }
{
    let end = net.end();
    let width = window_length(lookahead_of(net), longest);
    let mut group = group;
    let mut from = window_start(&group, end);
    'windows: while from <= end {
        let until = window_end(from, width, end);
        group = run_window(rt, alloc, net, owners, until, gate, group)?;
        from = window_start(&group, end);
    }
    Ok(group)
}
