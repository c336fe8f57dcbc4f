//! The run of a net with workers: each worker has a new thread for each window, or one thread for the whole run.

ghost use Rattle.std.specs.Prelude.{◌≡◌, length, map, vec_len, All, None, IfOk, IfErr};
ghost use Rattle.std.specs.List.{AllByRecursion as Each, zip};
ghost use Rattle.kernel_laws.specs.Going.{IsInOrder};
ghost use Rattle.mote_net.specs.Meaning.{net_of};
ghost use Rattle.mote_net.specs.Net.{NetModel};
ghost use Rattle.copy_inbox.specs.Gathered.{Whole, known_of};
ghost use Rattle.copy_exchange.specs.Inboxes.{IsFresh, IsSettled};
ghost use Rattle.window_workers.specs.WorkerGroup.{WorkersAreAt};
ghost use Rattle.window_workers.specs.Start.{AreReady};
ghost use Rattle.mote_net.specs.Report.{report_of};
ghost use Rattle.window_workers.specs.Crossed.{AllCrossed};
ghost use Rattle.window_workers.specs.Fits.{cut_fault, IsAnswerTo};
ghost use Rattle.window_workers.specs.Over.{AreAtEnd};
ghost use Rattle.serial_run.specs.NetRun.{IsReportOf};
ghost use Rattle.window_workers.specs.Sync.{IsForKind};
ghost use Rattle.window_workers.specs.declared.sync.SyncKind.TheVariants.{Marks};

use crate::ended::{close_all, end_all, left_of_all};
use crate::fits::fault_of;
use crate::group::WorkerGroup;
use crate::joins::run_by_joins;
use crate::marks::run_by_marks;
use crate::medium_log::medium_log;
use crate::refusal::of_refused;
use crate::sync::SyncKind;
use crate::traces::joined_traces;
use copy_exchange::{Cut, make_inboxes, pair_inboxes, split_pairs};
use copy_inbox::{Inbox, Taker};
use mote_net::{Net, Report};
use serial_run::RunError;
use std::alloc::{AllocGlobal, Global};
use std::random::RandomSource;
use std::sync::Wait;
use std::thread::Threads;
use worker_window::Gate;

/// Makes the workers' report at the end, and returns it with their inboxes. `owners` is the worker of each mote.
fn make_report(
    alloc: Global,
    owners: &[u16],
    group: WorkerGroup,
) -> Result<(Report, Vec<(Inbox, Taker)>), RunError>
    requires at_end { (model : NetModel) × AreAtEnd model owners.now group }
    ensures report { IfOk result
        (λ r. (model : NetModel) → AreAtEnd model owners.now group → IsReportOf model (report_of r.0)) }
    ensures inboxes { IfOk result (λ r. map (λ pair. pair.0) r.1.items ≡ group.inboxes.items) }
    ensures pairs { IfOk result (λ r. r.1.items ≡ zip group.inboxes.items group.takers.items) }
    ensures settled { IfOk result (λ r. Each (λ pair. IsSettled pair.0 pair.1) r.1.items) }
    ensures crossed { IfOk result
        (λ r. (model : NetModel) → AreAtEnd model owners.now group
        → AllCrossed model owners.now (report_of r.0) r.1.items) }
    ensures err { IfErr result (IsAnswerTo None) }
{
    let WorkerGroup {
        shares,
        inboxes,
        takers,
        first_out: _,
    } = group;
    let Ok(pairs) = pair_inboxes(alloc, inboxes, takers) else {
        return Err(RunError::Memory);
    };
    let ended = end_all(alloc, shares)?;
    let left = left_of_all(&ended, &pairs)?;
    let (medium, rest) = medium_log(alloc, ended)?;
    let traces = joined_traces(alloc, owners, rest)?;
    let report = Report {
        traces,
        medium,
        left,
    };
    Ok((report, pairs))
}

/// Runs all windows with this kind of synchronisation between the workers.
fn run_by_kind<R, G>(
    rt: &R,
    alloc: Global,
    net: &Net,
    owners: &[u16],
    longest: u32,
    sync: SyncKind,
    gate: &G,
    group: WorkerGroup,
) -> Result<WorkerGroup, RunError>
where
    R: Threads + Wait + RandomSource + AllocGlobal + Sync,
    G: Gate + Sync,
    requires ready { AreReady (net_of net.now) owners.now group }
    requires at_moment { WorkersAreAt (net_of net.now) owners.now 0 group }
    requires kind { Each (IsForKind sync) group.takers.items }
    ensures at_end { IfOk result (AreAtEnd (net_of net.now) owners.now) }
    ensures inboxes { IfOk result (λ done. done.inboxes.items ≡ group.inboxes.items) }
    ensures all_taken { IfOk result (λ done. sync ≡ Marks
        → Each (λ taker. Whole taker.state.gathered taker.state.taken) done.takers.items) }
    ensures err { IfErr result (IsAnswerTo None) }
{
    let ran = match sync {
        SyncKind::Joins => run_by_joins(rt, alloc, net, owners, longest, gate, group),
        SyncKind::Marks => run_by_marks(rt, alloc, net, owners, longest, gate, group),
    };
    match ran {
        Ok(group) => Ok(group),
        Err(refused) => Err(of_refused(refused)),
    }
}

/// Does the work of [`run_inboxes`] for a partition that fits.
fn run_fitting<R, G>(
    rt: &R,
    alloc: Global,
    net: &Net,
    cut: &Cut,
    sync: SyncKind,
    gate: &G,
    pairs: Vec<(Inbox, Taker)>,
) -> Result<(Report, Vec<(Inbox, Taker)>), RunError>
where
    R: Threads + Wait + RandomSource + AllocGlobal + Sync,
    G: Gate + Sync,
    requires fits { cut_fault (length (net_of net.now).motes) (length pairs.items) cut.now.of.items ≡ None }
    requires fresh { Each (λ pair. IsFresh pair.0 pair.1) pairs.items }
    requires kind { Each (λ pair. IsForKind sync pair.1) pairs.items }
    ensures report { IfOk result (λ r. IsReportOf (net_of net.now) (report_of r.0)) }
    ensures traces { IfOk result (λ r. (vec_len r.0.traces ≡ length (net_of net.now).motes)
        × All (λ trace. IsInOrder trace.items) r.0.traces.items) }
    ensures inboxes { IfOk result (λ r. (map (λ pair. pair.0) r.1.items ≡ map (λ pair. pair.0) pairs.items)
        × Each (λ pair. IsSettled pair.0 pair.1) r.1.items
        × (sync ≡ Marks → Each (λ pair. known_of pair.1.state.gathered pair.1.state.taken ≡ 0) r.1.items)) }
    ensures crossed { IfOk result (λ r. AllCrossed (net_of net.now) cut.now.of.items (report_of r.0) r.1.items) }
    ensures err { IfErr result (IsAnswerTo None) }
{
    let owners = cut.of.as_slice();
    let Ok((inboxes, takers)) = split_pairs(alloc, pairs) else {
        return Err(RunError::Memory);
    };
    let Ok(group) = WorkerGroup::new(alloc, net, owners, inboxes, takers) else {
        return Err(RunError::Memory);
    };
    let group = run_by_kind(rt, alloc, net, owners, cut.longest, sync, gate, group)?;
    make_report(alloc, owners, group)
}

/// Runs a net with one worker for each inbox, and returns its report. Copies from a mote of one worker to a mote of
/// another go through the inbox of the receiver's worker. The report is that of the run on one thread, for any
/// partition that fits and both kinds of synchronisation. The inboxes have marks if the workers are synchronised with
/// marks, and no marks if they are synchronised with joins. At the end, every sender is gathered.
///
/// # Errors
/// `Workers`, `CutLength` or `CutWorker`, the first that applies, exactly if the partition doesn't fit. Otherwise,
/// `Memory` if an allocation fails, or `Thread` if a thread couldn't be started, the gate refused a start, an executor
/// returned an error, or a worker got a copy before its time, which the protocol excludes. If several workers failed,
/// it is the error of the one with the lowest number, as a test shows. After an error, the inboxes are dropped.
pub fn run_inboxes<R, G>(
    rt: &R,
    alloc: Global,
    net: &Net,
    cut: &Cut,
    sync: SyncKind,
    gate: &G,
    pairs: Vec<(Inbox, Taker)>,
) -> Result<(Report, Vec<(Inbox, Taker)>), RunError>
where
    R: Threads + Wait + RandomSource + AllocGlobal + Sync,
    G: Gate + Sync,
    requires fresh { Each (λ pair. IsFresh pair.0 pair.1) pairs.items }
    requires kind { Each (λ pair. IsForKind sync pair.1) pairs.items }
    ensures report { IfOk result (λ r. IsReportOf (net_of net.now) (report_of r.0)) }
    // There is a trace for each mote. Each trace delivers events in the order in which they were accepted, has nothing
    // after a halt, and starts a process only if the process isn't in the process list.
    ensures traces { IfOk result (λ r. (vec_len r.0.traces ≡ length (net_of net.now).motes)
        × All (λ trace. IsInOrder trace.items) r.0.traces.items) }
    // The inboxes are returned in order, each with its taker, which has gathered all senders. With marks, the inboxes
    // are empty.
    ensures inboxes { IfOk result (λ r. (map (λ pair. pair.0) r.1.items ≡ map (λ pair. pair.0) pairs.items)
        × Each (λ pair. IsSettled pair.0 pair.1) r.1.items
        × (sync ≡ Marks → Each (λ pair. known_of pair.1.state.gathered pair.1.state.taken ≡ 0) r.1.items)) }
    // The copies from one worker to another went through the inboxes, each exactly once, and no other copies did.
    ensures crossed { IfOk result (λ r. AllCrossed (net_of net.now) cut.now.of.items (report_of r.0) r.1.items) }
    // An error of the partition is returned exactly if the partition has one.
    ensures fault { let fault = cut_fault (length (net_of net.now).motes) (length pairs.items) cut.now.of.items in
        IfOk result (λ r. fault ≡ None) × IfErr result (IsAnswerTo fault) }
{
    if let Some(fault) = fault_of(net.motes(), pairs.len(), &cut.of) {
        return Err(fault);
    }
    run_fitting(rt, alloc, net, cut, sync, gate, pairs)
}

/// Runs a net with this many workers, and returns its report. The report is that of the run on one thread, for any
/// partition that fits and both kinds of synchronisation. Tests show that each worker runs in threads of its own. The
/// inboxes are made for the run. At the end of the run, they are closed, and the copies that are left in them are
/// dropped.
///
/// # Errors
/// `Workers`, `CutLength` or `CutWorker`, the first that applies, exactly if the partition doesn't fit. Otherwise,
/// `Memory` if an allocation fails, or `Thread` if a thread couldn't be started, the gate refused a start, an executor
/// returned an error, or a worker got a copy before its time, which the protocol excludes. If several workers failed,
/// it is the error of the one with the lowest number, as a test shows.
pub fn run_workers<R, G>(
    rt: &R,
    alloc: Global,
    net: &Net,
    workers: u16,
    cut: &Cut,
    sync: SyncKind,
    gate: &G,
) -> Result<Report, RunError>
where
    R: Threads + Wait + RandomSource + AllocGlobal + Sync,
    G: Gate + Sync,
    ensures report { IfOk result (λ r. IsReportOf (net_of net.now) (report_of r)) }
    // There is a trace for each mote.
    ensures traces { IfOk result (λ r. vec_len r.traces ≡ length (net_of net.now).motes) }
    // Each trace delivers events in the order in which they were accepted, has nothing after a halt, and starts a
    // process only if the process isn't in the process list.
    ensures handed_on { IfOk result (λ r. All (λ trace. IsInOrder trace.items) r.traces.items) }
    // An error of the partition is returned exactly if the partition has one.
    ensures fits { IfOk result (λ r. cut_fault (length (net_of net.now).motes) workers cut.now.of.items ≡ None) }
    ensures err { IfErr result (IsAnswerTo (cut_fault (length (net_of net.now).motes) workers cut.now.of.items)) }
{
    if let Some(fault) = fault_of(net.motes(), usize::from(workers), &cut.of) {
        return Err(fault);
    }
    let Ok(pairs) = make_inboxes(alloc, usize::from(workers), sync.has_marks()) else {
        return Err(RunError::Memory);
    };
    let (report, pairs) = run_inboxes(rt, alloc, net, cut, sync, gate, pairs)?;
    close_all(rt, pairs);
    Ok(report)
}
