//! Checks claims about the run of a scenario, and writes its report.
ghost use Rattle.std.specs.Prelude.{◌≡◌, ◌<◌, None, Some, IfOk, length, vec_len};
ghost use Rattle.mote_net.specs.Meaning.{net_of};
ghost use Rattle.window_workers.specs.Fits.{cut_fault};
ghost use Rattle.window_workers.specs.declared.sync.SyncKind.TheVariants as sync;
ghost use Rattle.simulation.specs.Input.{IsText};
ghost use Rattle.simulation.specs.Simulation.{MayWork, RunsWith, way_by};
ghost use Rattle.claim_check.specs.Check.{Checks, Reports};
ghost use Rattle.claim_check.specs.Promises.{RunsWithFaults};

use crate::answers::{Answers, answers_with};
use crate::error::CheckError;
use crate::faults::faults_of_net;
use crate::names::names_of;
use claim_text::read_claims;
use mote_net::{Net, Report};
use net_scenario::read_scenario;
use program_tree::Names;
use radio_faults::Fault;
use serial_run::run_with_faults;
use std::alloc::{AllocError, Global};
use std::io::Write;
use std::random::RandomSource;
use std::sync::Wait;
use std::thread::Threads;
use trace_printer::write_report;
use window_workers::{Cut, Gate, MOST_WORKERS, RunError, SyncKind, run_workers};

/// Runs a scenario with the faults in a text on one thread, and answers the claims about its report. It never waits for
/// another thread, so its proof also shows that it returns.
///
/// # Errors
/// `Simulation` with the first error in the scenario; otherwise `Faults` or `NotInNet` with an error in the faults;
/// otherwise `Claims` with an error in the claims. The error can also be out of memory. No clause says that an allocation
/// failed in that case.
pub fn check_serial(
    alloc: Global,
    scenario: &str,
    claims: &str,
    faults: &str,
) -> Result<Answers, CheckError>
    requires is_text { IsText scenario.now }
    ensures checks { Checks None scenario.now claims.now faults.now result }
{
    let net = read_scenario(alloc, scenario)?;
    let listed = faults_of_net(alloc, &net, faults)?;
    let chosen = listed.as_slice();
    let none = Names::new(alloc);
    let names = names_of(&net, &none);
    let claims = read_claims(alloc, names, claims.as_bytes())?;
    let report = run_with_faults(alloc, &net, chosen)?;
    Ok(answers_with(alloc, names, claims.as_slice(), chosen, &report)?)
}

/// Runs a scenario with the faults in a text on one thread, and writes its report.
///
/// # Errors
/// Those of `check_serial`, but `Claims`, and then nothing has been written; or `Print` after a prefix of the report.
pub fn report_serial<W: Write>(
    alloc: Global,
    scenario: &str,
    faults: &str,
    output: &mut W,
) -> Result<bool, CheckError>
    requires is_text { IsText scenario.now }
    ensures reports { Reports None scenario.now faults.now (W.contents output.old) (W.contents output.new) result }
{
    let net = read_scenario(alloc, scenario)?;
    let listed = faults_of_net(alloc, &net, faults)?;
    let chosen = listed.as_slice();
    let found = run_with_faults(alloc, &net, chosen)?;
    write_report(alloc, &net, &found, output)?;
    Ok(true)
}

/// Runs a net with workers, each of which has motes with consecutive numbers and gets a new thread for each window.
///
/// # Errors
/// `Workers` if there aren't 1 to 16 workers; otherwise `Memory` or `Thread`.
fn run_in_blocks<T, G>(
    rt: &T,
    alloc: Global,
    net: &Net,
    workers: u16,
    gate: &G,
) -> Result<Report, RunError>
where
    T: Threads + Wait + RandomSource + AllocGlobal + Sync,
    G: Gate + Sync,
    ensures ran { RunsWith (Some (workers, sync.Joins)) (net_of net.now) result }
    ensures traces { IfOk result (λ r. vec_len r.traces ≡ length (net_of net.now).motes) }
{
    if workers == 0 || workers > MOST_WORKERS {
        return Err(RunError::Workers);
    }
    let cut = block_cut(alloc, net.motes(), workers)?;
    run_workers(rt, alloc, net, workers, &cut, SyncKind::Joins, gate)
}

/// Runs a net with faults on one thread, whatever the number of workers.
///
/// # Errors
/// `Workers` if there aren't 1 to 16 workers; otherwise `Memory`.
fn run_alone(alloc: Global, net: &Net, faults: &[Fault], workers: u16) -> Result<Report, RunError>
    ensures ran { RunsWithFaults (Some (workers, sync.Joins)) (net_of net.now) faults.now result }
    ensures traces { IfOk result (λ r. vec_len r.traces ≡ length (net_of net.now).motes) }
{
    if workers == 0 || workers > MOST_WORKERS {
        return Err(RunError::Workers);
    }
    Ok(run_with_faults(alloc, net, faults)?)
}

/// Runs a net with workers; with faults, one thread makes the run.
///
/// # Errors
/// Those of `run_in_blocks`.
fn run_by<T, G>(
    rt: &T,
    alloc: Global,
    net: &Net,
    faults: &[Fault],
    workers: u16,
    gate: &G,
) -> Result<Report, RunError>
where
    T: Threads + Wait + RandomSource + AllocGlobal + Sync,
    G: Gate + Sync,
    ensures ran { RunsWithFaults (Some (workers, sync.Joins)) (net_of net.now) faults.now result }
    ensures traces { IfOk result (λ r. vec_len r.traces ≡ length (net_of net.now).motes) }
{
    match faults {
        [] => run_in_blocks(rt, alloc, net, workers, gate),
        [_, ..] => run_alone(alloc, net, faults, workers),
    }
}

/// Makes the partition of motes in blocks.
fn block_cut(alloc: Global, motes: u16, workers: u16) -> Result<Cut, AllocError>
    requires motes { 0 < motes }
    requires workers { MayWork workers }
    ensures fits { IfOk result (λ cut. cut_fault motes workers cut.of.items ≡ None) }
{
    Cut::block(alloc, motes, workers)
}

/// Runs a scenario with workers, and answers the claims about its report.
fn check_by<T, G>(
    rt: &T,
    alloc: Global,
    scenario: &str,
    claims: &str,
    faults: &str,
    workers: u16,
    gate: &G,
) -> Result<Answers, CheckError>
where
    T: Threads + Wait + RandomSource + AllocGlobal + Sync,
    G: Gate + Sync,
    requires is_text { IsText scenario.now }
    ensures checks { Checks (Some (workers, sync.Joins)) scenario.now claims.now faults.now result }
{
    let net = read_scenario(alloc, scenario)?;
    let listed = faults_of_net(alloc, &net, faults)?;
    let chosen = listed.as_slice();
    let none = Names::new(alloc);
    let names = names_of(&net, &none);
    let claims = read_claims(alloc, names, claims.as_bytes())?;
    let report = run_by(rt, alloc, &net, chosen, workers, gate)?;
    Ok(answers_with(alloc, names, claims.as_slice(), chosen, &report)?)
}

/// Runs a scenario with workers, and writes its report.
fn report_by<T, W, G>(
    rt: &T,
    alloc: Global,
    scenario: &str,
    faults: &str,
    workers: u16,
    output: &mut W,
    gate: &G,
) -> Result<bool, CheckError>
where
    T: Threads + Wait + RandomSource + AllocGlobal + Sync,
    W: Write,
    G: Gate + Sync,
    requires is_text { IsText scenario.now }
    ensures reports { Reports (Some (workers, sync.Joins)) scenario.now faults.now
        (W.contents output.old) (W.contents output.new) result }
{
    let net = read_scenario(alloc, scenario)?;
    let listed = faults_of_net(alloc, &net, faults)?;
    let chosen = listed.as_slice();
    let report = run_by(rt, alloc, &net, chosen, workers, gate)?;
    write_report(alloc, &net, &report, output)?;
    Ok(true)
}

/// Runs a scenario with the faults in a text, on one thread or with workers, and answers the claims about its report.
/// Workers wait for one another, so the contract holds only if the run returns.
///
/// # Errors
/// Those of `check_serial`; with workers, also `Simulation` with an error of the run.
pub fn check<T, G>(
    rt: &T,
    alloc: Global,
    scenario: &str,
    claims: &str,
    faults: &str,
    workers: Option<u16>,
    gate: &G,
) -> Result<Answers, CheckError>
where
    T: Threads + Wait + RandomSource + AllocGlobal + Sync,
    G: Gate + Sync,
    requires is_text { IsText scenario.now }
    ensures checks { Checks (way_by workers sync.Joins) scenario.now claims.now faults.now result }
{
    match workers {
        None => check_serial(alloc, scenario, claims, faults),
        Some(workers) => check_by(rt, alloc, scenario, claims, faults, workers, gate),
    }
}

/// Runs a scenario with the faults in a text, on one thread or with workers, and writes its report.
///
/// # Errors
/// Those of `report_serial`; with workers, also `Simulation` with an error of the run.
pub fn report<T, W, G>(
    rt: &T,
    alloc: Global,
    scenario: &str,
    faults: &str,
    workers: Option<u16>,
    output: &mut W,
    gate: &G,
) -> Result<bool, CheckError>
where
    T: Threads + Wait + RandomSource + AllocGlobal + Sync,
    W: Write,
    G: Gate + Sync,
    requires is_text { IsText scenario.now }
    ensures reports { Reports (way_by workers sync.Joins) scenario.now faults.now
        (W.contents output.old) (W.contents output.new) result }
{
    match workers {
        None => report_serial(alloc, scenario, faults, output),
        Some(workers) => report_by(rt, alloc, scenario, faults, workers, output, gate),
    }
}
