//! A simulation, from the bytes of a scenario to the bytes of its report.
ghost use Rattle.std.specs.Prelude.{Some, None, IfErr, IfSome};
ghost use Rattle.simulation.specs.Simulation.{SimulatedWith, SimulatedSome, Unwritten, way_of};
ghost use Rattle.simulation.specs.Input.{IsText};

use crate::by_workers::{Team, run_by};
use crate::error::SimError;
use crate::input::read_text;
use crate::options::Options;
use net_scenario::read_scenario;
use std::alloc::Global;
use std::io::{Read, Write};
use std::random::RandomSource;
use std::sync::Wait;
use std::thread::Threads;
use trace_printer::{write_report, write_report_by};
use window_workers::{Gate, run_serial};

/// Simulates the scenario of this text on one thread, and writes the report.
fn simulate_text<W: Write>(alloc: Global, text: &str, writer: &mut W) -> Result<(), SimError>
    requires is_text { IsText text.now }
    ensures answer { SimulatedWith None text.now (W.contents writer.old) (W.contents writer.new) result }
    ensures unwritten { IfErr result (Unwritten (W.contents writer.old) (W.contents writer.new)) }
{
    let net = read_scenario(alloc, text)?;
    let report = run_serial(alloc, &net)?;
    write_report(alloc, &net, &report, writer)?;
    Ok(())
}

/// Simulates the scenario of this text with these workers, and writes the report.
fn simulate_text_by<T, W, G>(
    rt: &T,
    alloc: Global,
    text: &str,
    writer: &mut W,
    team: Team,
    gate: &G,
) -> Result<(), SimError>
where
    T: Threads + Wait + RandomSource + AllocGlobal + Sync,
    W: Write,
    G: Gate + Sync,
    requires is_text { IsText text.now }
    ensures answer { let way = Some (team.workers, team.sync)
        in SimulatedWith way text.now (W.contents writer.old) (W.contents writer.new) result }
    ensures unwritten { IfErr result (Unwritten (W.contents writer.old) (W.contents writer.new)) }
{
    let net = read_scenario(alloc, text)?;
    let report = run_by(rt, alloc, &net, team, gate)?;
    write_report_by(rt, alloc, team.workers, &net, &report, writer)?;
    Ok(())
}

/// Reads a scenario to its end, simulates it on one thread, and writes its report.
///
/// # Errors
/// In this order: `Read` if a call of the reader failed, or was interrupted, before the limit was passed; `TooLong` if
/// the reader returned more than 1,048,576 bytes, even if it never ends; `NotText` if the bytes aren't UTF-8;
/// `Scenario` with the first error in the scenario; `Run` if an allocation of the run failed; `Print` if the writer
/// failed or took no byte. With `Print`, a prefix of the report has been written; with any other error, nothing has.
/// If an allocation failed, the error can also be `Memory`, or the `Memory` of a part; tests show that these errors
/// have no other cause.
#[tactic(auto, using(crate::proofs::Printed::some_bytes))]
pub fn simulate_serial<R: Read, W: Write>(
    alloc: Global,
    reader: &mut R,
    writer: &mut W,
) -> Result<(), SimError>
    // If the reader's contents are known, the result is that of simulating these bytes. If the writer's contents are
    // known, they grow by the text that is written.
    ensures answer { IfSome (R.remaining reader.old)
        (λ input. SimulatedWith None input (W.contents writer.old) (W.contents writer.new) result) }
    // For any reader, a report is the report of some bytes, and an error of the scenario is the error of some bytes.
    ensures simulated_some { SimulatedSome None (W.contents writer.old) (W.contents writer.new) result }
    // Nothing has been written if the error isn't `Print`.
    ensures unwritten { IfErr result (Unwritten (W.contents writer.old) (W.contents writer.new)) }
{
    let text = read_text(alloc, reader)?;
    simulate_text(alloc, text.as_str(), writer)
}

/// Reads a scenario to its end, simulates it on one thread or with the workers that the options ask for, and writes
/// its report. With joins, each worker has a thread for each window; with marks, it has one thread for the whole run.
/// If a report is long, several threads format it, one for each worker. The report has the same bytes on one thread
/// and with workers. Workers wait for one another, so the contract holds only if the run returns.
///
/// # Errors
/// The errors of `simulate_serial`, and `Run` with one of these: `Workers` if there aren't 1 to 16 workers, which is
/// checked after the scenario has been read; `Memory` if an allocation of a worker failed; `Thread` if a worker's
/// thread couldn't be started or run.
#[tactic(auto, using(crate::proofs::Printed::some_bytes))]
pub fn simulate<T, R, W, G>(
    rt: &T,
    alloc: Global,
    reader: &mut R,
    writer: &mut W,
    options: &Options,
    gate: &G,
) -> Result<(), SimError>
where
    T: Threads + Wait + RandomSource + AllocGlobal + Sync,
    R: Read,
    W: Write,
    G: Gate + Sync,
    // The clauses of `simulate_serial`, for 1 to 16 workers, both partitions and both kinds of synchronisation.
    ensures answer { let way = way_of options.now
        in IfSome (R.remaining reader.old)
        (λ input. SimulatedWith way input (W.contents writer.old) (W.contents writer.new) result) }
    ensures simulated_some { SimulatedSome (way_of options.now) (W.contents writer.old) (W.contents writer.new) result }
    ensures unwritten { IfErr result (Unwritten (W.contents writer.old) (W.contents writer.new)) }
{
    let Some(workers) = options.workers else {
        return simulate_serial(alloc, reader, writer);
    };
    let team = Team {
        workers,
        cut: options.cut,
        sync: options.sync,
    };
    let scenario = read_text(alloc, reader)?;
    let text = scenario.as_str();
    simulate_text_by(rt, alloc, text, writer, team, gate)
}
