//! The run of a net on one thread, with and without faults: all turns, in the order of moment, then mote number.

ghost use Rattle.std.specs.Prelude.{◌≡◌, ◌<◌, length, vec_len, All, IfOk, OnOk, IfErr};
ghost use Rattle.kernel_laws.specs.Going.{IsInOrder};
ghost use Rattle.mote_net.specs.Meaning.{net_of};
ghost use Rattle.net_agenda.specs.NetSystem.{system_of};
ghost use Rattle.mote_net.specs.Report.{report_of};
ghost use Rattle.serial_run.specs.FaultRun.{IsReportWith};
ghost use Rattle.serial_run.specs.NetRun.{IsReportOf};
ghost use Rattle.window_laws.specs.NetStep.{boot};
ghost use Rattle.serial_run.specs.IsInState.{IsEngineAt, IsWhole};
ghost use Rattle.serial_run.specs.Ended.{HasEnded};
ghost use Rattle.serial_run.specs.Lives.{HaveLives};

use crate::engine::Engine;
use crate::error::RunError;
use mote_net::{Net, Report};
use radio_faults::Fault;
use std::alloc::{AllocError, Global};

/// Takes turns until no event is pending at or before the end.
fn run_to_end(engine: &mut Engine, net: &Net, faults: &[Fault]) -> Result<(), AllocError>
    requires is_whole { IsWhole (net_of net.now) engine.old }
    requires boot { let model = net_of net.now in IsEngineAt faults.now model engine.old (boot (system_of model)) }
    ensures is_whole { OnOk result (IsWhole (net_of net.now) engine.new) }
    ensures ended { OnOk result (HasEnded faults.now (net_of net.now) engine.new) }
{
    let end = net.end();
    // Called only for its clause `no_fault`, which the proof needs.
    let _ahead = net.medium().lookahead(end);
    'turns: while let Some((moment, number)) = engine.agenda.first() {
        if moment > end {
            break;
        }
        engine.turn(net, faults, moment, number)?;
    }
    Ok(())
}

/// Runs a net with faults on one thread, and returns the report. Its log has the fates with the faults: a copy that a
/// fault loses is lost, as one that the medium loses, and a late copy has its later moment. A copy that arrives while its
/// mote is off has its moment too, but no line.
///
/// # Errors
/// `AllocError` if an allocation fails, or if a copy is so late that its moment doesn't fit into 64 bits. The latter takes
/// more than 4,294,967,000 faults of one copy.
pub fn run_with_faults(alloc: Global, net: &Net, faults: &[Fault]) -> Result<Report, AllocError>
    ensures report { IfOk result (λ r. IsReportWith faults.now (net_of net.now) (report_of r)) }
    // There is a trace for each mote.
    ensures traces { IfOk result (λ r. vec_len r.traces ≡ length (net_of net.now).motes) }
    // Each trace has the lines of one life, or of several, if faults let its mote boot again. Each life delivers events in
    // the order in which they were accepted, nothing follows a halt in it, and a process starts only if it isn't listed.
    ensures lives { IfOk result (λ r. HaveLives faults.now r.traces.items) }
{
    let mut engine = Engine::boot(alloc, net)?;
    run_to_end(&mut engine, net, faults)?;
    let Engine {
        alloc: _,
        motes: _,
        wakes: _,
        traces,
        log,
        agenda,
        arrivals: _,
        out: _,
    } = engine;
    let left = agenda.left()?;
    Ok(Report {
        traces,
        medium: log,
        left,
    })
}

/// Runs a net on one thread, and returns its report. The thread takes all turns in the order of moment, then mote
/// number. In each turn the mote gets its packets in the order of sender and number.
///
/// # Errors
/// Only `Memory`.
pub fn run_serial(alloc: Global, net: &Net) -> Result<Report, RunError>
    ensures report { IfOk result (λ r. IsReportOf (net_of net.now) (report_of r)) }
    // There is a trace for each mote.
    ensures traces { IfOk result (λ r. vec_len r.traces ≡ length (net_of net.now).motes) }
    // Each trace delivers events in the order in which they were accepted, nothing follows a halt in it, and a process
    // starts only if it isn't listed.
    ensures handed_on { IfOk result (λ r. All (λ trace. IsInOrder trace.items) r.traces.items) }
    ensures err { IfErr result (λ e. e ≡ RunError.Memory) }
{
    Ok(run_with_faults(alloc, net, &[])?)
}
