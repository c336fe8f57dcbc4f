//! The run of a net with the workers that the options ask for.
ghost use Rattle.std.specs.Prelude.{◌≡◌, ◌<◌, length, vec_len, IfOk, Some, None};
ghost use Rattle.mote_net.specs.Meaning.{net_of};
ghost use Rattle.window_workers.specs.Fits.{cut_fault};
ghost use Rattle.simulation.specs.Cuts.{of_kind};
ghost use Rattle.simulation.specs.Simulation.{MayWork, RunsWith};

use crate::options::CutKind;
use copy_exchange::Cut;
use mote_net::{Net, Report};
use std::alloc::{AllocError, Global};
use std::random::RandomSource;
use std::sync::Wait;
use std::thread::Threads;
use window_workers::{Gate, MOST_WORKERS, RunError, SyncKind, run_workers};

/// Makes the partition of this kind, which fits the motes and the workers.
fn cut_of(alloc: Global, kind: CutKind, motes: u16, workers: u16) -> Result<Cut, AllocError>
    requires motes { 0 < motes }
    requires workers { MayWork workers }
    ensures of { IfOk result (λ cut. cut.of.items ≡ of_kind kind motes workers) }
    ensures fits { IfOk result (λ cut. cut_fault motes workers cut.of.items ≡ None) }
{
    match kind {
        CutKind::Block => Cut::block(alloc, motes, workers),
        CutKind::Stripe => Cut::stripe(alloc, motes, workers),
    }
}

/// The number of workers, the partition of the motes among them, and their kind of synchronisation.
#[derive(Clone, Copy)]
pub struct Team {
    pub workers: u16,
    pub cut: CutKind,
    pub sync: SyncKind,
}

/// Runs a net with these workers, and returns its report. It checks the number of workers before it makes the
/// partition.
///
/// # Errors
/// `Workers` if there aren't 1 to 16 workers; otherwise `Memory` or `Thread`.
pub fn run_by<T, G>(
    rt: &T,
    alloc: Global,
    net: &Net,
    team: Team,
    gate: &G,
) -> Result<Report, RunError>
where
    T: Threads + Wait + RandomSource + AllocGlobal + Sync,
    G: Gate + Sync,
    ensures ran { RunsWith (Some (team.workers, team.sync)) (net_of net.now) result }
    ensures traces { IfOk result (λ r. vec_len r.traces ≡ length (net_of net.now).motes) }
{
    if team.workers == 0 || team.workers > MOST_WORKERS {
        return Err(RunError::Workers);
    }
    let cut = cut_of(alloc, team.cut, net.motes(), team.workers)?;
    run_workers(rt, alloc, net, team.workers, &cut, team.sync, gate)
}
