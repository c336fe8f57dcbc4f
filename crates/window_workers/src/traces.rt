//! The traces of all motes, each taken from the mote's worker.

ghost use Rattle.std.specs.Prelude.{◌≡◌, ◌<◌, length, IfOk};
ghost use Rattle.std.specs.List.{AllByRecursion as Each};
ghost use Rattle.window_workers.specs.Over.{HasTrace, TakesOneTrace, AreTracesOf};

use process_kernel::Line;
use std::alloc::{AllocError, Global};
use std::mem;
use worker_window::EndedShare;

/// Takes the trace of a mote from its worker.
fn take_trace(alloc: Global, ended: &mut Vec<EndedShare>, worker: usize, mote: usize) -> Vec<Line>
    requires worker { worker < length ended.old.items }
    requires mote { HasTrace worker mote ended.old.items }
    ensures takes_trace { TakesOneTrace worker mote ended.old.items ended.new.items result }
{
    let one = &mut ended[worker];
    mem::replace(&mut one.traces[mote], Vec::new(alloc))
}

/// Takes the trace of each mote from its worker, and returns the traces by the motes' numbers. `owners` is the worker
/// of each mote.
///
/// # Errors
/// `AllocError` if an allocation fails.
pub fn joined_traces(
    alloc: Global,
    owners: &[u16],
    ended: Vec<EndedShare>,
) -> Result<Vec<Vec<Line>>, AllocError>
    requires workers { Each (λ worker. worker < length ended.items) owners.now }
    requires places { Each (λ one. length one.traces.items ≡ length owners.now) ended.items }
    ensures are_traces_of { IfOk result (λ traces. AreTracesOf owners.now ended.items traces.items) }
{
    let mut ended = ended;
    let mut traces = Vec::new(alloc);
    for mote in 0..owners.len() {
        let trace = take_trace(alloc, &mut ended, usize::from(owners[mote]), mote);
        traces.push(trace)?;
    }
    Ok(traces)
}
