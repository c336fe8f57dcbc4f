//! The share of one worker: its motes, their traces and packets, and their pending events.

ghost use Rattle.std.specs.Prelude.{◌≡◌, ◌≤◌, ◌<◌, ◌++◌, ◌∷◌, ℕ, true, [], length};
ghost use Rattle.std.specs.Prelude.{List, map, IfOk, OnOk, if◌then◌else◌};
ghost use Rattle.radio_packet.specs.declared.copy.RadioCopy.{RadioCopy};
ghost use Rattle.window_laws.specs.Agenda.{Wake};
ghost use Rattle.window_laws.specs.Windows.{first_mote};
ghost use Rattle.mote_net.specs.Net.{NetModel};
ghost use Rattle.mote_net.specs.Meaning.{net_of};
ghost use Rattle.net_agenda.specs.NetSystem.{system_of};
ghost use Rattle.net_agenda.specs.Changes.{AddsItems};
ghost use Rattle.worker_window.specs.Next.{TellsNext};
ghost use Rattle.worker_window.specs.Share.{Motes, IsBeforeFirstTurn, IfOwn, IsWholeShare, trace_in};
ghost use Rattle.worker_window.specs.Ended.{TellsAtEnd};

use crate::own::OwnWindow;
use crate::turn_buffers::TurnBuffers;
use copy_exchange::is_own;
use mote_net::{LogLine, Net};
use net_agenda::{Agenda, new_mote};
use process_kernel::Line;
use radio_packet::Arrival;
use std::alloc::{AllocError, Global};

/// The data of one worker of a net. It has the windows of the worker's motes, with their traces, by the motes' numbers;
/// for a mote of another worker, it has none. It also has the packets of its motes, in order for each mote; the pending
/// events of its motes; and scratch buffers of windows.
pub struct Share {
    pub(crate) alloc: Global,
    pub(crate) worker: u16,
    pub(crate) motes: Vec<Option<OwnWindow>>,
    pub(crate) log: Vec<LogLine>,
    pub(crate) agenda: Agenda,
    pub(crate) called: Vec<u16>,
    pub(crate) arrivals: Vec<Arrival>,
    pub(crate) buffers: Option<Box<TurnBuffers>>,
}

/// Implemented by hand, so that the check of a function that owns a share sees only one call for the drop.
impl Drop for Share {
    fn drop(self) {
        let Share {
            alloc: _,
            worker: _,
            motes: _,
            log: _,
            agenda: _,
            called: _,
            arrivals: _,
            buffers: _,
        } = self;
    }
}

/// The results of a worker at the end: the traces of its motes, by number; the packets that they sent, in order for
/// each mote; and the number of copies that are still on their way to them, without those in the worker's inbox.
#[derive(Drop)]
pub struct EndedShare {
    pub traces: Vec<Vec<Line>>,
    pub log: Vec<LogLine>,
    pub left: u64,
}

/// Makes a mote of the worker, which wakes at 0, or returns `None` for a mote of another worker.
fn begin(
    alloc: Global,
    net: &Net,
    number: u16,
    own: bool,
    agenda: &mut Agenda,
) -> Result<Option<OwnWindow>, AllocError>
    requires mote_exists { number < length (net_of net.now).motes }
    ensures mote { IfOk result (λ mote. IfOwn own mote (IsBeforeFirstTurn (net_of net.now) number)) }
    ensures wake { OnOk result
        (AddsItems agenda.old.buckets agenda.new.buckets (if own then Wake 0 number ∷ [] else [])) }
{
    if !own {
        return Ok(None);
    }
    agenda.put_wake(0, number)?;
    let mote = new_mote(alloc, net, number)?;
    Ok(Some(OwnWindow::new(alloc, mote, Vec::new(alloc))))
}

impl Share {
    /// Makes the share of a worker before the motes' first turns: each mote wakes at 0. `owners` is the worker of each
    /// mote.
    ///
    /// # Errors
    /// `AllocError` if an allocation fails.
    pub fn new(alloc: Global, net: &Net, owners: &[u16], worker: u16) -> Result<Share, AllocError>
        requires covers_motes { length owners.now ≡ length (net_of net.now).motes }
        ensures keeps { let model = net_of net.now in IfOk result
            (λ share. IsWholeShare model owners.now worker 0 (first_mote (system_of model)) [] share) }
    {
        let mut share = Share {
            alloc,
            worker,
            motes: Vec::new(alloc),
            log: Vec::new(alloc),
            agenda: Agenda::new(alloc),
            called: Vec::new(alloc),
            arrivals: Vec::new(alloc),
            buffers: None,
        };
        for number in 0..net.motes() {
            let own = is_own(owners, worker, number);
            let mote = begin(alloc, net, number, own, &mut share.agenda)?;
            share.motes.push(mote)?;
        }
        Ok(share)
    }

    /// Returns the moment of the first pending event, if there is one.
    pub fn next(&self) -> Option<u64>
        ensures tells_next { TellsNext self.now result }
    {
        match self.agenda.first() {
            Some((moment, _)) => Some(moment),
            None => None,
        }
    }

    /// Takes the share apart at the end, and returns the worker's results.
    ///
    /// # Errors
    /// `AllocError` if the allocation for the list of traces fails, or for a number of copies above `u64::MAX`. No
    /// memory has room for so many copies.
    pub fn end(self) -> Result<EndedShare, AllocError>
        ensures tells_at_end { (model : NetModel) (owners : List ℕ) (worker from : ℕ) (motes : Motes)
            (taken : List RadioCopy)
            → IsWholeShare model owners worker from motes taken self
            → IfOk result (TellsAtEnd model owners worker from motes taken) }
    {
        let Share {
            alloc,
            worker: _,
            motes,
            log,
            agenda,
            called: _,
            arrivals: _,
            buffers: _,
        } = self;
        let traces = traces_of(alloc, motes)?;
        let left = agenda.left()?;
        Ok(EndedShare { traces, log, left })
    }
}

/// Returns the trace of each mote; an empty one where there is no mote.
fn traces_of(alloc: Global, motes: Vec<Option<OwnWindow>>) -> Result<Vec<Vec<Line>>, AllocError>
    ensures traces { IfOk result (λ traces. map (λ trace. trace.items) traces.items ≡ map trace_in motes.items) }
{
    let mut traces = Vec::with_capacity(alloc, motes.len())?;
    for mote in motes {
        traces.push(trace_of(alloc, mote))?;
    }
    Ok(traces)
}

/// Returns the trace of a mote, or an empty one if there is none.
fn trace_of(alloc: Global, mote: Option<OwnWindow>) -> Vec<Line>
    ensures trace { result.items ≡ trace_in mote }
{
    match mote {
        Some(own) => own.finish().lines,
        None => Vec::new(alloc),
    }
}
