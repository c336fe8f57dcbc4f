//! A window of a share, which `window_workers` runs for each worker: the motes take in their copies, run, and come to rest.

ghost use Rattle.std.specs.Prelude.{◌≡◌, ◌<◌, ◌≤◌, ◌^◌, ◌++◌, ◌∷◌, ◌==◌, ℕ, true, [], length};
ghost use Rattle.std.specs.Prelude.{◌≢◌, map, IfErr, IfOk, IfSome, IsSomeAnd, OnOk};
ghost use Rattle.std.specs.List.{filter, flat_map, list_all, AllByRecursion};
ghost use Rattle.fork_join.specs.declared.work.WorkerError.TheVariants.{Stopped};
ghost use Rattle.radio_medium.specs.Medium.{copies};
ghost use Rattle.window_laws.specs.Agenda.{Packet};
ghost use Rattle.net_agenda.specs.Changes.{AddsItems};
ghost use Rattle.mote_net.specs.Meaning.{net_of};
ghost use Rattle.copy_exchange.specs.Crossed.{is_own, is_for_others};
ghost use Rattle.worker_window.specs.Share.{mote_here, wake_from};
ghost use Rattle.worker_window.specs.Window.{CanRun, IsOutgoing, RunsThrough, TakesIn};
ghost use Rattle.worker_window.specs.Log.{HaveFates, packets_in};
ghost use Rattle.worker_window.specs.Resting.{ComesToRest, HasSent};
ghost use Rattle.worker_window.specs.Sending.{outgoing_copies, own_items};

use crate::events::take_events_before;
use crate::gate::Gate;
use crate::share::Share;
use crate::worker::run_motes;
use copy_exchange::is_own;
use fork_join::WorkerError;
use mote_net::{LogLine, Net};
use net_agenda::Agenda;
use radio_medium::Medium;
use radio_packet::{Fate, RadioCopy, Sent};
use std::alloc::{AllocError, AllocGlobal};
use std::mem;
use std::random::RandomSource;
use std::slice::from_ref;
use std::sync::Wait;

/// Returns the wake, unless it is before a moment.
fn wake_from(until: u64, wake: Option<u64>) -> Option<u64>
    ensures value { result ≡ wake_from until wake }
{
    match wake {
        Some(moment) => {
            if moment < until {
                return None;
            }
            Some(moment)
        }
        None => None,
    }
}

/// Sends a copy: a copy for a mote of the worker becomes a pending event; a copy for a mote of another worker is
/// appended to `outgoing`.
fn send_copy(
    owners: &[u16],
    worker: u16,
    copy: &RadioCopy,
    agenda: &mut Agenda,
    outgoing: &mut Vec<RadioCopy>,
) -> Result<(), AllocError>
    ensures own { OnOk result (AddsItems agenda.old.buckets agenda.new.buckets
        (map Packet (filter (λ copy. is_own owners.now worker copy.to) (copy.now ∷ [])))) }
    ensures outgoing { OnOk result (outgoing.new.items ≡ outgoing.old.items
        ++ filter (is_for_others (is_own owners.now worker)) (copy.now ∷ [])) }
{
    if is_own(owners, worker, copy.to) {
        return agenda.put_copies(from_ref(copy));
    }
    outgoing.push(*copy)?;
    Ok(())
}

/// Sends the copy of a packet with this fate, unless it is lost.
fn send_fate(
    owners: &[u16],
    worker: u16,
    sent: &Sent,
    fate: &Fate,
    agenda: &mut Agenda,
    outgoing: &mut Vec<RadioCopy>,
) -> Result<(), AllocError>
    ensures own { OnOk result (AddsItems agenda.old.buckets agenda.new.buckets
        (own_items owners.now worker sent.now (fate.now ∷ []))) }
    ensures outgoing { OnOk result (outgoing.new.items ≡ outgoing.old.items
        ++ outgoing_copies owners.now worker sent.now (fate.now ∷ [])) }
{
    let Some(at) = fate.at else {
        return Ok(());
    };
    let copy = RadioCopy {
        at,
        to: fate.to,
        sender: sent.sender,
        number: sent.number,
        value: sent.value,
    };
    send_copy(owners, worker, &copy, agenda, outgoing)
}

/// Returns whether all of these fates belong to copies for motes of the worker.
fn are_own(owners: &[u16], worker: u16, fates: &[Fate]) -> bool
    ensures value { result ≡ list_all (λ fate. is_own owners.now worker fate.to) fates.now }
{
    fates.iter().all(|fate| is_own(owners, worker, fate.to))
}

/// Sends the copies of a packet with these fates.
fn send_fates(
    owners: &[u16],
    worker: u16,
    sent: &Sent,
    fates: &[Fate],
    agenda: &mut Agenda,
    outgoing: &mut Vec<RadioCopy>,
) -> Result<(), AllocError>
    ensures own { OnOk result (AddsItems agenda.old.buckets agenda.new.buckets
        (own_items owners.now worker sent.now fates.now)) }
    ensures outgoing { OnOk result (outgoing.new.items ≡ outgoing.old.items
        ++ outgoing_copies owners.now worker sent.now fates.now) }
{
    if are_own(owners, worker, fates) {
        return agenda.put_fates(sent, fates);
    }
    for fate in fates {
        send_fate(owners, worker, sent, fate, agenda, outgoing)?;
    }
    Ok(())
}

/// Sends the packets of a mote, and logs them with the fates of their copies. Copies for the worker's own motes become
/// pending events; the others are appended to `outgoing`.
pub(crate) fn send_all(
    medium: &Medium,
    owners: &[u16],
    worker: u16,
    sends: &[Sent],
    agenda: &mut Agenda,
    outgoing: &mut Vec<RadioCopy>,
    log: &mut Vec<LogLine>,
) -> Result<(), AllocError>
    requires senders_exist { AllByRecursion
        (λ sent. (sent.sender < length medium.now.places) × (sent.at ≤ 2 ^ 40)) sends.now }
    ensures own { OnOk result (AddsItems agenda.old.buckets agenda.new.buckets
        (map Packet (filter (λ copy. is_own owners.now worker copy.to) (flat_map (copies medium.now) sends.now)))) }
    ensures outgoing { OnOk result (outgoing.new.items ≡ outgoing.old.items
        ++ filter (is_for_others (is_own owners.now worker)) (flat_map (copies medium.now) sends.now)) }
    ensures log { OnOk result (packets_in log.new.items ≡ packets_in log.old.items ++ sends.now) }
    ensures fates { OnOk result (HaveFates medium.now log.old.items → HaveFates medium.now log.new.items) }
{
    for sent in sends {
        let fates = medium.fates(sent)?;
        send_fates(owners, worker, sent, &fates, agenda, outgoing)?;
        log.push(LogLine { sent: *sent, fates })?;
    }
    Ok(())
}

impl Share {
    /// Lets a mote of the share come to rest after its window up to `until`. In the agenda, the mote's next wake
    /// replaces its pending one. Its packets are sent and logged. The copies for other workers' motes are appended to
    /// `outgoing`.
    fn rest(
        &mut self,
        medium: &Medium,
        owners: &[u16],
        until: u64,
        number: u16,
        outgoing: &mut Vec<RadioCopy>,
    ) -> Result<(), AllocError>
        requires sent { IsSomeAnd (mote_here self.old.motes.items number) (HasSent (length medium.now.places)) }
        ensures rests { OnOk result (IfSome (mote_here self.old.motes.items number)
            (λ own. ComesToRest medium.now owners.now until number own self.old self.new
            outgoing.old.items outgoing.new.items)) }
    {
        let Some(own) = &mut self.motes[usize::from(number)] else {
            unreachable!()
        };
        let pending = wake_from(until, own.pending);
        self.agenda.move_wake(pending, own.wake, number)?;
        send_all(
            medium,
            owners,
            self.worker,
            &own.sends,
            &mut self.agenda,
            outgoing,
            &mut self.log,
        )?;
        own.rest();
        Ok(())
    }

    /// Takes in copies that arrived from other workers. The clause is about copies that arrive after the last window,
    /// so callers take each in before the window in which it can have a turn.
    ///
    /// # Errors
    /// `AllocError` if an allocation fails.
    pub fn take_in(&mut self, arrived: &[RadioCopy]) -> Result<(), AllocError>
        ensures takes_in { OnOk result (TakesIn arrived.now self.old self.new) }
    {
        self.agenda.put_copies(arrived)?;
        Ok(())
    }

    /// Runs the worker's motes through the window up to `until`, which is at most 2^40. The clauses are about windows
    /// no longer than the lookahead. The call takes in the copies that arrived from other workers, and uses the worker's future to run each mote that has an event before `until`. It
    /// keeps the pending events of the worker's motes. It returns the copies for other workers' motes; those of each
    /// mote are in the order of sending. `owners` is the worker of each mote.
    ///
    /// The time grows with the window's turns and with the copies that it takes and makes. Each poll of the worker's
    /// future visits all called motes.
    ///
    /// # Errors
    /// `Memory` if an allocation fails; `Thread` if the executor returned an error.
    pub fn run_window<R, G>(
        &mut self,
        rt: &R,
        net: &Net,
        owners: &[u16],
        arrived: Vec<RadioCopy>,
        until: u64,
        gate: &G,
    ) -> Result<Vec<RadioCopy>, WorkerError>
    where
        R: Wait + RandomSource + AllocGlobal,
        G: Gate,
        requires until_bounded { until ≤ 2 ^ 40 }
        requires owners { length owners.now ≡ length (net_of net.now).motes }
        requires ready { CanRun (net_of net.now) owners.now until self.old arrived.items }
        requires to_own { AllByRecursion (λ copy. is_own owners.now self.old.worker copy.to ≡ true) arrived.items }
        ensures window { let model = net_of net.now in IfOk result
            (λ outgoing. RunsThrough model owners.now until arrived.items self.old self.new outgoing.items) }
        ensures out { let model = net_of net.now in IfOk result
            (λ outgoing. AllByRecursion (IsOutgoing model owners.now self.old.worker) outgoing.items) }
        ensures refused { IfErr result (λ reason. reason ≢ Stopped) }
    {
        self.agenda.put_copies(&arrived)?;
        let mut called = mem::replace(&mut self.called, Vec::new(self.alloc));
        take_events_before(
            &mut self.agenda,
            &mut self.motes,
            until,
            &mut self.arrivals,
            &mut called,
        )?;
        let motes = mem::replace(&mut self.motes, Vec::new(self.alloc));
        self.motes = run_motes(
            rt,
            self.alloc,
            net,
            until,
            self.worker,
            gate,
            motes,
            &called,
            &mut self.buffers,
        )?;
        let mut outgoing = Vec::new(self.alloc);
        while let Some(number) = called.pop() {
            self.rest(net.medium(), owners, until, number, &mut outgoing)?;
        }
        self.called = called;
        Ok(outgoing)
    }
}
