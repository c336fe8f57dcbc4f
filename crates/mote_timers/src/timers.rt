//! The timers of a mote and its timer list.

ghost use Rattle.std.specs.Prelude.{◌≡◌, ◌<◌, ◌≤◌, ◌^◌, ◌↔◌, ℕ, IsTrue, IsNone, IsSome, IfOk, IfSome, nat_eq, All};
ghost use Rattle.std.specs.Prelude.{length, min, map, find, position, ◌==◌, option_map};
ghost use Rattle.std.specs.List.{IsDistinct};
ghost use Rattle.std.specs.Option.{ForSome, option_map_or};
ghost use Rattle.mote_timers.specs.Numbers.{is_member};
ghost use Rattle.mote_timers.specs.TimerLists.{new_timers, timer_at, set_timer, reset_timer, restart_timer};
ghost use Rattle.mote_timers.specs.TimerLists.{stop_timer, purge_timers, next_expiration_of, least};
ghost use Rattle.mote_timers.specs.DueTimers.{members_after, first_due};
ghost use Rattle.mote_timers.specs.TimerLists.{with_timer};
ghost use Rattle.mote_timers.specs.Timer.{expiration, is_due, is_owned_by};

use crate::number_list::NumberList;
use crate::timer::{LATEST_START, Timer};
use program_tree::Proc;
use std::alloc::{AllocError, Global};
use std::marker::Model;

/// The timers of a mote, by number, and the mote's timer list (`timerlist` of `etimer.c`). A timer that is set stays
/// on the list until its event is posted, or until it is stopped or purged. `new` allocates all memory.
#[derive(Drop)]
pub struct Timers {
    timers: Vec<Timer>,
    listed: NumberList,
}

impl Model for Timers {
    ghost use Rattle.mote_timers.specs.TimerLists.{TimerLists};
    ghost use Rattle.mote_timers.specs.DueTimers.{AreTimers};

    ghost Value = { TimerLists };

    ghost view = { λ t. record { timers = t.timers.items; listed = t.listed.members } };

    ghost invariant = { λ t. AreTimers t.timers.items t.listed };
}

impl Timers {
    /// The timers 0 to n - 1, none of which is set yet.
    ///
    /// # Errors
    /// `AllocError` if an allocation fails.
    #[tactic(auto, unfolding(crate::specs::TimerLists::new_timers))]
    pub fn new(alloc: Global, n: u16) -> Result<Timers, AllocError>
        ensures new { IfOk result (λ timers. timers ≡ new_timers n) }
        ensures count { IfOk result (λ timers. length timers.timers ≡ n) }
    {
        Ok(Timers {
            timers: vec![in alloc; Timer::unset(); usize::from(n)]?,
            listed: NumberList::new(alloc, n)?,
        })
    }

    /// Sets a timer: it gets this interval in moments and this owner, and starts now. A timer that isn't on the list
    /// is added at its front; a timer that is on the list keeps its place.
    #[tactic(auto, unfolding(crate::specs::TimerLists::set_timer))]
    pub fn set(&mut self, id: u16, owner: Proc, interval: u16, now: u64)
        requires is_timer { id < length self.old.timers }
        requires moment { now ≤ 2 ^ 40 }
        ensures after { self.new ≡ set_timer self.old id owner interval now }
        ensures count { length self.new.timers ≡ length self.old.timers }
    {
        let timer = Timer {
            start: now,
            interval,
            owner: Some(owner),
        };
        self.start(id, timer);
    }

    /// Sets a timer again from its expiration: its start grows by its interval, up to the limit of 2^62. The timer
    /// gets this owner, and its place on the list is the same as after `set`.
    #[tactic(auto, unfolding(crate::specs::TimerLists::reset_timer))]
    pub fn reset(&mut self, id: u16, owner: Proc)
        requires is_timer { id < length self.old.timers }
        ensures after { self.new ≡ reset_timer self.old id owner }
        ensures count { length self.new.timers ≡ length self.old.timers }
    {
        let last = self.timers[usize::from(id)];
        let again = Timer {
            start: last.expiration().min(LATEST_START),
            interval: last.interval,
            owner: Some(owner),
        };
        self.start(id, again);
    }

    /// Sets a timer again from now, with the interval that it has. The timer gets this owner, and its place on the
    /// list is the same as after `set`.
    #[tactic(auto, unfolding(crate::specs::TimerLists::restart_timer, crate::specs::TimerLists::set_timer))]
    pub fn restart(&mut self, id: u16, owner: Proc, now: u64)
        requires is_timer { id < length self.old.timers }
        requires moment { now ≤ 2 ^ 40 }
        ensures after { self.new ≡ restart_timer self.old id owner now }
        ensures count { length self.new.timers ≡ length self.old.timers }
    {
        let interval = self.timers[usize::from(id)].interval;
        self.set(id, owner, interval, now);
    }

    /// Takes a timer off the list. The timer then has no owner, so it counts as expired.
    #[tactic(auto, unfolding(crate::specs::TimerLists::stop_timer))]
    pub fn stop(&mut self, id: u16)
        requires is_timer { id < length self.old.timers }
        ensures after { self.new ≡ stop_timer self.old id }
        ensures count { length self.new.timers ≡ length self.old.timers }
    {
        self.timers[usize::from(id)].owner = None;
        self.listed.remove(id);
    }

    /// Returns whether a timer has no owner: it was never set, or was stopped, or its event was posted.
    pub fn expired(&self, id: u16) -> bool
        requires is_timer { id < length self.now.timers }
        ensures decides { IsTrue result ↔ IsNone (timer_at self.now.timers id).owner }
    {
        self.timers[usize::from(id)].owner.is_none()
    }

    /// The first timer on the list that is due now, with its owner. If `after` is given, only timers after that one
    /// are searched.
    #[tactic(auto, unfolding(crate::specs::DueTimers::first_due))]
    pub fn next_due(&self, now: u64, after: Option<u16>) -> Option<(u16, Proc)>
        requires moment { now ≤ 2 ^ 40 }
        requires listed { ForSome after (λ id. IsTrue (is_member id self.now.listed)) }
        ensures first { option_map (λ due. due.0) result ≡ first_due self.now now after }
        ensures owner { IfSome result (λ due. (timer_at self.now.timers due.0).owner ≡ Some due.1) }
        ensures listed { IfSome result (λ due. IsTrue (is_member due.0 self.now.listed)) }
        ensures nearer_end { IfSome result
            (λ due. length (members_after (Some due.0) self.now.listed) < length
            (members_after after self.now.listed)) }
    {
        let id = first_due_behind(&self.timers, self.listed.as_slice(), after, now)?;
        let owner = self.timers[usize::from(id)].owner.unwrap();
        Some((id, owner))
    }

    /// Takes a timer off the list, because its event was posted. The timer then has no owner.
    pub fn fire(&mut self, id: u16)
        requires is_timer { id < length self.old.timers }
        ensures after { self.new ≡ stop_timer self.old id }
        ensures count { length self.new.timers ≡ length self.old.timers }
    {
        self.stop(id);
    }

    /// Takes all timers of a process off the list. They keep their owner, so they don't count as expired.
    #[tactic(auto, unfolding(crate::specs::TimerLists::purge_timers))]
    pub fn purge(&mut self, owner: Proc)
        ensures after { self.new ≡ purge_timers self.old owner }
        ensures count { length self.new.timers ≡ length self.old.timers }
    {
        let timers = self.timers.as_slice();
        self.listed.retain(|id| !is_owned(timers, *id, owner));
    }

    /// The earliest expiration of the timers on the list, or `None` if the list is empty.
    #[tactic(auto, unfolding(crate::specs::TimerLists::next_expiration_of))]
    pub fn next_expiration(&self) -> Option<u64>
        ensures value { result ≡ next_expiration_of self.now }
    {
        earliest(&self.timers, self.listed.as_slice())
    }

    fn start(&mut self, id: u16, timer: Timer)
        requires is_timer { id < length self.old.timers }
        requires start { timer.start ≤ 2 ^ 62 }
        requires owner { IsSome timer.owner }
        ensures after { self.new ≡ with_timer self.old id timer }
    {
        self.timers[usize::from(id)] = timer;
        self.listed.add(id);
    }
}

/// The first due timer on the list after the timer `after`, or on the whole list if `after` is `None`.
fn first_due_behind(timers: &[Timer], listed: &[u16], after: Option<u16>, now: u64) -> Option<u16>
    requires are_timers { All (λ id. id < length timers.now) listed.now }
    requires once { IsDistinct nat_eq listed.now }
    ensures first { result ≡ find (λ id. is_due now (timer_at timers.now id)) (members_after after listed.now) }
    ensures is_timer { IfSome result (λ id. id < length timers.now) }
    ensures listed { IfSome result (λ id. IsTrue (is_member id listed.now)) }
    ensures nearer_end { IfSome result
        (λ id. length (members_after (Some id) listed.now) < length (members_after after listed.now)) }
{
    first_due_of(timers, listed_behind(listed, after), now)
}

/// The part of the list after the timer `after`, or the whole list if `after` is `None`.
fn listed_behind(listed: &[u16], after: Option<u16>) -> &[u16]
    ensures value { result.now ≡ members_after after listed.now }
{
    match after {
        None => listed,
        Some(id) => match place_of(listed, id) {
            None => &[],
            Some(place) => &listed[place + 1..],
        },
    }
}

/// The place of a number on the list, if the number is on it.
fn place_of(listed: &[u16], id: u16) -> Option<usize>
    ensures position { result ≡ position (λ other. other == id) listed.now }
{
    listed.iter().position(|other| *other == id)
}

/// The first of these timers that is due now.
fn first_due_of(timers: &[Timer], ids: &[u16], now: u64) -> Option<u16>
    requires are_timers { All (λ id. id < length timers.now) ids.now }
    ensures first_due { result ≡ find (λ id. is_due now (timer_at timers.now id)) ids.now }
{
    ids.iter()
        .copied()
        .find(|id| timers[usize::from(*id)].is_due(now))
}

/// The earliest expiration of these timers.
fn earliest(timers: &[Timer], ids: &[u16]) -> Option<u64>
    requires bounded { All (λ timer. timer.start ≤ 2 ^ 62) timers.now }
    requires are_timers { All (λ id. id < length timers.now) ids.now }
    ensures value { result ≡ least (map (λ id. expiration (timer_at timers.now id)) ids.now) }
{
    let mut earliest = None;
    for id in ids {
        let expiration = timers[usize::from(*id)].expiration();
        earliest = Some(sooner(earliest, expiration));
    }
    earliest
}

/// The earlier of the best moment so far, if there is one, and another moment.
fn sooner(best: Option<u64>, moment: u64) -> u64
    ensures value { result ≡ option_map_or (λ earlier. min earlier moment) best moment }
{
    best.map_or(moment, |earlier| earlier.min(moment))
}

/// Returns whether the process owns the timer with this number. Nobody owns a timer that doesn't exist.
fn is_owned(timers: &[Timer], id: u16, owner: Proc) -> bool
    ensures value { result ≡ is_owned_by owner (timer_at timers.now id) }
{
    timers
        .get(usize::from(id))
        .is_some_and(|timer| timer.is_owned_by(owner))
}
