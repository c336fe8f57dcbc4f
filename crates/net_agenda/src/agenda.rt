//! The pending events of a net, in a bucket for each moment.

ghost use Rattle.std.specs.Prelude.{◌≡◌, ◌≤◌, ◌+◌, length, take, List, [], ◌∷◌, map, OnOk, IfOk, MatchOption};
ghost use Rattle.std.specs.List.{filter_map};
ghost use Rattle.radio_medium.specs.Medium.{copy_of};
ghost use Rattle.window_laws.specs.Agenda.{Item, Wake, Packet, IsLeast, packets, wake_items};
ghost use Rattle.net_agenda.specs.Buckets.{HoldsItems, first_key, item_at};
ghost use Rattle.net_agenda.specs.Changes.{AddsItems, AreDue, DropsWake, MovesWake, TakesDue};

use crate::bucket::{Bucket, PendingEvent};
use crate::spread::Lists;
use radio_packet::{Arrival, Fate, RadioCopy, Sent};
use std::alloc::{AllocError, Global};
use std::collections::BTreeMap;

/// The pending events of a net, by moment: the motes' wakes, and the copies of packets on their way.
#[derive(Drop)]
pub struct Agenda {
    alloc: Global,
    pub buckets: BTreeMap<u64, Bucket>,
    lists: Lists,
}

/// The sum of two numbers of copies. If it overflows, there are more copies than any memory has room for.
fn plus(one: u64, other: u64) -> Result<u64, AllocError>
    ensures sum { IfOk result (λ sum. sum ≡ one + other) }
{
    one.checked_add(other).ok_or(AllocError)
}

impl Agenda {
    /// Makes an agenda without pending events.
    pub fn new(alloc: Global) -> Agenda
        ensures empty { HoldsItems result.buckets [] }
    {
        Agenda {
            alloc,
            buckets: BTreeMap::new(alloc),
            lists: Lists::new(alloc),
        }
    }

    /// Adds a pending event of a mote at a moment.
    fn put(&mut self, moment: u64, coming: PendingEvent) -> Result<(), AllocError>
        ensures adds { OnOk result (AddsItems self.old.buckets self.new.buckets (item_at moment coming ∷ [])) }
    {
        if let Some(bucket) = self.buckets.get_mut(&moment) {
            return bucket.put(coming);
        }
        let mut bucket = Bucket::new(self.alloc);
        bucket.put(coming)?;
        self.buckets.insert(moment, bucket)?;
        Ok(())
    }

    /// Adds a wake of a mote.
    ///
    /// # Errors
    /// `AllocError` if an allocation fails.
    pub fn put_wake(&mut self, moment: u64, mote: u16) -> Result<(), AllocError>
        ensures adds { OnOk result (AddsItems self.old.buckets self.new.buckets (Wake moment mote ∷ [])) }
    {
        self.put(moment, PendingEvent::Wake(mote))
    }

    /// Adds the next wake of a mote, if it has one.
    ///
    /// # Errors
    /// `AllocError` if an allocation fails.
    pub fn put_next_wake(&mut self, wake: Option<u64>, mote: u16) -> Result<(), AllocError>
        ensures adds { OnOk result (AddsItems self.old.buckets self.new.buckets (wake_items mote wake)) }
    {
        if let Some(moment) = wake {
            self.put_wake(moment, mote)?;
        }
        Ok(())
    }

    /// Adds a packet that is on its way. Then adds the packets of `later` up to, and not including, the first packet
    /// that arrives at another moment. Returns the number of packets of `later` that were added.
    fn put_same_copies(
        &mut self,
        copy: &RadioCopy,
        later: &[RadioCopy],
    ) -> Result<usize, AllocError>
        ensures held { IfOk result (λ count. AddsItems self.old.buckets self.new.buckets
            (map Packet (copy.now ∷ take count later.now))) }
        ensures inside { IfOk result (λ count. count ≤ length later.now) }
    {
        if let Some(bucket) = self.buckets.get_mut(&copy.at) {
            return bucket.put_copies(copy, later);
        }
        let mut bucket = Bucket::new(self.alloc);
        let count = bucket.put_copies(copy, later)?;
        self.buckets.insert(copy.at, bucket)?;
        Ok(count)
    }

    /// Adds copies of packets that are on their way.
    ///
    /// # Errors
    /// `AllocError` if an allocation fails. In that case some of the packets may have been added.
    pub fn put_copies(&mut self, copies: &[RadioCopy]) -> Result<(), AllocError>
        ensures adds { OnOk result (AddsItems self.old.buckets self.new.buckets (map Packet copies.now)) }
    {
        let mut next = 0;
        while next < copies.len() {
            next += 1 + self.put_same_copies(&copies[next], &copies[next + 1..])?;
        }
        Ok(())
    }

    /// Adds the copy that has this fate. Then adds the copies that have the fates in `later` up to, and not including,
    /// the first copy that arrives at another moment; lost copies are skipped. If the copy with this fate is lost, adds
    /// nothing. Returns the number of fates of `later` that were handled.
    fn put_same_fates(
        &mut self,
        sent: &Sent,
        fate: &Fate,
        later: &[Fate],
    ) -> Result<usize, AllocError>
        ensures held { IfOk result (λ count. AddsItems self.old.buckets self.new.buckets
            (map Packet (filter_map (copy_of sent.now) (fate.now ∷ take count later.now)))) }
        ensures inside { IfOk result (λ count. count ≤ length later.now) }
    {
        let Some(moment) = fate.at else {
            return Ok(0);
        };
        if let Some(bucket) = self.buckets.get_mut(&moment) {
            return bucket.put_fates(moment, sent, fate.to, later);
        }
        let mut bucket = Bucket::new(self.alloc);
        let count = bucket.put_fates(moment, sent, fate.to, later)?;
        self.buckets.insert(moment, bucket)?;
        Ok(count)
    }

    /// Adds the copies of a packet that have these fates, except the lost copies.
    ///
    /// # Errors
    /// `AllocError` if an allocation fails. In that case some of the copies may have been added.
    pub fn put_fates(&mut self, sent: &Sent, fates: &[Fate]) -> Result<(), AllocError>
        ensures adds { OnOk result (AddsItems self.old.buckets self.new.buckets
            (map Packet (filter_map (copy_of sent.now) fates.now))) }
    {
        let mut next = 0;
        while next < fates.len() {
            next += 1 + self.put_same_fates(sent, &fates[next], &fates[next + 1..])?;
        }
        Ok(())
    }

    /// Takes out the only wake of a mote, if it has one.
    ///
    /// # Errors
    /// None: the type allows `AllocError`, but the body allocates nothing and returns no error.
    pub fn drop_wake(&mut self, wake: Option<u64>, mote: u16) -> Result<(), AllocError>
        ensures drops_wake { OnOk result (DropsWake mote wake self.old.buckets self.new.buckets) }
    {
        let Some(moment) = wake else {
            return Ok(());
        };
        if let Some(bucket) = self.buckets.get_mut(&moment) {
            bucket.drop_wake(mote);
            if bucket.is_empty() {
                let _bucket = self.buckets.remove(&moment);
            }
        }
        Ok(())
    }

    /// Takes out the only wake of a mote, if there is one, and adds the mote's next wake, if there is one.
    ///
    /// # Errors
    /// `AllocError` if an allocation fails. In that case the old wake may have been taken out without the next one
    /// being added.
    pub fn move_wake(
        &mut self,
        wake: Option<u64>,
        next: Option<u64>,
        mote: u16,
    ) -> Result<(), AllocError>
        ensures moves_wake { OnOk result (MovesWake mote wake next self.old.buckets self.new.buckets) }
    {
        if wake == next {
            return Ok(());
        }
        self.drop_wake(wake, mote)?;
        self.put_next_wake(next, mote)?;
        Ok(())
    }

    /// Takes out all pending events of a mote at a moment. The mote's packets, in order, replace the contents of
    /// `arrivals`.
    ///
    /// # Errors
    /// `AllocError` if an allocation fails. Even in that case the events have been taken out, but `arrivals` may lack
    /// packets.
    pub fn take_due_into(
        &mut self,
        moment: u64,
        mote: u16,
        arrivals: &mut Vec<Arrival>,
    ) -> Result<(), AllocError>
        ensures copies { OnOk result (AreDue moment mote self.old.buckets arrivals.new.items) }
        ensures rest { TakesDue moment mote self.old.buckets self.new.buckets }
    {
        let Some(bucket) = self.buckets.get_mut(&moment) else {
            arrivals.clear();
            return Ok(());
        };
        let taken = bucket.take(mote, &mut self.lists, arrivals);
        if bucket.is_empty() {
            let _bucket = self.buckets.remove(&moment);
        }
        taken
    }

    /// The moment and the mote of the first pending event.
    pub fn first(&self) -> Option<(u64, u16)>
        ensures first { result ≡ first_key self.now.buckets }
        ensures least { (items : List Item) → HoldsItems self.now.buckets items
            → MatchOption result (items ≡ []) (λ p. IsLeast p.0 p.1 items) }
    {
        match self.buckets.first_key_value() {
            Some((moment, bucket)) => match bucket.first() {
                Some(mote) => Some((*moment, mote)),
                None => None,
            },
            None => None,
        }
    }

    /// The number of copies on their way. The function allocates nothing.
    ///
    /// # Errors
    /// Only if the number is above `u64::MAX`. No memory has room for so many copies.
    pub fn left(self) -> Result<u64, AllocError>
        ensures count { (items : List Item) → HoldsItems self.buckets items → IfOk result
            (λ left. left ≡ length (packets items)) }
    {
        let mut buckets = self.buckets;
        // The proof needs the fact that the keys rise. The contract of the map's length states this fact, so the
        // function asks for the length.
        let _length = buckets.len();
        let mut left = 0;
        while let Some((_, bucket)) = buckets.pop_first() {
            left = plus(left, bucket.copies())?;
        }
        Ok(left)
    }
}
