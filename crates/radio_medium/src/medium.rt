//! The medium of a net.

ghost use Rattle.std.specs.Prelude.{◌≡◌, ℕ, ◌+◌, ◌^◌, ◌<◌, ◌≤◌, None, length, All, IfOk};
ghost use Rattle.radio_medium.specs.Medium.{IsWithinLimits, medium_fault, square_distance, place_at};
ghost use Rattle.radio_medium.specs.Makes.{MakesMedium};
ghost use Rattle.radio_medium.specs.Medium.{every_of, hears, delay, lookahead, fates, copies};
ghost use Rattle.radio_medium.specs.Links.{links_of, IsFit};

use crate::error::MediumError;
use crate::link::{Link, all_links, copies_along, fates_along, least_delay};
use crate::losses::{Loss, gather_losses};
use crate::place::Place;
use crate::reach::Reach;
use radio_packet::{Fate, RadioCopy, Sent};
use std::alloc::{AllocError, Global};
use std::marker::Model;

/// The radio medium between motes that don't move. It finds the links of each mote once. So the cost of a packet grows
/// only with its number of receivers.
pub struct Medium {
    alloc: Global,
    places: Vec<Place>,
    reach: Reach,
    losses: Vec<Loss>,
    /// For each mote, the links to the motes that hear it, sorted by the receiver's number.
    links: Vec<Vec<Link>>,
    /// The least delay of all links.
    least_delay: Option<u64>,
}

/// Implemented by hand: for the checker, a function that owns a medium then drops it with a single call.
impl Drop for Medium {
    fn drop(self) {
        let Medium {
            alloc: _,
            places: _,
            reach: _,
            losses: _,
            links: _,
            least_delay: _,
        } = self;
    }
}

impl Model for Medium {
    ghost use Rattle.std.specs.Prelude.{map};
    ghost use Rattle.radio_medium.specs.Medium.{Radio};
    ghost use Rattle.radio_medium.specs.Links.{IsMedium, radio_from};

    ghost Value = { Radio };

    ghost view = { λ m. radio_from m.places.items m.reach m.losses.items };

    ghost invariant = { λ m. IsMedium (radio_from m.places.items m.reach m.losses.items)
        (map (λ links. links.items) m.links.items) m.least_delay };
}

impl Medium {
    /// Makes the medium of motes at these places, numbered from 0. A mote hears other motes within the range. A packet
    /// needs `base` moments, and one more moment for each whole `per` in the square of the distance.
    ///
    /// # Errors
    /// The first fault of the numbers and losses, or `Memory` if an allocation failed.
    pub fn new(
        alloc: Global,
        places: &[Place],
        range: u32,
        base: u32,
        per: u32,
        losses: &[Loss],
    ) -> Result<Medium, MediumError>
        requires is_within_limits { IsWithinLimits (record
            { places = places.now; range = range; base = base; per = per; losses = losses.now }) }
        ensures makes_medium { MakesMedium (record
            { places = places.now; range = range; base = base; per = per; losses = losses.now }) result }
    {
        if base == 0 {
            return Err(MediumError::ZeroBase);
        }
        if per == 0 {
            return Err(MediumError::ZeroPer);
        }
        let every = gather_losses(alloc, places.len(), losses)?;
        let reach = Reach { range, base, per };
        let links = all_links(alloc, places, reach, &every)?;
        let least_delay = least_delay(&links);
        Ok(Medium {
            alloc,
            places: places.to_vec(alloc)?,
            reach,
            losses: losses.to_vec(alloc)?,
            links,
            least_delay,
        })
    }

    /// Returns `true` if mote r hears mote s. No mote hears itself.
    #[tactic(auto, using(crate::proofs::Hearing::hears_between))]
    pub fn hears(&self, r: u16, s: u16) -> bool
        requires receiver { r < length self.now.places }
        requires sender { s < length self.now.places }
        ensures value { result ≡ hears self.now r s }
    {
        r != s && self.reach.covers(self.square_distance(s, r))
    }

    /// The number of moments that a packet needs from mote s to mote r, which hears it.
    #[tactic(auto, using(crate::proofs::Faults::per_above), unfolding(crate::specs::Medium::delay))]
    pub fn delay(&self, s: u16, r: u16) -> u64
        requires sender { s < length self.now.places }
        requires receiver { r < length self.now.places }
        ensures value { result ≡ delay self.now s r }
    {
        self.reach.delay(self.square_distance(s, r))
    }

    /// The least delay of all links. If there are no links, it is the first moment after the end.
    pub fn lookahead(&self, end: u64) -> u64
        requires end_bounded { end ≤ 2 ^ 40 }
        ensures value { result ≡ lookahead self.now end }
        ensures above_zero { 0 < result }
        ensures no_fault { medium_fault self.now ≡ None }
    {
        self.least_delay.unwrap_or(end + 1)
    }

    /// The fates of the copies of a packet, one for each mote that hears the sender, sorted by the receiver's number.
    ///
    /// # Errors
    /// If an allocation failed.
    pub fn fates(&self, sent: &Sent) -> Result<Vec<Fate>, AllocError>
        requires sender { sent.now.sender < length self.now.places }
        requires moment { sent.now.at ≤ 2 ^ 40 }
        ensures value { IfOk result (λ all. all.items ≡ fates self.now sent.now) }
    {
        fates_along(self.alloc, self.links_of(sent.sender), sent)
    }

    /// The copies of a packet that aren't lost, sorted by the receiver's number.
    ///
    /// # Errors
    /// If an allocation failed.
    pub fn copies(&self, sent: &Sent) -> Result<Vec<RadioCopy>, AllocError>
        requires sender { sent.now.sender < length self.now.places }
        requires moment { sent.now.at ≤ 2 ^ 40 }
        ensures value { IfOk result (λ all. all.items ≡ copies self.now sent.now) }
    {
        copies_along(self.alloc, self.links_of(sent.sender), sent)
    }

    /// The links from a mote to the motes that hear it.
    fn links_of(&self, s: u16) -> &[Link]
        requires sender { s < length self.now.places }
        ensures ways { result.now ≡ links_of self.now (every_of self.now.losses) s }
        ensures fit { All IsFit result.now }
    {
        &self.links[usize::from(s)]
    }

    fn square_distance(&self, s: u16, r: u16) -> u64
        requires sender { s < length self.now.places }
        requires receiver { r < length self.now.places }
        ensures value { result ≡ square_distance (place_at self.now s) (place_at self.now r) }
        ensures bound { result < 2 ^ 33 }
    {
        self.places[usize::from(s)].square_distance(self.places[usize::from(r)])
    }
}
