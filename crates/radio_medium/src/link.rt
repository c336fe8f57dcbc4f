//! Links: the way of a packet from one mote to another that hears it.

ghost use Rattle.std.specs.Prelude.{◌≡◌, ◌^◌, ◌<◌, ◌≤◌, ℕ, length, min, [], All, map, IfOk, if◌then◌else◌, Some, None};
ghost use Rattle.std.specs.List.{filter_map, flat_map, fold, reduce};
ghost use Rattle.radio_medium.specs.Medium.{hears, motes, IsWithinLimits, copy_of};
ghost use Rattle.radio_medium.specs.Groups.{AreGroups};
ghost use Rattle.radio_medium.specs.Links.{EveryByPair, every_at, radio_from, link_of, links_of, links_below};
ghost use Rattle.radio_medium.specs.Links.{fate_by, IsFit, with_least};

use crate::groups::{GROUP_SIZE, Group, groups_of};
use crate::losses::{EveryByPair, is_lost};
use crate::place::Place;
use crate::reach::Reach;
use radio_packet::{Fate, RadioCopy, Sent};
use std::alloc::{AllocError, Global};

/// The link from a sender to a mote that hears the sender. The medium keeps a list of links for each sender.
#[derive(Clone, Copy)]
pub(crate) struct Link {
    /// The receiver.
    pub(crate) to: u16,
    /// The number of moments that a packet needs.
    pub(crate) delay: u64,
    /// The length of a group of packets, if this link loses packets: it loses the last packet of each group.
    pub(crate) every: Option<u32>,
}

impl Link {
    /// The fate of the copy of a packet.
    fn fate(self, sent: &Sent) -> Fate
        requires fit { IsFit self }
        requires moment { sent.now.at ≤ 2 ^ 40 }
        ensures value { result ≡ fate_by sent.now self }
    {
        let at = if is_lost(sent.number, self.every) {
            None
        } else {
            Some(sent.at + self.delay)
        };
        Fate { to: self.to, at }
    }
}

/// The fate of a packet on each link.
pub(crate) fn fates_along(
    alloc: Global,
    links: &[Link],
    sent: &Sent,
) -> Result<Vec<Fate>, AllocError>
    requires fit { All IsFit links.now }
    requires moment { sent.now.at ≤ 2 ^ 40 }
    ensures fates { IfOk result (λ fates. fates.items ≡ map (fate_by sent.now) links.now) }
{
    let mut fates = Vec::with_capacity(alloc, links.len())?;
    for link in links {
        fates.push(link.fate(sent))?;
    }
    Ok(fates)
}

/// The copies of a packet on the links that don't lose them.
pub(crate) fn copies_along(
    alloc: Global,
    links: &[Link],
    sent: &Sent,
) -> Result<Vec<RadioCopy>, AllocError>
    requires fit { All IsFit links.now }
    requires moment { sent.now.at ≤ 2 ^ 40 }
    ensures copies { IfOk result (λ copies. copies.items
        ≡ filter_map (copy_of sent.now) (map (fate_by sent.now) links.now)) }
{
    let mut copies = Vec::new(alloc);
    for link in links {
        if let Some(copy) = copy_with(link.fate(sent), sent) {
            copies.push(copy)?;
        }
    }
    Ok(copies)
}

/// The copy that has this fate, if it isn't lost.
fn copy_with(fate: Fate, sent: &Sent) -> Option<RadioCopy>
    ensures value { result ≡ copy_of sent.now fate }
{
    fate.at.map(|at| RadioCopy {
        at,
        to: fate.to,
        sender: sent.sender,
        number: sent.number,
        value: sent.value,
    })
}

/// For each mote, the links to the motes that hear it, sorted by the receiver's number.
pub(crate) fn all_links(
    alloc: Global,
    places: &[Place],
    reach: Reach,
    every: &EveryByPair,
) -> Result<Vec<Vec<Link>>, AllocError>
    requires limits { IsWithinLimits (radio_from places.now reach []) }
    requires per { 0 < reach.per }
    ensures links { let radio = radio_from places.now reach [] in
        IfOk result (λ all. map (λ links. links.items) all.items
        ≡ map (links_of radio (every_at every.now)) (motes radio)) }
{
    let groups = groups_of(alloc, places)?;
    let mut all = Vec::with_capacity(alloc, places.len())?;
    for sender in 0..places.len() as u16 {
        all.push(links_from(alloc, places, &groups, reach, every, sender)?)?;
    }
    Ok(all)
}

/// The links from a mote to the motes that hear it, sorted by the receiver's number.
fn links_from(
    alloc: Global,
    places: &[Place],
    groups: &[Group],
    reach: Reach,
    every: &EveryByPair,
    sender: u16,
) -> Result<Vec<Link>, AllocError>
    requires limits { IsWithinLimits (radio_from places.now reach []) }
    requires groups { AreGroups places.now groups.now }
    requires per { 0 < reach.per }
    requires sender { sender < length places.now }
    ensures links { let radio = radio_from places.now reach [] in
        IfOk result (λ links. links.items ≡ links_of radio (every_at every.now) sender) }
{
    let from = places[usize::from(sender)];
    let mut links = Vec::new(alloc);
    for index in 0..groups.len() {
        if groups[index].is_near(reach.range, from) {
            let first = index * GROUP_SIZE;
            let after = places.len().min(first + GROUP_SIZE);
            put_links(
                &mut links,
                places,
                reach,
                every,
                sender,
                first as u16,
                after as u16,
            )?;
        }
    }
    Ok(links)
}

/// Appends the links from a mote to the motes with these numbers that hear it.
fn put_links(
    links: &mut Vec<Link>,
    places: &[Place],
    reach: Reach,
    every: &EveryByPair,
    sender: u16,
    first: u16,
    after: u16,
) -> Result<(), AllocError>
    requires limits { IsWithinLimits (radio_from places.now reach []) }
    requires per { 0 < reach.per }
    requires sender { sender < length places.now }
    requires order { first ≤ after }
    requires motes { after ≤ length places.now }
    requires so_far { let radio = radio_from places.now reach [] in
        links.old.items ≡ links_below radio (every_at every.now) sender first }
    ensures links { let radio = radio_from places.now reach [] in
        IfOk result (λ _. links.new.items ≡ links_below radio (every_at every.now) sender after) }
{
    let from = places[usize::from(sender)];
    for to in first..after {
        if reach.joins(from, places[usize::from(to)]) {
            if let Some(link) = link_between(places, reach, every, sender, to) {
                links.push(link)?;
            }
        }
    }
    Ok(())
}

/// The link from one mote to another, if the other one hears it.
#[tactic(auto, using(crate::proofs::Hearing::hears_between), unfolding(crate::specs::Medium::delay))]
fn link_between(
    places: &[Place],
    reach: Reach,
    every: &EveryByPair,
    sender: u16,
    to: u16,
) -> Option<Link>
    requires limits { IsWithinLimits (radio_from places.now reach []) }
    requires per { 0 < reach.per }
    requires sender { sender < length places.now }
    requires receiver { to < length places.now }
    ensures link { let radio = radio_from places.now reach [] in
        result ≡ if hears radio to sender then Some (link_of radio (every_at every.now) sender to) else None }
{
    if to == sender {
        return None;
    }
    let square_distance = places[usize::from(sender)].square_distance(places[usize::from(to)]);
    if !reach.covers(square_distance) {
        return None;
    }
    Some(Link {
        to,
        delay: reach.delay(square_distance),
        every: every.get(&(u32::from(sender), u32::from(to))).copied(),
    })
}

/// The least delay of all links, if there is a link.
pub(crate) fn least_delay(all: &[Vec<Link>]) -> Option<u64>
    ensures value { result
        ≡ reduce min (flat_map (λ links. map (λ link. link.delay) links) (map (λ links. links.items) all.now)) }
{
    let mut least = None;
    for links in all {
        least = lesser(least, links);
    }
    least
}

/// The least of these delays and the least delay so far.
fn lesser(least: Option<u64>, links: &[Link]) -> Option<u64>
    ensures value { result ≡ fold with_least least (map (λ link. link.delay) links.now) }
{
    let mut least = least;
    for link in links {
        least = Some(least.map_or(link.delay, |best| best.min(link.delay)));
    }
    least
}
