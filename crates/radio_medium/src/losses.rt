//! Losses: the copies from one mote to another that the medium loses.

ghost use Rattle.std.specs.Prelude.{◌≡◌, ◌<◌, ℕ, true, false, cond, Some, None, IsSome, Ok, Err, ◌⊎◌};
ghost use Rattle.std.specs.Option.{ForSome};
ghost use Rattle.radio_medium.specs.Medium.{is_good, is_for_pair, is_lost};
ghost use Rattle.radio_medium.specs.Links.{EveryByPair, every_at, GathersLosses, AddsLoss};

use crate::error::MediumError;
use std::alloc::Global;
use std::collections::HashMap;

/// A loss: the medium loses one of `every` copies from mote `sender` to mote `to`. The lost copies are those of the
/// packets whose number plus one is a multiple of `every`.
#[derive(Clone, Copy, Debug, PartialEq, Eq)]
pub struct Loss {
    pub sender: u32,
    pub to: u32,
    pub every: u32,
}

/// For each pair of a sender and a receiver with a loss, the length of a group of packets: the last packet of each
/// group is lost.
pub(crate) type EveryByPair = HashMap<(u32, u32), u32>;

/// A table of all losses, with the pairs of sender and receiver as keys. A bad loss is an error, and so is a second
/// loss for the same pair.
pub(crate) fn gather_losses(
    alloc: Global,
    motes: usize,
    losses: &[Loss],
) -> Result<EveryByPair, MediumError>
    ensures gathers_losses { GathersLosses motes losses.now result }
{
    let mut every = HashMap::new(alloc);
    for loss in losses {
        add_loss(&mut every, motes, *loss)?;
    }
    Ok(every)
}

/// Adds a loss. A bad loss is an error, and so is a second loss for the same pair.
fn add_loss(every: &mut EveryByPair, motes: usize, loss: Loss) -> Result<(), MediumError>
    ensures adds_loss { AddsLoss motes loss every.old every.new result }
{
    if !is_good(motes, loss) {
        return Err(MediumError::BadLoss);
    }
    match every.insert((loss.sender, loss.to), loss.every)? {
        Some(_) => Err(MediumError::BadLoss),
        None => Ok(()),
    }
}

/// Returns `true` if a loss is between two different motes of the net, and its `every` isn't 0.
fn is_good(motes: usize, loss: Loss) -> bool
    ensures value { result ≡ is_good motes loss }
{
    let is_there = (loss.sender as usize) < motes && (loss.to as usize) < motes;
    is_there && loss.sender != loss.to && loss.every != 0
}

/// Returns `true` if packet `number` is lost. The last packet in each group of `every` packets is lost. If `every` is
/// `None`, no packet is lost.
pub(crate) fn is_lost(number: u64, every: Option<u32>) -> bool
    requires positive { ForSome every (λ k. 0 < k) }
    ensures value { result ≡ is_lost number every }
{
    match every {
        None => false,
        Some(every) => number % u64::from(every) + 1 == u64::from(every),
    }
}
