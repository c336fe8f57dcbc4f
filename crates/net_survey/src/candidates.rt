//! The faults that a net may have.

ghost use Rattle.std.specs.Prelude.{◌≡◌, ◌<◌, ◌++◌, ◌∷◌, [], if◌then◌else◌, length, IfOk, OnOk};
ghost use Rattle.std.specs.List.{flat_map};
ghost use Rattle.mote_net.specs.Meaning.{net_of};
ghost use Rattle.net_survey.specs.Candidates.{fault_of_mote, fixed_faults, link_faults, links_from, of_each_mote};

use fault_keys::{Candidates, CopyFault};
use mote_net::Net;
use radio_faults::Fault;
use radio_medium::Medium;
use std::alloc::{AllocError, Global};

/// What happens to a single mote.
#[derive(Clone, Copy, Debug, PartialEq, Eq)]
pub enum MoteFault {
    /// The mote is silent.
    Silent,
    /// The mote is off from a moment up to another one, or from then on.
    Off { from: u64, until: Option<u64> },
}

impl MoteFault {
    fn of(self, mote: u16) -> Fault
        ensures value { result ≡ fault_of_mote self mote }
    {
        match self {
            MoteFault::Silent => Fault::Silent(mote),
            MoteFault::Off { from, until } => Fault::Off { mote, from, until },
        }
    }
}

/// The faults that come into question in a net: its broken links, if they are chosen, by sender, then receiver; what may
/// happen to each mote, first to all motes the first of these faults; and these faults of each copy that a run sends.
///
/// # Errors
/// `AllocError` if an allocation fails.
pub fn candidates_of(
    alloc: Global,
    net: &Net,
    links: bool,
    motes: &[MoteFault],
    copies: &[CopyFault],
) -> Result<Candidates, AllocError>
    ensures fixed { IfOk result (λ all. all.fixed.items ≡ fixed_faults links motes.now (net_of net.now).radio) }
    ensures copies { IfOk result (λ all. all.copies.items ≡ copies.now) }
{
    let fixed = fixed_of(alloc, net, links, motes)?;
    let copies = copies.to_vec(alloc)?;
    Ok(Candidates { fixed, copies })
}

/// The faults of a net that don't depend on its run.
fn fixed_of(
    alloc: Global,
    net: &Net,
    links: bool,
    faults: &[MoteFault],
) -> Result<Vec<Fault>, AllocError>
    ensures value { IfOk result (λ all. all.items ≡ fixed_faults links faults.now (net_of net.now).radio) }
{
    let mut all = Vec::new(alloc);
    if links {
        add_links(net.medium(), net.motes(), &mut all)?;
    }
    add_mote_faults(net.medium(), net.motes(), faults, &mut all)?;
    Ok(all)
}

/// Appends a fault, if it is there.
fn add_if(all: &mut Vec<Fault>, is_there: bool, fault: Fault) -> Result<(), AllocError>
    ensures appended { OnOk result (all.new.items ≡ all.old.items ++ (if is_there then fault ∷ [] else [])) }
{
    if is_there {
        all.push(fault)?;
    }
    Ok(())
}

/// Appends the broken links from a mote to each mote that hears it.
fn add_links_from(
    medium: &Medium,
    motes: u16,
    sender: u16,
    all: &mut Vec<Fault>,
) -> Result<(), AllocError>
    requires motes { motes ≡ length medium.now.places }
    requires mote_exists { sender < motes }
    ensures appended { OnOk result (all.new.items ≡ all.old.items ++ links_from medium.now sender) }
{
    for to in 0..motes {
        let is_there = medium.hears(to, sender);
        add_if(all, is_there, Fault::Link(sender, to))?;
    }
    Ok(())
}

/// Appends the broken links from each mote to each mote that hears it.
fn add_links(medium: &Medium, motes: u16, all: &mut Vec<Fault>) -> Result<(), AllocError>
    requires motes { motes ≡ length medium.now.places }
    ensures appended { OnOk result (all.new.items ≡ all.old.items ++ link_faults medium.now) }
{
    for sender in 0..motes {
        add_links_from(medium, motes, sender, all)?;
    }
    Ok(())
}

/// Appends this fault of each mote.
fn add_each(
    medium: &Medium,
    motes: u16,
    fault: MoteFault,
    all: &mut Vec<Fault>,
) -> Result<(), AllocError>
    requires motes { motes ≡ length medium.now.places }
    ensures appended { OnOk result (all.new.items ≡ all.old.items ++ of_each_mote medium.now fault) }
{
    for mote in 0..motes {
        all.push(fault.of(mote))?;
    }
    Ok(())
}

/// Appends each of these faults of each mote.
fn add_mote_faults(
    medium: &Medium,
    motes: u16,
    faults: &[MoteFault],
    all: &mut Vec<Fault>,
) -> Result<(), AllocError>
    requires motes { motes ≡ length medium.now.places }
    ensures appended { OnOk result (all.new.items ≡ all.old.items ++ flat_map (of_each_mote medium.now) faults.now) }
{
    for fault in faults {
        add_each(medium, motes, *fault, all)?;
    }
    Ok(())
}
