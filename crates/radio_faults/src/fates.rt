//! The fates of a packet's copies in a medium with faults.

ghost use Rattle.std.specs.Prelude.{◌≡◌, ◌<◌, ◌≤◌, ◌^◌, length, map, IfOk, OnOk};
ghost use Rattle.radio_medium.specs.Medium.{fates};
ghost use Rattle.radio_faults.specs.Faults.{fate_after, fates_with, named_arrival};

use crate::fault::Fault;
use radio_medium::Medium;
use radio_packet::{Fate, Sent};
use std::alloc::AllocError;

/// The fates of the copies of a packet in the medium with these faults, one for each mote that hears the sender,
/// sorted by the receiver's number.
///
/// # Errors
/// If an allocation failed, or if a copy is so late that its moment doesn't fit into 64 bits. The latter takes more than
/// 4,294,967,000 faults of one copy.
pub fn fates_with(medium: &Medium, faults: &[Fault], sent: &Sent) -> Result<Vec<Fate>, AllocError>
    requires sender { sent.now.sender < length medium.now.places }
    requires moment { sent.now.at ≤ 2 ^ 40 }
    ensures value { IfOk result (λ all. all.items ≡ fates_with faults.now sent.now (fates medium.now sent.now)) }
{
    let mut all = medium.fates(sent)?;
    let mut left = faults.len();
    while left > 0 {
        left -= 1;
        put_fault(&mut all, faults[left], sent)?;
    }
    Ok(all)
}

/// Changes the fates of the copies that a fault names.
fn put_fault(all: &mut Vec<Fate>, fault: Fault, sent: &Sent) -> Result<(), AllocError>
    ensures value { OnOk result (all.new.items ≡ map (fate_after fault sent.now) all.old.items) }
{
    for place in 0..all.len() {
        let fate = fate_after(fault, sent, all[place])?;
        all[place] = fate;
    }
    Ok(())
}

/// The fate of a copy of a packet after a fault.
fn fate_after(fault: Fault, sent: &Sent, fate: Fate) -> Result<Fate, AllocError>
    ensures value { IfOk result (λ after. after ≡ fate_after fault sent.now fate) }
{
    match fate.at {
        Some(at) if fault.names(sent.sender, sent.number, fate.to) => Ok(Fate {
            to: fate.to,
            at: named_arrival(fault, at)?,
        }),
        _ => Ok(fate),
    }
}

/// When a copy arrives that the fault names, if it arrives at moment `at` without it. `None` if it is lost.
fn named_arrival(fault: Fault, at: u64) -> Result<Option<u64>, AllocError>
    ensures value { IfOk result (λ after. after ≡ named_arrival fault at) }
{
    match fault {
        Fault::Late { by, .. } => match at.checked_add(u64::from(by)) {
            Some(late) => Ok(Some(late)),
            None => Err(AllocError),
        },
        _ => Ok(None),
    }
}
