//! The keys that a run offers.

ghost use Rattle.std.specs.Prelude.{◌≡◌, ◌<◌, ◌≤◌, ◌++◌, ◌^◌, ◌&&◌, ◌∷◌, [], if◌then◌else◌, length, IfOk, OnOk};
ghost use Rattle.std.specs.List.{list_any};
ghost use Rattle.radio_faults.specs.Faults.{names};
ghost use Rattle.mote_net.specs.Report.{line_model, report_of};
ghost use Rattle.serial_run.specs.FaultLaws.{is_of_motes, is_some, may_change, names_copy_in, names_copy_of};
ghost use Rattle.fault_keys.specs.Keys.{fixed_keys, keys_of_copy, keys_of_fate, keys_of_packet, named_keys, new_keys};
ghost use Rattle.fault_keys.specs.Keys.{offered_keys, with_new};

use crate::keys::Candidates;
use mote_net::{LogLine, Report};
use radio_faults::Fault;
use radio_packet::{Fate, Sent};
use std::alloc::{AllocError, Global};

/// Returns `true` if a fault names this copy, and the copy isn't lost.
fn names_fate(fault: Fault, sent: &Sent, fate: &Fate) -> bool
    ensures value { result ≡ (names fault sent.now.sender sent.now.number fate.now.to && is_some fate.now.at) }
{
    fault.names(sent.sender, sent.number, fate.to) && fate.at.is_some()
}

/// Returns `true` if a fault names a copy of this packet that isn't lost.
fn names_copy_of(fault: Fault, line: &LogLine) -> bool
    ensures value { result ≡ names_copy_of fault (line_model line.now) }
{
    line.fates
        .iter()
        .any(|fate| names_fate(fault, &line.sent, fate))
}

/// Returns `true` if a fault names a copy in a report that isn't lost.
fn names_copy_in(fault: Fault, report: &Report) -> bool
    ensures value { result ≡ names_copy_in fault (report_of report.now) }
{
    names_copy_among(fault, &report.medium)
}

/// Returns `true` if a fault names a copy of some packets that isn't lost.
fn names_copy_among(fault: Fault, lines: &[LogLine]) -> bool
    ensures value { result ≡ list_any (λ line. names_copy_of fault (line_model line)) lines.now }
{
    lines.iter().any(|line| names_copy_of(fault, line))
}

/// Returns `true` if a mote is off because of this fault.
fn is_of_motes(fault: Fault) -> bool
    ensures value { result ≡ is_of_motes fault }
{
    match fault {
        Fault::Off { .. } => true,
        _ => false,
    }
}

/// Returns `true` if a fault may change the run with this report.
fn may_change(fault: Fault, report: &Report) -> bool
    ensures value { result ≡ may_change fault (report_of report.now) }
{
    is_of_motes(fault) || names_copy_in(fault, report)
}

/// Appends a key, if its fault is there.
fn add_if(keys: &mut Vec<u64>, is_there: bool, key: u64) -> Result<(), AllocError>
    ensures appended { OnOk result (keys.new.items ≡ keys.old.items ++ (if is_there then key ∷ [] else [])) }
{
    if is_there {
        keys.push(key)?;
    }
    Ok(())
}

/// Appends the keys of the fixed faults that may change the run with this report.
fn add_fixed_keys(
    candidates: &Candidates,
    report: &Report,
    keys: &mut Vec<u64>,
) -> Result<(), AllocError>
    ensures appended { OnOk result (keys.new.items
        ≡ keys.old.items ++ fixed_keys candidates.now.fixed.items (report_of report.now)) }
{
    for key in 0..candidates.fixed.len() {
        let is_there = may_change(candidates.fixed[key], report);
        add_if(keys, is_there, key as u64)?;
    }
    Ok(())
}

/// The packets below this number have keys.
const NUMBERS: u64 = 134_217_728;

/// Appends the keys of the faults of a copy.
fn add_copy_keys(
    candidates: &Candidates,
    sent: &Sent,
    to: u16,
    keys: &mut Vec<u64>,
) -> Result<(), AllocError>
    requires few_fixed { length candidates.now.fixed.items ≤ 2 ^ 32 }
    requires few_copies { length candidates.now.copies.items < 16 }
    requires number { sent.now.number < 2 ^ 27 }
    ensures appended { OnOk result (keys.new.items ≡ keys.old.items ++ keys_of_copy candidates.now.fixed.items
        candidates.now.copies.items sent.now.sender sent.now.number to) }
{
    let fixed = candidates.fixed.len() as u64;
    let kinds = candidates.copies.len() as u64;
    let copy = (sent.number * 65536 + u64::from(sent.sender)) * 65536 + u64::from(to);
    for kind in 0..kinds {
        keys.push(fixed + (copy * kinds + kind))?;
    }
    Ok(())
}

/// Appends the keys of the faults of the copies of a packet that aren't lost.
///
/// # Errors
/// `AllocError` if an allocation fails, or if the mote sent more than 134 million packets before.
fn add_packet_keys(
    candidates: &Candidates,
    line: &LogLine,
    keys: &mut Vec<u64>,
) -> Result<(), AllocError>
    requires few_fixed { length candidates.now.fixed.items ≤ 2 ^ 32 }
    requires few_copies { length candidates.now.copies.items < 16 }
    ensures appended { OnOk result (keys.new.items ≡ keys.old.items ++ keys_of_packet candidates.now.fixed.items
        candidates.now.copies.items (line_model line.now)) }
{
    if line.sent.number >= NUMBERS {
        return Err(AllocError);
    }
    for fate in &line.fates {
        if fate.at.is_some() {
            add_copy_keys(candidates, &line.sent, fate.to, keys)?;
        }
    }
    Ok(())
}

/// The keys of all faults that may change the run with this report.
fn named_keys(
    alloc: Global,
    candidates: &Candidates,
    report: &Report,
) -> Result<Vec<u64>, AllocError>
    requires few_fixed { length candidates.now.fixed.items ≤ 2 ^ 32 }
    requires few_copies { length candidates.now.copies.items < 16 }
    ensures value { IfOk result (λ v. v.items ≡ named_keys candidates.now.fixed.items candidates.now.copies.items
        (report_of report.now)) }
{
    let mut keys = Vec::new(alloc);
    add_fixed_keys(candidates, report, &mut keys)?;
    for line in &report.medium {
        add_packet_keys(candidates, line, &mut keys)?;
    }
    Ok(keys)
}

/// The keys that aren't in the set, each once.
fn new_keys(alloc: Global, set: &[u64], keys: &[u64]) -> Result<Vec<u64>, AllocError>
    ensures value { IfOk result (λ v. v.items ≡ new_keys set.now [] keys.now) }
{
    let mut known = Vec::new(alloc);
    for key in keys {
        add_new(set, *key, &mut known)?;
    }
    Ok(known)
}

/// Appends a key that is in none of two lists.
fn add_new(set: &[u64], key: u64, known: &mut Vec<u64>) -> Result<(), AllocError>
    ensures added { OnOk result (known.new.items ≡ with_new set.now known.old.items key) }
{
    if !set.contains(&key) && !known.contains(&key) {
        known.push(key)?;
    }
    Ok(())
}

/// The keys that the run with a set offers, if this is its report: those of the faults that aren't in the set and may
/// change the run, because a mote is off or a copy that isn't lost comes late or not at all.
///
/// # Errors
/// `AllocError` if an allocation fails, or if a mote sent more than 134 million packets.
pub fn offered_keys(
    alloc: Global,
    candidates: &Candidates,
    set: &[u64],
    report: &Report,
) -> Result<Vec<u64>, AllocError>
    requires few_fixed { length candidates.now.fixed.items ≤ 2 ^ 32 }
    requires few_copies { length candidates.now.copies.items < 16 }
    ensures value { IfOk result (λ v. v.items ≡ offered_keys candidates.now.fixed.items
        candidates.now.copies.items set.now (report_of report.now)) }
{
    let keys = named_keys(alloc, candidates, report)?;
    new_keys(alloc, set, &keys)
}
