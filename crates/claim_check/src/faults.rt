//! The faults of a run.
ghost use Rattle.std.specs.Prelude.{◌≡◌, ◌++◌, IfErr, IfOk, OnOk, string_bytes};
ghost use Rattle.std.specs.List.{list_any};
ghost use Rattle.mote_net.specs.Meaning.{net_of};
ghost use Rattle.mote_net.specs.Report.{line_model, report_of};
ghost use Rattle.claim_check.specs.Faults.{AreFaultsOf, RefusesFaultsOf, first_missing, is_in, is_link, is_mote};
ghost use Rattle.serial_run.specs.FaultLaws.{is_of_motes};
ghost use Rattle.claim_check.specs.Faults.{is_used, names_copy_in, names_copy_of, unused_line, unused_text};

use crate::error::CheckError;
use mote_net::{LogLine, Net, Report};
use radio_faults::{Fault, FaultText, read_faults};
use std::alloc::{AllocError, Global};

/// Returns `true` if the net has a mote with this number.
fn is_mote(net: &Net, mote: u16) -> bool
    ensures value { result ≡ is_mote (net_of net.now) mote }
{
    mote < net.motes()
}

/// Returns `true` if the second mote hears the first.
fn is_link(net: &Net, from: u16, to: u16) -> bool
    ensures value { result ≡ is_link (net_of net.now) from to }
{
    is_mote(net, from) && is_mote(net, to) && net.medium().hears(to, from)
}

/// Returns `true` if the net has the motes and the link that a fault names.
fn is_in(net: &Net, fault: Fault) -> bool
    ensures value { result ≡ is_in (net_of net.now) fault }
{
    match fault {
        Fault::Link(from, to) => is_link(net, from, to),
        Fault::Silent(mote) => is_mote(net, mote),
        Fault::Off {
            mote,
            from: _,
            until: _,
        } => is_mote(net, mote),
        Fault::Lost {
            sender,
            number: _,
            to,
        } => is_link(net, sender, to),
        Fault::LostToAll { sender, number: _ } => is_mote(net, sender),
        Fault::Late {
            sender,
            number: _,
            to,
            by: _,
        } => is_link(net, sender, to),
    }
}

/// Returns the number, from 1, of the first fault that names what the net doesn't have.
fn first_missing(net: &Net, faults: &[Fault]) -> Option<usize>
    ensures value { result ≡ first_missing (net_of net.now) faults.now }
{
    for place in 0..faults.len() {
        if !is_in(net, faults[place]) {
            return Some(place + 1);
        }
    }
    None
}

/// Reads the faults of a net, one a line.
///
/// # Errors
/// `Faults` if the text isn't read; otherwise `NotInNet` with the first fault that names what the net doesn't have.
pub fn faults_of_net(alloc: Global, net: &Net, text: &str) -> Result<Vec<Fault>, CheckError>
    ensures are_faults { IfOk result (λ faults. AreFaultsOf (net_of net.now) text.now faults.items) }
    ensures refused { IfErr result (RefusesFaultsOf (net_of net.now) text.now) }
{
    let faults = read_faults(alloc, text.as_bytes())?;
    match first_missing(net, faults.as_slice()) {
        Some(number) => Err(CheckError::NotInNet(number)),
        None => Ok(faults),
    }
}

/// Returns `true` if a fault names a copy of this packet.
fn names_copy_of(fault: Fault, line: &LogLine) -> bool
    ensures value { result ≡ names_copy_of fault (line_model line.now) }
{
    let sent = &line.sent;
    line.fates
        .iter()
        .any(|fate| fault.names(sent.sender, sent.number, fate.to))
}

/// Returns `true` if a fault names a copy of some packets.
fn names_copy_among(fault: Fault, lines: &[LogLine]) -> bool
    ensures value { result ≡ list_any (λ line. names_copy_of fault (line_model line)) lines.now }
{
    lines.iter().any(|line| names_copy_of(fault, line))
}

/// Returns `true` if a fault names a copy in a report.
fn names_copy_in(fault: Fault, report: &Report) -> bool
    ensures value { result ≡ names_copy_in fault (report_of report.now) }
{
    names_copy_among(fault, &report.medium)
}

/// Returns `true` if a mote is off because of this fault.
fn is_of_motes(fault: Fault) -> bool
    ensures value { result ≡ is_of_motes fault }
{
    match fault {
        Fault::Off { .. } => true,
        _ => false,
    }
}

/// Returns `true` if a mote is off because of a fault, or the fault names a copy in a report.
fn is_used(fault: Fault, report: &Report) -> bool
    ensures value { result ≡ is_used fault (report_of report.now) }
{
    is_of_motes(fault) || names_copy_in(fault, report)
}

/// Appends a line for a fault that names no copy in a report.
fn put_if_unused(
    alloc: Global,
    text: &mut String,
    fault: Fault,
    report: &Report,
) -> Result<(), AllocError>
    ensures appended { OnOk result (string_bytes text.new
        ≡ string_bytes text.old ++ unused_line (report_of report.now) fault) }
{
    if is_used(fault, report) {
        return Ok(());
    }
    let shown = FaultText(fault);
    let line = format!(in alloc; "unused: {shown}\n")?;
    text.push_str(line.as_str())
}

/// Returns a line for each fault that names no copy in a report.
///
/// # Errors
/// If an allocation failed.
pub fn unused_in(alloc: Global, faults: &[Fault], report: &Report) -> Result<String, AllocError>
    ensures text { IfOk result (λ text. string_bytes text ≡ unused_text faults.now (report_of report.now)) }
{
    let mut text = String::new(alloc);
    for fault in faults {
        put_if_unused(alloc, &mut text, *fault, report)?;
    }
    Ok(text)
}
