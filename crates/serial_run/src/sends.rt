//! Packets that are sent in a medium with faults: their copies go on the agenda, and the medium logs their fates.

ghost use Rattle.std.specs.Prelude.{◌≡◌, ◌<◌, ◌≤◌, ◌^◌, ◌++◌, length, map, OnOk};
ghost use Rattle.std.specs.List.{AllByRecursion};
ghost use Rattle.window_laws.specs.Agenda.{Packet};
ghost use Rattle.net_agenda.specs.Changes.{AddsItems};
ghost use Rattle.mote_net.specs.Report.{line_model};
ghost use Rattle.serial_run.specs.Counted.{all_copies};
ghost use Rattle.serial_run.specs.FaultRun.{packet_with};

use mote_net::LogLine;
use net_agenda::Agenda;
use radio_faults::{Fault, fates_with};
use radio_medium::Medium;
use radio_packet::Sent;
use std::alloc::AllocError;

/// Sends the packets of a mote's turn.
///
/// # Errors
/// `AllocError` if an allocation fails. In that case some of the packets may have been sent.
pub fn send_all(
    medium: &Medium,
    faults: &[Fault],
    sends: &[Sent],
    agenda: &mut Agenda,
    log: &mut Vec<LogLine>,
) -> Result<(), AllocError>
    requires sendable { AllByRecursion
        (λ sent. (sent.sender < length medium.now.places) × (sent.at ≤ 2 ^ 40)) sends.now }
    ensures agenda { OnOk result (AddsItems agenda.old.buckets agenda.new.buckets
        (map Packet (all_copies faults.now medium.now sends.now))) }
    ensures log { OnOk result (map line_model log.new.items ≡ map line_model log.old.items
        ++ map (packet_with faults.now medium.now) sends.now) }
{
    for sent in sends {
        let fates = fates_with(medium, faults, sent)?;
        agenda.put_fates(sent, &fates)?;
        log.push(LogLine { sent: *sent, fates })?;
    }
    Ok(())
}
