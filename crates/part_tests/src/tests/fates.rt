//! The fates of a packet in a medium with faults.

ghost use Rattle.std.specs.Prelude.{◌≡◌, length, IfOk};

use radio_faults::{Fault, fates_with};
use radio_medium::{Loss, Medium, MediumError, Place};
use radio_packet::Sent;
use std::alloc::Global;
use std::test::Fail;
use test_helpers::same_text;

/// Three motes in a line. Mote 1 hears both others, and both others hear mote 1. A packet needs 15 moments. Mote 0 loses
/// each second packet of mote 1.
fn three_motes(alloc: Global) -> Result<Medium, MediumError>
    ensures three_places { IfOk result (λ medium. length medium.places ≡ 3) }
{
    let places = [
        Place { x: 0, y: 0 },
        Place { x: 10, y: 0 },
        Place { x: 20, y: 0 },
    ];
    let loss = Loss {
        sender: 1,
        to: 0,
        every: 2,
    };
    Medium::new(alloc, &places, 15, 5, 10, &[loss])
}

/// Writes down the receiver and the arrival of each copy of packet number 0 of mote 1, which is sent at 100.
fn write_fates(text: &mut String, medium: &Medium, faults: &[Fault])
    requires three_places { length medium.now.places ≡ 3 }
{
    let sent = Sent {
        at: 100,
        sender: 1,
        number: 0,
        value: 7,
    };
    if let Ok(fates) = fates_with(medium, faults, &sent) {
        for fate in &fates {
            let _ = write!(text, "{} {:?} ", fate.to, fate.at);
        }
    }
    let _ = write!(text, "|");
}

/// Writes down the fates with several lists of faults.
fn write_all(text: &mut String, medium: &Medium)
    requires three_places { length medium.now.places ≡ 3 }
{
    write_fates(text, medium, &[]);
    write_fates(text, medium, &[Fault::Link(1, 2)]);
    write_fates(text, medium, &[Fault::Link(2, 1), Fault::Silent(0)]);
    write_fates(text, medium, &[Fault::Silent(1)]);
}

/// Packet 0 of mote 1, on its way to mote `to`, is lost or late.
fn lost(to: u16) -> Fault {
    Fault::Lost {
        sender: 1,
        number: 0,
        to,
    }
}

fn late(to: u16, by: u32) -> Fault {
    Fault::Late {
        sender: 1,
        number: 0,
        to,
        by,
    }
}

/// Writes down the fates with faults of single packets.
fn write_packets(text: &mut String, medium: &Medium)
    requires three_places { length medium.now.places ≡ 3 }
{
    let (sender, number) = (1, 0);
    write_fates(text, medium, &[lost(2)]);
    write_fates(text, medium, &[Fault::LostToAll { sender, number }]);
    write_fates(text, medium, &[late(0, 4)]);
    write_fates(text, medium, &[late(0, 4), late(2, 1), late(0, 3)]);
    write_fates(text, medium, &[late(2, u32::MAX), lost(0), lost(1)]);
}

/// Writes down the fates with faults of other packets, which change nothing.
fn write_others(text: &mut String, medium: &Medium)
    requires three_places { length medium.now.places ≡ 3 }
{
    let of_next = Fault::LostToAll {
        sender: 1,
        number: 1,
    };
    let back = Fault::Lost {
        sender: 2,
        number: 0,
        to: 1,
    };
    write_fates(text, medium, &[of_next, back]);
}

#[test]
fn broken_links_lose_the_packet(rt: HostRuntime) -> Result<(), Fail> {
    let mut text = String::new(rt.alloc());
    if let Ok(medium) = three_motes(rt.alloc()) {
        write_all(&mut text, &medium);
    }
    same_text(
        text.as_str(),
        "0 Some(115) 2 Some(115) |0 Some(115) 2 None |0 Some(115) 2 Some(115) |0 None 2 None |",
    )
}

#[test]
fn single_packets_are_lost_or_late(rt: HostRuntime) -> Result<(), Fail> {
    let mut text = String::new(rt.alloc());
    if let Ok(medium) = three_motes(rt.alloc()) {
        write_packets(&mut text, &medium);
        write_others(&mut text, &medium);
    }
    same_text(
        text.as_str(),
        "0 Some(115) 2 None |0 None 2 None |0 Some(119) 2 Some(115) |0 Some(122) 2 Some(116) |\
         0 None 2 Some(4294967410) |0 Some(115) 2 Some(115) |",
    )
}
