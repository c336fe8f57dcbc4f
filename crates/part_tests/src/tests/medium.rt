//! Media of a few motes.

ghost use Rattle.std.specs.Prelude.{◌≡◌, ◌≤◌, ◌<◌, length, IfOk};

use radio_medium::{Loss, Medium, MediumError, Place};
use radio_packet::Sent;
use std::alloc::Global;
use std::test::Fail;
use test_helpers::{same_text, write_copies};

/// Writes down the fates and the copies of a packet that was sent at 1 with value 7.
fn write_packet(text: &mut String, medium: &Medium, sender: u16, number: u64)
    requires sender { sender < length medium.now.places }
{
    let sent = Sent {
        at: 1,
        sender,
        number,
        value: 7,
    };
    if let Ok(fates) = medium.fates(&sent) {
        let _ = write!(text, "{fates:?}|");
    }
    if let Ok(copies) = medium.copies(&sent) {
        let _ = write_copies(text, copies.as_slice());
    }
}

/// Two motes at a distance of 5. A packet needs 2 moments, and one more moment for each 10 units of the squared
/// distance.
fn two_motes(alloc: Global, range: u32, losses: &[Loss]) -> Result<Medium, MediumError>
    requires range_bounded { range ≤ 100000 }
    ensures two_places { IfOk result (λ medium. length medium.places ≡ 2) }
{
    let places = [Place { x: 0, y: 0 }, Place { x: 3, y: 4 }];
    Medium::new(alloc, &places, range, 2, 10, losses)
}

/// Writes down whether each of two motes hears the other, whether a mote hears itself, the delay and the least delay
/// of a packet, and the fates of some packets.
fn write_hearing(text: &mut String, medium: &Medium)
    requires two_places { length medium.now.places ≡ 2 }
{
    let heard = [medium.hears(0, 1), medium.hears(1, 0), medium.hears(0, 0)];
    let delay = medium.delay(0, 1);
    let lookahead = medium.lookahead(9);
    let _ = write!(text, "{heard:?} {delay} {lookahead}|");
    write_packet(text, medium, 0, 0);
    write_packet(text, medium, 0, 1);
    write_packet(text, medium, 1, 1);
}

fn write_two_motes(
    alloc: Global,
    text: &mut String,
    range: u32,
    losses: &[Loss],
) -> Result<(), MediumError>
    requires range_bounded { range ≤ 100000 }
{
    let medium = two_motes(alloc, range, losses)?;
    write_hearing(text, &medium);
    Ok(())
}

/// Four motes. Mote 1 hears all others, and all others hear mote 1. Mote 2 is the nearest to mote 1, and mote 3 the
/// farthest. Mote 2 loses each third packet of mote 1.
fn four_motes(alloc: Global) -> Result<Medium, MediumError>
    ensures four_places { IfOk result (λ medium. length medium.places ≡ 4) }
{
    let places = [
        Place { x: -2, y: 0 },
        Place { x: 0, y: 0 },
        Place { x: -1, y: 0 },
        Place { x: 0, y: 3 },
    ];
    let loss = Loss {
        sender: 1,
        to: 2,
        every: 3,
    };
    Medium::new(alloc, &places, 3, 2, 1, &[loss])
}

/// Writes down copies: they are in the order of their receivers, not of their arrivals.
fn write_four_motes(alloc: Global, text: &mut String) -> Result<(), MediumError> {
    let medium = four_motes(alloc)?;
    write_packet(text, &medium, 1, 3);
    write_packet(text, &medium, 1, 2);
    let lookahead = medium.lookahead(9);
    let _ = write!(text, "{lookahead}|");
    Ok(())
}

/// The loss of each second packet of mote 0.
const EACH_SECOND: Loss = Loss {
    sender: 0,
    to: 1,
    every: 2,
};

/// Writes down the error of a refused medium and its number.
fn write_fault(text: &mut String, fault: Option<MediumError>) {
    let _ = match fault {
        Some(error) => write!(text, "{error:?} {}|", error.number()),
        None => text.push_str("none|"),
    };
}

/// Writes down the error for each kind of bad loss. Next to the bad loss there is always a good one.
fn write_bad_losses(alloc: Global, text: &mut String) {
    for (sender, to, every) in [(2, 1, 1), (0, 2, 1), (1, 1, 1), (1, 0, 0), (0, 1, 3)] {
        let losses = [EACH_SECOND, Loss { sender, to, every }];
        write_fault(text, two_motes(alloc, 5, &losses).err());
    }
}

/// Writes down which error is reported if there are several.
fn write_first_faults(alloc: Global, text: &mut String) {
    for (base, per) in [(0, 0), (1, 0), (1, 1)] {
        write_fault(
            text,
            Medium::new(alloc, &[], 0, base, per, &[EACH_SECOND]).err(),
        );
    }
}

fn write_media(alloc: Global, text: &mut String) -> Result<(), MediumError> {
    write_two_motes(alloc, text, 5, &[])?;
    // Motes farther apart than the range don't hear each other.
    write_two_motes(alloc, text, 4, &[])?;
    // Each second packet of mote 0 is lost, and no packet of mote 1.
    write_two_motes(alloc, text, 5, &[EACH_SECOND])?;
    write_four_motes(alloc, text)?;
    write_bad_losses(alloc, text);
    write_first_faults(alloc, text);
    Ok(())
}

#[test]
fn media_by_hand(rt: HostRuntime) -> Result<(), Fail> {
    let mut text = String::new(rt.alloc());
    write_media(rt.alloc(), &mut text)?;
    same_text(
        text.as_str(),
        "[true, true, false] 4 4|[Fate { to: 1, at: Some(5) }]|5 1 0 0 7|[Fate { to: 1, at: Some(5) }]|5 1 0 1 7|\
         [Fate { to: 0, at: Some(5) }]|5 0 1 1 7|[false, false, false] 4 10|[]|[]|[]|[true, true, false] 4 4|\
         [Fate { to: 1, at: Some(5) }]|5 1 0 0 7|[Fate { to: 1, at: None }]|[Fate { to: 0, at: Some(5) }]|5 0 1 1 7|\
         [Fate { to: 0, at: Some(7) }, Fate { to: 2, at: Some(4) }, Fate { to: 3, at: Some(12) }]|7 0 1 3 7|4 2 1 3 7|\
         12 3 1 3 7|[Fate { to: 0, at: Some(7) }, Fate { to: 2, at: None }, Fate { to: 3, at: Some(12) }]|7 0 1 2 7|\
         12 3 1 2 7|3|BadLoss 4|BadLoss 4|BadLoss 4|BadLoss 4|BadLoss 4|ZeroBase 2|ZeroPer 3|BadLoss 4|",
    )
}
