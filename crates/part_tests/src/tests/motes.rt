//! Turns of motes. Their lines were worked out by hand.

use super::PRINT_THEN_YIELD;
use mote_node::{Mote, MoteError, TurnOut};
use mote_program::read;
use process_kernel::KernelError;
use program_tree::Program;
use radio_packet::Arrival;
use std::alloc::{AllocError, Global};
use std::test::Fail;
use test_helpers::{same_text, write_lines, write_sends};

/// A process that sends one packet and then leaves.
const SENDER: &str = "process a; autostart a; code a { body { send (self + 5); } }";

/// A process that prints the sender and the value of each packet.
const RECEIVER: &str = "process r; autostart r; receiver r; code r { body { while 1 { yield; \
     if is(packet) { print from; print data; } } } }";

/// A turn: its moment, and the packets that arrive at that moment. All of them are packets of mote `sender`, numbered
/// from 0. The first packet has the value `value`, and the value of each later packet is greater by 1.
#[derive(Clone, Copy)]
struct Turn {
    moment: u16,
    packets: u16,
    sender: u16,
    value: u16,
}

/// A turn at which nothing arrives.
const QUIET: Turn = Turn {
    moment: 0,
    packets: 0,
    sender: 0,
    value: 0,
};

/// The packets that arrive at a turn.
fn arrivals(alloc: Global, turn: Turn) -> Result<Vec<Arrival>, AllocError> {
    let mut packets = Vec::new(alloc);
    for number in 0..turn.packets {
        packets.push(Arrival {
            sender: turn.sender,
            number: u64::from(number),
            value: turn.value.wrapping_add(number),
        })?;
    }
    Ok(packets)
}

/// Writes down the lines and packets of a turn, and when the mote wakes next.
fn write_out(text: &mut String, out: Result<TurnOut, MoteError>) {
    let _ = match out {
        Ok(out) => {
            let _ = write_lines(text, &out.lines);
            let _ = write_sends(text, &out.sends);
            let wake = out.wake;
            write!(text, "wake {wake:?}|")
        }
        Err(error) => write!(text, "{error:?}|"),
    };
}

/// Writes down the moment at which a mote asks to be woken next.
fn write_wake(text: &mut String, mote: &Mote) {
    let wake = mote.wake();
    let _ = write!(text, "{wake:?}|");
}

/// Makes a new mote of this number take these turns. Writes down the result of each turn, and when the mote asks to be
/// woken next.
fn write_turns(alloc: Global, text: &mut String, number: u16, program: &Program, turns: &[Turn]) {
    let Ok(mut mote) = Mote::new(alloc, number, program, 32) else {
        return;
    };
    write_wake(text, &mote);
    for turn in turns {
        if let Ok(packets) = arrivals(alloc, *turn) {
            let out = mote.turn(program, u64::from(turn.moment), &packets);
            write_out(text, out);
        }
        write_wake(text, &mote);
    }
}

/// Fails unless the text that is written about these turns is `want`.
fn tells(
    alloc: Global,
    number: u16,
    program: &str,
    turns: &[Turn],
    want: &str,
) -> Result<(), Fail> {
    let program = read(alloc, program)?;
    let mut text = String::new(alloc);
    write_turns(alloc, &mut text, number, &program, turns);
    same_text(text.as_str(), want)
}

/// A turn that isn't later than the last one is refused. After that a later turn is accepted.
const PAST_TURN: &str =
    "Some(0)|0 Start(Etimer)|0 Start(Ctimer)|0 Start(Radio)|0 Start(Own(0))|0 Print(Own(0), 1)|\
     wake None|None|Past|None|wake None|None|";

/// A program without a receiver is deaf to the packet of mote 4.
const DEAF: &str =
    "Some(0)|0 Start(Etimer)|0 Start(Ctimer)|0 Start(Radio)|0 Start(Own(0))|0 Print(Own(0), 1)|wake None|None|\
     2 Recv(4, 0, 9)|2 Deaf(4, 0)|wake None|None|";

/// Nine packets arrive at the same moment. The ring accepts eight of them, which are posted and then taken.
const NINE: &str =
    "Some(0)|0 Start(Etimer)|0 Start(Ctimer)|0 Start(Radio)|0 Start(Own(0))|wake None|None|3 Recv(0, 0, 0)|\
     3 Recv(0, 1, 1)|3 Recv(0, 2, 2)|3 Recv(0, 3, 3)|3 Recv(0, 4, 4)|3 Recv(0, 5, 5)|3 Recv(0, 6, 6)|3 Recv(0, 7, 7)|\
     3 Lost(0, 8)|3 Post(0, One(Own(0)), 138, 0)|3 Post(1, One(Own(0)), 138, 1)|3 Post(2, One(Own(0)), 138, 2)|\
     3 Post(3, One(Own(0)), 138, 3)|3 Post(4, One(Own(0)), 138, 4)|3 Post(5, One(Own(0)), 138, 5)|\
     3 Post(6, One(Own(0)), 138, 6)|3 Post(7, One(Own(0)), 138, 7)|3 Take(0, Own(0))|3 Print(Own(0), 0)|\
     3 Print(Own(0), 0)|3 Take(1, Own(0))|3 Print(Own(0), 0)|3 Print(Own(0), 1)|3 Take(2, Own(0))|3 Print(Own(0), 0)|\
     3 Print(Own(0), 2)|3 Take(3, Own(0))|3 Print(Own(0), 0)|3 Print(Own(0), 3)|3 Take(4, Own(0))|3 Print(Own(0), 0)|\
     3 Print(Own(0), 4)|3 Take(5, Own(0))|3 Print(Own(0), 0)|3 Print(Own(0), 5)|3 Take(6, Own(0))|3 Print(Own(0), 0)|\
     3 Print(Own(0), 6)|3 Take(7, Own(0))|3 Print(Own(0), 0)|3 Print(Own(0), 7)|wake None|None|";

/// Mote 0 sends one packet, and its process leaves.
const SENT: &str =
    "Some(0)|0 Start(Etimer)|0 Start(Ctimer)|0 Start(Radio)|0 Start(Own(0))|0 Send(0, 5)|\
     0 Leave(Own(0))|sent 0 0 0 5|wake None|None|";

/// The numbers of motes, their programs and turns, and the text that is written about these turns.
static CASES: [(u16, &str, &[Turn], &str); 4] = [
    (
        7,
        PRINT_THEN_YIELD,
        &[QUIET, QUIET, Turn { moment: 1, ..QUIET }],
        PAST_TURN,
    ),
    (
        0,
        PRINT_THEN_YIELD,
        &[
            QUIET,
            Turn {
                moment: 2,
                packets: 1,
                sender: 4,
                value: 9,
            },
        ],
        DEAF,
    ),
    (
        1,
        RECEIVER,
        &[
            QUIET,
            Turn {
                moment: 3,
                packets: 9,
                ..QUIET
            },
        ],
        NINE,
    ),
    (0, SENDER, &[QUIET], SENT),
];

/// Two motes that print, one that receives, and one that sends.
#[test]
fn mote_by_hand(rt: HostRuntime) -> Result<(), Fail> {
    for (number, program, turns, want) in CASES.as_slice() {
        tells(rt.alloc(), *number, program, turns, want)?;
    }
    Ok(())
}

/// The numbers of the errors of motes and of kernels.
#[test]
fn numbers_of_errors(rt: HostRuntime) {
    let motes = [
        MoteError::Memory as u8,
        MoteError::Failed as u8,
        MoteError::Past as u8,
    ];
    let kernels = [KernelError::Memory as u8, KernelError::Failed as u8];
    assert!(rt; motes == [1, 2, 3] && kernels == [1, 2]);
}
