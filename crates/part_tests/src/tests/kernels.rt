//! Kernels of whole programs. Their results and lines were worked out by hand.

use super::PRINT_THEN_YIELD;
use mote_program::read;
use process_kernel::{Kernel, KernelError, Out, Ran};
use program_tree::{Proc, Program};
use radio_packet::Arrival;
use std::alloc::Global;
use std::test::Fail;
use test_helpers::{same_text, write_lines, write_sends};

/// A process that sends one packet.
const SENDER: &str = "process a; autostart a; code a { body { send (self + 5); yield; } }";

const RUNAWAY: &str =
    "process a; autostart a; code a { var x = 0; body { while 1 { x = (x + 1); } } }";

const RECEIVER: &str = "process r; autostart r; receiver r; code r { body { while 1 { yield; \
     if is(packet) { print from; print data; } } } }";

/// A call of a kernel.
#[derive(Clone, Copy)]
enum Act {
    /// Reads the kernel's number, whether it is booted, halted and pending, and when its next timer expires.
    Look,
    /// Boots the kernel at moment 0.
    Boot,
    /// Adds this many packets of mote 3 to the kernel's ring. The value of each packet is its number.
    Packets(u16),
    /// Asks the kernel to poll a process.
    Poll(Proc),
    /// Runs the kernel at this moment until no work is left.
    RunOut(u16),
}

/// The result of the last of at most 65 runs at this moment.
fn run_out(
    program: &Program,
    kernel: &mut Kernel,
    now: u16,
    out: &mut Out,
) -> Result<Ran, KernelError> {
    for _ in 0..64u8 {
        let ran = kernel.run(program, u64::from(now), out)?;
        if ran == Ran::Left(0) || ran == Ran::Halted {
            return Ok(ran);
        }
    }
    kernel.run(program, u64::from(now), out)
}

/// The number of packets, of `count`, that the ring accepts.
fn packets_taken(kernel: &mut Kernel, count: u16) -> u32 {
    let mut taken = 0u32;
    for number in 0..count {
        let packet = Arrival {
            sender: 3,
            number: u64::from(number),
            value: number,
        };
        taken = taken.wrapping_add(u32::from(kernel.accept_packet(packet)));
    }
    taken
}

fn write_look(text: &mut String, kernel: &Kernel) {
    let number = kernel.number();
    let booted = kernel.is_booted();
    let halted = kernel.is_halted();
    let pending = kernel.pending();
    let next = kernel.next_expiration();
    let _ = write!(text, "{number} {booted} {halted} {pending} {next:?}|");
}

fn write_ran(text: &mut String, ran: Result<Ran, KernelError>) {
    let _ = match ran {
        Ok(ran) => write!(text, "{ran:?}|"),
        Err(error) => write!(text, "{error:?}|"),
    };
}

/// Makes a call, and writes down its result.
fn write_act(text: &mut String, program: &Program, kernel: &mut Kernel, out: &mut Out, act: Act) {
    match act {
        Act::Look => write_look(text, kernel),
        Act::Boot => write_ran(text, kernel.boot(program, 0, out)),
        Act::Packets(count) => {
            let taken = packets_taken(kernel, count);
            let _ = write!(text, "{taken} taken|");
        }
        Act::Poll(process) => kernel.poll(process),
        Act::RunOut(now) => write_ran(text, run_out(program, kernel, now, out)),
    }
}

/// Writes down the lines and packets since the previous call of this function.
fn write_out(text: &mut String, out: &mut Out) {
    let _ = write_lines(text, &out.lines);
    let _ = write_sends(text, &out.sends);
    out.lines.clear();
    out.sends.clear();
}

/// Makes all these calls of a new kernel of mote 7. For each call, writes down its result, its lines and its packets.
fn write_acts(alloc: Global, text: &mut String, program: &Program, acts: &[Act]) {
    let Ok(mut kernel) = Kernel::new(alloc, program, 7, 32) else {
        return;
    };
    let mut out = Out {
        lines: Vec::new(alloc),
        sends: Vec::new(alloc),
    };
    for act in acts {
        write_act(text, program, &mut kernel, &mut out, *act);
        write_out(text, &mut out);
    }
}

/// Fails unless the text that is written about these calls is `want`.
fn tells(alloc: Global, program: &str, acts: &[Act], want: &str) -> Result<(), Fail> {
    let program = read(alloc, program)?;
    let mut text = String::new(alloc);
    write_acts(alloc, &mut text, &program, acts);
    same_text(text.as_str(), want)
}

/// Programs, the calls of their kernels, and the text that is written about these calls.
static CASES: [(&str, &[Act], &str); 5] = [
    // After the boot, the process waits for an event, and nothing is left to do.
    (
        PRINT_THEN_YIELD,
        &[Act::Look, Act::Boot, Act::Look, Act::RunOut(1)],
        "7 false false false None|Left(0)|0 Start(Etimer)|0 Start(Ctimer)|0 Start(Radio)|0 Start(Own(0))|\
         0 Print(Own(0), 1)|7 true false false None|Left(0)|",
    ),
    (
        SENDER,
        &[Act::Look, Act::Boot, Act::Look],
        "7 false false false None|Left(0)|0 Start(Etimer)|0 Start(Ctimer)|0 Start(Radio)|0 Start(Own(0))|\
         0 Send(0, 12)|sent 0 7 0 12|7 true false false None|",
    ),
    // A mote that has halted stays halted, and writes nothing more.
    (
        RUNAWAY,
        &[Act::Boot, Act::Look, Act::RunOut(1)],
        "Halted|0 Start(Etimer)|0 Start(Ctimer)|0 Start(Radio)|0 Start(Own(0))|0 Halt|7 true true false None|Halted|",
    ),
    // The ring holds eight packets. It refuses the ninth and the tenth.
    (
        RECEIVER,
        &[
            Act::Boot,
            Act::Packets(10),
            Act::Look,
            Act::Poll(Proc::Radio),
            Act::Look,
            Act::RunOut(2),
        ],
        "Left(0)|0 Start(Etimer)|0 Start(Ctimer)|0 Start(Radio)|0 Start(Own(0))|8 taken|7 true false false None|\
         7 true false true None|Left(0)|2 Post(0, One(Own(0)), 138, 0)|2 Post(1, One(Own(0)), 138, 1)|\
         2 Post(2, One(Own(0)), 138, 2)|2 Post(3, One(Own(0)), 138, 3)|2 Post(4, One(Own(0)), 138, 4)|\
         2 Post(5, One(Own(0)), 138, 5)|2 Post(6, One(Own(0)), 138, 6)|2 Post(7, One(Own(0)), 138, 7)|\
         2 Take(0, Own(0))|2 Print(Own(0), 3)|2 Print(Own(0), 0)|2 Take(1, Own(0))|2 Print(Own(0), 3)|\
         2 Print(Own(0), 1)|2 Take(2, Own(0))|2 Print(Own(0), 3)|2 Print(Own(0), 2)|2 Take(3, Own(0))|\
         2 Print(Own(0), 3)|2 Print(Own(0), 3)|2 Take(4, Own(0))|2 Print(Own(0), 3)|2 Print(Own(0), 4)|\
         2 Take(5, Own(0))|2 Print(Own(0), 3)|2 Print(Own(0), 5)|2 Take(6, Own(0))|2 Print(Own(0), 3)|\
         2 Print(Own(0), 6)|2 Take(7, Own(0))|2 Print(Own(0), 3)|2 Print(Own(0), 7)|",
    ),
    // If a program has no receiver, nobody receives its packets.
    (
        SENDER,
        &[
            Act::Boot,
            Act::Packets(1),
            Act::Poll(Proc::Radio),
            Act::RunOut(2),
        ],
        "Left(0)|0 Start(Etimer)|0 Start(Ctimer)|0 Start(Radio)|0 Start(Own(0))|0 Send(0, 12)|\
         sent 0 7 0 12|1 taken|Left(0)|2 Deaf(3, 0)|",
    ),
];

/// The results and the lines of kernels.
#[test]
fn kernels_by_hand(rt: HostRuntime) -> Result<(), Fail> {
    for (program, acts, want) in CASES.as_slice() {
        tells(rt.alloc(), program, acts, want)?;
    }
    Ok(())
}
