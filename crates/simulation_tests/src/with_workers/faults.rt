//! Runs with faults, whose reports were worked out by hand.

use net_scenario::{Net, read_scenario};
use radio_faults::Fault;
use serial_run::{Report, run_with_faults};
use std::alloc::{AllocError, Global};
use std::test::Fail;
use test_helpers::same_text;
use trace_lines::What;

/// Mote 0 sends a packet at 0, and prints the answer. Mote 1 prints the packet, and answers. A packet needs 2 moments.
const JOIN: &str = "\
    version = 1\n\
    end = 40\n\
    [medium]\n\
    range = 10\n\
    base = 2\n\
    per = 1000\n\
    [programs]\n\
    j = \"process j; autostart j; receiver j; code j { body { send 1; yield_until is(packet); print data; } }\"\n\
    r = \"process r; autostart r; receiver r; code r { body { while 1 { yield; if is(packet) { print data; \
    send 9; } } } }\"\n\
    [[mote]]\n\
    x = 0\n\
    y = 0\n\
    program = \"j\"\n\
    [[mote]]\n\
    x = 5\n\
    y = 0\n\
    program = \"r\"\n";

/// The first packet of mote 0, on its way to mote 1, and that of mote 1, on its way to mote 0.
const JOIN_IS_LOST: Fault = Fault::Lost {
    sender: 0,
    number: 0,
    to: 1,
};

const ANSWER_IS_LOST: Fault = Fault::LostToAll {
    sender: 1,
    number: 0,
};

/// The same packets, so much later.
const fn join_is_late(by: u32) -> Fault {
    Fault::Late {
        sender: 0,
        number: 0,
        to: 1,
        by,
    }
}

const fn answer_is_late(by: u32) -> Fault {
    Fault::Late {
        sender: 1,
        number: 0,
        to: 0,
        by,
    }
}

/// Writes down the lines `boots` and `print` of a mote: the mote, the moment and the value.
fn write_prints(text: &mut String, report: &Report, mote: usize) -> Result<(), AllocError> {
    if let Some(trace) = report.traces.get(mote) {
        for line in trace {
            match line.what {
                What::Boots => write!(text, "{mote} {} boots; ", line.at)?,
                What::Print(_, value) => write!(text, "{mote} {} {value}; ", line.at)?,
                _ => {}
            }
        }
    }
    Ok(())
}

/// Writes down the fates of the packets: the sender, the packet's number, the receiver, and the moment of arrival.
fn write_log(text: &mut String, report: &Report) -> Result<(), AllocError> {
    for packet in &report.medium {
        for fate in &packet.fates {
            write!(
                text,
                "{}.{} {} {:?}; ",
                packet.sent.sender, packet.sent.number, fate.to, fate.at
            )?;
        }
    }
    write!(text, "left {}|", report.left)
}

/// Writes down what is printed and sent in the run with these faults.
fn write_run(
    alloc: Global,
    net: &Net,
    faults: &[Fault],
    text: &mut String,
) -> Result<(), AllocError> {
    let report = run_with_faults(alloc, net, faults)?;
    write_prints(text, &report, 0)?;
    write_prints(text, &report, 1)?;
    write_log(text, &report)
}

fn write_losses(alloc: Global, net: &Net, text: &mut String) -> Result<(), AllocError> {
    write_run(alloc, net, &[], text)?;
    write_run(alloc, net, &[JOIN_IS_LOST], text)?;
    write_run(alloc, net, &[Fault::Link(0, 1)], text)?;
    write_run(alloc, net, &[ANSWER_IS_LOST], text)?;
    write_run(alloc, net, &[Fault::Silent(1)], text)
}

fn write_delays(alloc: Global, net: &Net, text: &mut String) -> Result<(), AllocError> {
    write_run(alloc, net, &[answer_is_late(30)], text)?;
    write_run(alloc, net, &[join_is_late(30), join_is_late(8)], text)?;
    write_run(alloc, net, &[join_is_late(39)], text)?;
    write_run(alloc, net, &[join_is_late(3), ANSWER_IS_LOST], text)
}

const fn off(mote: u16, from: u64, until: Option<u64>) -> Fault {
    Fault::Off { mote, from, until }
}

fn write_off(alloc: Global, net: &Net, text: &mut String) -> Result<(), AllocError> {
    write_run(alloc, net, &[off(1, 0, Some(2))], text)?;
    write_run(alloc, net, &[off(1, 0, Some(3))], text)?;
    write_run(alloc, net, &[off(0, 0, Some(7))], text)?;
    write_run(alloc, net, &[off(1, 3, None)], text)?;
    write_run(alloc, net, &[off(1, 2, None)], text)?;
    write_run(alloc, net, &[off(0, 4, None)], text)?;
    write_run(alloc, net, &[off(0, 0, None)], text)
}

fn write_boots(alloc: Global, net: &Net, text: &mut String) -> Result<(), AllocError> {
    write_run(alloc, net, &[off(1, 2, Some(2))], text)?;
    write_run(alloc, net, &[off(0, 3, Some(3))], text)?;
    write_run(alloc, net, &[off(0, 20, Some(20))], text)?;
    write_run(alloc, net, &[off(0, 3, Some(6))], text)?;
    write_run(alloc, net, &[off(0, 3, Some(6)), off(0, 5, Some(8))], text)?;
    write_run(alloc, net, &[off(0, 3, Some(6)), off(0, 5, None)], text)?;
    write_run(alloc, net, &[off(0, 1, Some(1)), off(0, 3, Some(3))], text)
}

/// A lost JOIN is never repeated. A late copy that arrives at the end is received, and after the end it is left.
#[test]
fn reports_with_faults(rt: HostRuntime) -> Result<(), Fail> {
    let net = read_scenario(rt.alloc(), JOIN)?;
    let mut text = String::new(rt.alloc());
    write_losses(rt.alloc(), &net, &mut text)?;
    same_text(
        text.as_str(),
        "0 4 9; 1 2 1; 0.0 1 Some(2); 1.0 0 Some(4); left 0|0.0 1 None; left 0|0.0 1 None; left 0|\
         1 2 1; 0.0 1 Some(2); 1.0 0 None; left 0|1 2 1; 0.0 1 Some(2); 1.0 0 None; left 0|",
    )?;
    let mut text = String::new(rt.alloc());
    write_delays(rt.alloc(), &net, &mut text)?;
    same_text(
        text.as_str(),
        "0 34 9; 1 2 1; 0.0 1 Some(2); 1.0 0 Some(34); left 0|1 40 1; 0.0 1 Some(40); 1.0 0 Some(42); left 1|\
         0.0 1 Some(41); left 1|1 5 1; 0.0 1 Some(5); 1.0 0 None; left 0|",
    )
}

/// A packet that arrives while its mote is off vanishes. A mote that is off from 0 to a moment boots at it, and receives what
/// arrives at it.
#[test]
fn reports_with_motes_that_are_off(rt: HostRuntime) -> Result<(), Fail> {
    let net = read_scenario(rt.alloc(), JOIN)?;
    let mut text = String::new(rt.alloc());
    write_off(rt.alloc(), &net, &mut text)?;
    same_text(
        text.as_str(),
        "0 4 9; 1 2 boots; 1 2 1; 0.0 1 Some(2); 1.0 0 Some(4); left 0|1 3 boots; 0.0 1 Some(2); left 0|\
         0 7 boots; 0 11 9; 1 9 1; 0.0 1 Some(9); 1.0 0 Some(11); left 0|0 4 9; 1 2 1; 0.0 1 Some(2); 1.0 0 Some(4); left 0|\
         0.0 1 Some(2); left 0|1 2 1; 0.0 1 Some(2); 1.0 0 Some(4); left 0|left 0|",
    )
}

/// A mote that boots again is as at first, but goes on numbering its packets: one that restarts when a packet arrives, one
/// that restarts before the answer, one that restarts when it has nothing left to do, one that misses the answer, one that is
/// off because of two faults and boots at the end of the later one, one that is off for good before it would boot, and one
/// that restarts twice.
#[test]
fn reports_with_motes_that_boot_again(rt: HostRuntime) -> Result<(), Fail> {
    let net = read_scenario(rt.alloc(), JOIN)?;
    let mut text = String::new(rt.alloc());
    write_boots(rt.alloc(), &net, &mut text)?;
    same_text(
        text.as_str(),
        "0 4 9; 1 2 boots; 1 2 1; 0.0 1 Some(2); 1.0 0 Some(4); left 0|\
         0 3 boots; 0 4 9; 1 2 1; 1 5 1; 0.0 1 Some(2); 1.0 0 Some(4); 0.1 1 Some(5); 1.1 0 Some(7); left 0|\
         0 4 9; 0 20 boots; 0 24 9; 1 2 1; 1 22 1; 0.0 1 Some(2); 1.0 0 Some(4); 0.1 1 Some(22); 1.1 0 Some(24); left 0|\
         0 6 boots; 0 10 9; 1 2 1; 1 8 1; 0.0 1 Some(2); 1.0 0 Some(4); 0.1 1 Some(8); 1.1 0 Some(10); left 0|\
         0 8 boots; 0 12 9; 1 2 1; 1 10 1; 0.0 1 Some(2); 1.0 0 Some(4); 0.1 1 Some(10); 1.1 0 Some(12); left 0|\
         1 2 1; 0.0 1 Some(2); 1.0 0 Some(4); left 0|\
         0 1 boots; 0 3 boots; 0 4 9; 1 2 1; 1 3 1; 1 5 1; 0.0 1 Some(2); 0.1 1 Some(3); 1.0 0 Some(4); 0.2 1 Some(5); \
         1.1 0 Some(5); 1.2 0 Some(7); left 0|",
    )
}
