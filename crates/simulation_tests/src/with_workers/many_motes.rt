//! Runs of 200 motes. Each worker takes the turns of its own motes.

use super::observer::Watch;
use super::{Trials, tells};
use std::alloc::{AllocError, Global};
use std::test::Fail;
use window_workers::Cut;

/// The beginning of a scenario, before its motes. They don't hear one another, and each of them has a turn at each of
/// the moments 0 to 9.
const HEAD: &str = "\
    version = 1\n\
    end = 9\n\
    [medium]\n\
    range = 10\n\
    base = 1\n\
    per = 100\n\
    [programs]\n\
    p = \"process a; autostart a; code a { etimer t; body { while 1 { set t 1; yield_until fired(t); } } }\"\n";

/// The scenario of 200 such motes.
fn scenario(alloc: Global) -> Result<String, AllocError> {
    let mut text = String::from_str(alloc, HEAD)?;
    for mote in 0..200u32 {
        let x = mote.wrapping_mul(20);
        write!(text, "[[mote]]\nx = {x}\ny = 0\nprogram = \"p\"\n")?;
    }
    Ok(text)
}

/// Each of four workers is started, with fork-join in each of two windows, and with null messages once. Each worker
/// takes the ten turns of each of its 50 motes, and no turn twice: 0x1f4 turns. These turns overlap in time: at each of
/// three moments of one window, all workers meet inside a turn.
#[test]
fn starts_and_turns_of_many_motes(rt: HostRuntime) -> Result<(), Fail> {
    let scenario = scenario(rt.alloc())?;
    let cut = Cut::block(rt.alloc(), 200, 4)?;
    tells(
        &rt,
        &Trials {
            scenario: scenario.as_str(),
            over_inboxes: false,
            cases: &[
                (Watch::Each, 4, cut.of.as_slice(), 5),
                (Watch::Meetings, 4, cut.of.as_slice(), 5),
            ],
            joins: "Same(0) 2000200020002 1f401f401f401f4|Same(0) 40404 40404|",
            marks: "Same(0) 1000100010001 1f401f401f401f4|Same(0) 40404 40404|",
        },
    )
}
