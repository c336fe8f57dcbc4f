//! Windows of motes. The tests poll them by hand.

ghost use Rattle.std.specs.Prelude.{◌≡◌, true, IfOk};
ghost use Rattle.worker_window.specs.MoteWindow.{is_rising};

use futures::Future;
use futures::task::Poll;
use futures::test::MockTask;
use mote_node::{Mote, MoteError};
use program_reader::read;
use program_tree::Program;
use radio_packet::RadioCopy;
use std::alloc::{AllocError, Global};
use std::random::RandomSource;
use std::test::Fail;
use test_helpers::{same_text, write_lines};
use worker_window::{MoteWindow, NoGate};

/// A process that prints, and then yields for ever.
const PRINT_THEN_YIELD: &str =
    "process a; autostart a; code a { body { print 1; yield; print 2; } }";

/// A process with three timers, all of which expire at 4.
const THREE_TIMERS: &str = "\
    process a; autostart a; code a { etimer s; etimer t; etimer u; body { set s 2; set t 4; set u 4; reset \
    s; while 1 { yield; if is(timer) { print data; } } } }";

/// The results of three polls of the window of this process's mote.
const THREE_TIMERS_RESULTS: &str = "\
    pending|pending|0 Start(Etimer)|0 Start(Ctimer)|0 Start(Radio)|0 Start(Own(0))|\
    4 Post(0, One(Own(0)), 136, 2)|4 Post(1, One(Own(0)), 136, 1)|4 Post(2, One(Own(0)), 136, 0)|\
    4 Take(0, Own(0))|4 Print(Own(0), 2)|4 Take(1, Own(0))|4 Print(Own(0), 1)|4 Take(2, Own(0))|\
    4 Print(Own(0), 0)|";

/// Polls a window once, and writes down the result.
fn write_poll(
    text: &mut String,
    task: &MockTask,
    window: &mut MoteWindow<'_, NoGate>,
) -> Result<(), AllocError> {
    match task.poll(window) {
        Poll::Ready(Ok(out)) => write_lines(text, &out.lines),
        Poll::Ready(Err(error)) => write!(text, "{error:?}|"),
        Poll::Pending => text.push_str("pending|"),
    }
}

/// Polls a mote's window up to 6 three times, and writes down the results.
fn write_three_polls(
    text: &mut String,
    alloc: Global,
    task: &MockTask,
    program: &Program,
    mote: Mote,
    copies: Vec<RadioCopy>,
) -> Result<(), AllocError>
    requires rising { is_rising copies.items ≡ true }
{
    let mut window = MoteWindow::new(alloc, mote, program, copies, 6, 0, &NoGate);
    for _ in 0..3u8 {
        write_poll(text, task, &mut window)?;
    }
    Ok(())
}

/// A copy that arrives at 3.
fn one_copy(alloc: Global) -> Result<Vec<RadioCopy>, AllocError>
    ensures rising { IfOk result (λ copies. is_rising copies.items ≡ true) }
{
    let copy = RadioCopy {
        at: 3,
        to: 0,
        sender: 1,
        number: 0,
        value: 9,
    };
    Ok(vec![in alloc; copy]?)
}

/// Writes down the results of three polls of a window. Either the mote is new, and no copy is on its way to it; or the
/// mote had a turn at 5, and a copy arrives too late.
fn write_mote(
    text: &mut String,
    alloc: Global,
    task: &MockTask,
    program: &Program,
    is_late: bool,
) -> Result<(), MoteError> {
    let mut mote = Mote::new(alloc, 0, program, 32)?;
    if !is_late {
        write_three_polls(text, alloc, task, program, mote, Vec::new(alloc))?;
        return Ok(());
    }
    let _out = mote.turn(program, 5, &[])?;
    let copies = one_copy(alloc)?;
    write_three_polls(text, alloc, task, program, mote, copies)?;
    Ok(())
}

/// Fails unless the text that is written about a mote of this program is `want`.
fn tells<R>(rt: &R, program: &str, is_late: bool, want: &str) -> Result<(), Fail>
where
    R: RandomSource + AllocGlobal,
{
    let program = read(rt.alloc(), program)?;
    let task = MockTask::new(rt)?;
    let mut text = String::new(rt.alloc());
    write_mote(&mut text, rt.alloc(), &task, &program, is_late)?;
    same_text(text.as_str(), want)
}

/// A process that is polled in each run of the kernel. It prints in its 192nd call after the first.
const BUSY: &str = "\
    process a; autostart a; code a { var n = 0; body { poll a; while 1 { yield; n = (n + 1); poll a; \
    if (n == 192) { print n; } } } }";

/// The results of the polls of the window of this process's mote up to 3.
const BUSY_RESULTS: &str = "\
    pending|pending|pending|0 Start(Etimer)|0 Start(Ctimer)|0 Start(Radio)|0 Start(Own(0))|2 Print(Own(0), 192)|";

/// Polls the windows of two new motes, the first up to 5 and the second up to 3, in this order. Writes down the result
/// of each poll.
fn write_two_windows(
    texts: &mut (String, String),
    alloc: Global,
    task: &MockTask,
    programs: (&Program, &Program),
    is_second: &[bool],
) -> Result<(), MoteError> {
    let first = Mote::new(alloc, 0, programs.0, 32)?;
    let second = Mote::new(alloc, 0, programs.1, 32)?;
    let none = Vec::new(alloc);
    let mut first = MoteWindow::new(alloc, first, programs.0, none, 5, 0, &NoGate);
    let none = Vec::new(alloc);
    let mut second = MoteWindow::new(alloc, second, programs.1, none, 3, 0, &NoGate);
    for is_second in is_second {
        if *is_second {
            write_poll(&mut texts.1, task, &mut second)?;
        } else {
            write_poll(&mut texts.0, task, &mut first)?;
        }
    }
    Ok(())
}

/// Fails unless the two windows have the expected results when they are polled in this order.
fn tell_two<R>(rt: &R, programs: (&Program, &Program), is_second: &[bool]) -> Result<(), Fail>
where
    R: RandomSource + AllocGlobal,
{
    let task = MockTask::new(rt)?;
    let mut texts = (String::new(rt.alloc()), String::new(rt.alloc()));
    write_two_windows(&mut texts, rt.alloc(), &task, programs, is_second)?;
    same_text(texts.0.as_str(), THREE_TIMERS_RESULTS)?;
    same_text(texts.1.as_str(), BUSY_RESULTS)
}

/// The windows of two motes have the same results whether they are polled alternately or one after the other.
#[test]
fn two_mote_futures(rt: HostRuntime) -> Result<(), Fail> {
    let timers = read(rt.alloc(), THREE_TIMERS)?;
    let busy = read(rt.alloc(), BUSY)?;
    let programs = (&timers, &busy);
    let in_turn = [false, true, false, true, false, true, true];
    tell_two(&rt, programs, &in_turn)?;
    let one_first = [false, false, false, true, true, true, true];
    tell_two(&rt, programs, &one_first)
}

/// The results of three polls of the window of a mote that has one turn: first pending, then ready; the third poll
/// fails.
const ONE_TURN_RESULTS: &str =
    "pending|0 Start(Etimer)|0 Start(Ctimer)|0 Start(Radio)|0 Start(Own(0))|0 Print(Own(0), 1)|Failed|";

/// A copy that arrives before a mote's last turn is too late. So the turn is refused, and the window fails.
#[test]
fn windows_of_one_mote(rt: HostRuntime) -> Result<(), Fail> {
    tells(&rt, PRINT_THEN_YIELD, false, ONE_TURN_RESULTS)?;
    tells(&rt, THREE_TIMERS, false, THREE_TIMERS_RESULTS)?;
    tells(&rt, PRINT_THEN_YIELD, true, "Past|Failed|Failed|")
}
