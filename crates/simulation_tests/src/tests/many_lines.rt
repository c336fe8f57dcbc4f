//! A run to the last moment that a scenario can have, with so many lines that workers print them.

use super::{OnRecord, PRINTING, SYNCS, Trial, Trials, Way, each_tells, tells};
use simulation::CutKind;
use std::alloc::AllocError;
use std::random::RandomSource;
use std::rt::Files;
use std::sync::Wait;
use std::test::Fail;
use std::thread::Threads;

/// One mote with a timer that expires every 125 moments.
const EACH_125: &str = "\
    version = 1\n\
    end = 1000000\n\
    [medium]\n\
    range = 10\n\
    base = 1\n\
    per = 100\n\
    [programs]\n\
    p = \"process a; autostart a; code a { etimer t; body { set t 125; while 1 { yield_until fired(t); print 7; \
    reset t; } } }\"\n\
    [[mote]]\n\
    x = 0\n\
    y = 0\n\
    program = \"p\"\n";

/// The number of times that the timer expires.
const TIMES: u64 = 8_000;

/// Writes the expected report of this mote.
fn write_report_of_125(text: &mut String) -> Result<(), AllocError> {
    text.push_str("mote 0 p\n0 start etimer\n0 start ctimer\n0 start radio\n0 start a\n")?;
    for serial in 0..TIMES {
        let at = (serial + 1) * 125;
        write!(
            text,
            "{at} post {serial} a timer 0\n{at} take {serial} a\n{at} print a 7\n"
        )?;
    }
    text.push_str("medium\nleft 0\n")
}

/// A trial of this run. Its streams read and write all bytes in one call.
fn running(report: &str) -> Trial<'_> {
    Trial {
        on_record: OnRecord {
            scenario: EACH_125,
            report: report.as_bytes(),
        },
        gives: usize::MAX,
        takes: usize::MAX,
        ..PRINTING
    }
}

/// Fails unless one thread writes the whole report.
fn writes_alone<T>(rt: &T, report: &str) -> Result<(), Fail>
where
    T: AllocGlobal + Files + Threads + Wait + RandomSource + Sync,
{
    let mut want = String::new(rt.alloc());
    write!(want, "Ok(()) Some({}) 0 0 0|", report.len())?;
    tells(rt, running(report), Way::Serial, want.as_str())
}

/// Fails unless this many workers write the whole report. Each worker is started once: no packet is sent, so there is
/// only one window.
fn writes_by<T>(rt: &T, report: &str, workers: u16) -> Result<(), Fail>
where
    T: AllocGlobal + Files + Threads + Wait + RandomSource + Sync,
{
    let mut want = String::new(rt.alloc());
    write!(
        want,
        "Ok(()) Some({}) {workers} {} 0|",
        report.len(),
        TIMES + 1
    )?;
    each_tells(
        rt,
        &Trials {
            trial: running(report),
            workers: &[Some(workers)],
            cuts: &[CutKind::Block],
            syncs: SYNCS,
            want: want.as_str(),
        },
    )
}

#[test]
fn lines_up_to_the_last_moment(rt: HostRuntime) -> Result<(), Fail> {
    let mut report = String::new(rt.alloc());
    write_report_of_125(&mut report)?;
    writes_alone(&rt, report.as_str())?;
    writes_by(&rt, report.as_str(), 3)
}
