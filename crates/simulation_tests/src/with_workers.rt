//! Most tests write their observations into one text, and a shared function compares this text once. So a test owns
//! few values when it ends early: owning many values there would make its proof expensive.

mod faults;
mod few_bytes;
mod inboxes;
mod many_motes;
mod nets;
mod observer;
mod polled;
mod runs;
mod shares;
mod windows;

use few_bytes::FewBytes;
use inboxes::write_inboxes;
use net_scenario::{Net, read_scenario};
use observer::{Observer, Watch};
use std::alloc::{AllocError, AllocGlobal, Global};
use std::random::RandomSource;
use std::sync::Wait;
use std::test::Fail;
use std::thread::Threads;
use test_helpers::same_text;
use window_workers::{Cut, Report, RunError, SyncKind, run_serial, run_workers};

/// A mote that sends a packet at 2. Another mote, next to it, gets the packet at 5.
const PACKET_AFTER_TIMER: &str = "\
    version = 1\n\
    end = 5\n\
    [medium]\n\
    range = 1\n\
    base = 3\n\
    per = 100\n\
    [programs]\n\
    s = \"process a; autostart a; code a { etimer t; body { set t 2; yield_until fired(t); send 9; } }\"\n\
    r = \"process r; autostart r; receiver r; code r { body { while 1 { yield; if is(packet) { print from; \
    print data; } } } }\"\n\
    [[mote]]\n\
    x = 0\n\
    y = 0\n\
    program = \"s\"\n\
    [[mote]]\n\
    x = 0\n\
    y = 1\n\
    program = \"r\"\n";

/// The same motes, but the run ends before the packet arrives.
const COPY_PAST_THE_END: &str = "\
    version = 1\n\
    end = 4\n\
    [medium]\n\
    range = 1\n\
    base = 3\n\
    per = 100\n\
    [programs]\n\
    s = \"process a; autostart a; code a { etimer t; body { set t 2; yield_until fired(t); send 9; } }\"\n\
    r = \"process r; autostart r; receiver r; code r { body { while 1 { yield; if is(packet) { print from; \
    print data; } } } }\"\n\
    [[mote]]\n\
    x = 0\n\
    y = 0\n\
    program = \"s\"\n\
    [[mote]]\n\
    x = 0\n\
    y = 1\n\
    program = \"r\"\n";

/// Two motes that don't hear one another, each with a turn at the moments 0, 1 and 2.
const BUSY_PAIR: &str = "\
    version = 1\n\
    end = 2\n\
    [medium]\n\
    range = 10\n\
    base = 1\n\
    per = 100\n\
    [programs]\n\
    p = \"process a; autostart a; code a { var n = 0; body { poll a; while 1 { yield; n = (n + 1); poll a; \
    if (n == 192) { print n; } } } }\"\n\
    [[mote]]\n\
    x = 0\n\
    y = 0\n\
    program = \"p\"\n\
    [[mote]]\n\
    x = 20\n\
    y = 0\n\
    program = \"p\"\n";

/// Three motes of the same kind.
const BUSY_TRIO: &str = "\
    version = 1\n\
    end = 2\n\
    [medium]\n\
    range = 10\n\
    base = 1\n\
    per = 100\n\
    [programs]\n\
    p = \"process a; autostart a; code a { var n = 0; body { poll a; while 1 { yield; n = (n + 1); poll a; \
    if (n == 192) { print n; } } } }\"\n\
    [[mote]]\n\
    x = 0\n\
    y = 0\n\
    program = \"p\"\n\
    [[mote]]\n\
    x = 20\n\
    y = 0\n\
    program = \"p\"\n\
    [[mote]]\n\
    x = 40\n\
    y = 0\n\
    program = \"p\"\n";

/// The common data of runs: a net, the text of its report from one thread, a kind of synchronisation, and whether the
/// test makes the inboxes of the workers.
#[derive(Clone, Copy)]
struct Scene<'a> {
    net: &'a Net,
    one: &'a str,
    sync: SyncKind,
    over_inboxes: bool,
}

/// A run: what its gate observes, the number of workers, the worker of each mote, and the greatest length of a window
/// (0 means that there is no limit).
type Case<'a> = (Watch, u16, &'a [u16], u32);

/// Runs of one scenario, and the texts that are written about them with fork-join and with null messages.
#[derive(Clone, Copy)]
struct Trials<'a> {
    scenario: &'a str,
    over_inboxes: bool,
    cases: &'a [Case<'a>],
    joins: &'a str,
    marks: &'a str,
}

/// Writes down whether a report is the same as that of one thread, and how many copies are left in it.
fn write_report(
    alloc: Global,
    one: &str,
    report: &Report,
    text: &mut String,
) -> Result<(), AllocError> {
    let actual = format!(in alloc; "{report:?}")?;
    if actual.as_str() == one {
        write!(text, "Same({})", report.left)
    } else {
        text.push_str("Other")
    }
}

/// Writes down the result of a run: a report or an error.
fn write_result(
    alloc: Global,
    one: &str,
    actual: Result<Report, RunError>,
    text: &mut String,
) -> Result<(), AllocError> {
    match actual {
        Ok(report) => write_report(alloc, one, &report, text),
        Err(error) => write!(text, "Fault({error:?})"),
    }
}

/// Writes down the result of a run, and the contents of the inboxes at its end if the test makes them.
fn write_run<R>(
    rt: &FewBytes<'_, R>,
    scene: Scene<'_>,
    workers: u16,
    cut: &Cut,
    gate: &Observer<'_>,
    text: &mut String,
) -> Result<(), Fail>
where
    R: Threads + Wait + Sync + RandomSource + AllocGlobal,
{
    if scene.over_inboxes {
        write_inboxes(rt, scene, workers, cut, gate, text)?;
        return Ok(());
    }
    let actual = run_workers(rt, rt.alloc(), scene.net, workers, cut, scene.sync, gate);
    Ok(write_result(rt.alloc(), scene.one, actual, text)?)
}

/// Writes down the result of a run, and the counts of its gate.
fn write_case<R>(rt: &R, scene: Scene<'_>, case: &Case<'_>, text: &mut String) -> Result<(), Fail>
where
    R: Threads + Wait + Sync + RandomSource + AllocGlobal,
{
    let (watch, workers, owners, longest) = *case;
    let cut = Cut {
        of: owners.to_vec(rt.alloc())?,
        longest,
    };
    let few = FewBytes::new(rt, watch);
    let gate = Observer::new(watch, workers, owners);
    write_run(&few, scene, workers, &cut, &gate, text)?;
    Ok(gate.write_counts(text)?)
}

/// Fails unless the text that is written about these runs is `want`.
fn tells_by<R>(rt: &R, scene: Scene<'_>, cases: &[Case<'_>], want: &str) -> Result<(), Fail>
where
    R: Threads + Wait + Sync + RandomSource + AllocGlobal,
{
    let mut text = String::new(rt.alloc());
    for case in cases {
        write_case(rt, scene, case, &mut text)?;
    }
    same_text(text.as_str(), want)
}

/// The text of the report from one thread.
fn text_of_one_thread(alloc: Global, net: &Net) -> Result<String, Fail> {
    let report = run_serial(alloc, net)?;
    Ok(format!(in alloc; "{report:?}")?)
}

/// Fails unless the text that is written about these runs is the expected one, with fork-join and with null messages.
fn tells<R>(rt: &R, runs: &Trials<'_>) -> Result<(), Fail>
where
    R: Threads + Wait + Sync + RandomSource + AllocGlobal,
{
    let net = read_scenario(rt.alloc(), runs.scenario)?;
    let one = text_of_one_thread(rt.alloc(), &net)?;
    let scene = Scene {
        net: &net,
        one: one.as_str(),
        sync: SyncKind::Joins,
        over_inboxes: runs.over_inboxes,
    };
    tells_by(rt, scene, runs.cases, runs.joins)?;
    let scene = Scene {
        sync: SyncKind::Marks,
        ..scene
    };
    tells_by(rt, scene, runs.cases, runs.marks)
}

/// Fails unless each row of runs has its expected texts, as [`tells`] tests it.
fn all_tell<R>(rt: &R, table: &[Trials<'_>]) -> Result<(), Fail>
where
    R: Threads + Wait + Sync + RandomSource + AllocGlobal,
{
    for runs in table {
        tells(rt, runs)?;
    }
    Ok(())
}
