//! Runs with various partitions: their results, the number of starts of threads, and the workers that take the turns.

use super::observer::{STARTS, Watch};
use super::{
    BUSY_PAIR, BUSY_TRIO, COPY_PAST_THE_END, Case, PACKET_AFTER_TIMER, Scene, Trials, all_tell,
    write_case,
};
use net_scenario::{Net, read_scenario};
use std::alloc::{AllocError, AllocGlobal, Global};
use std::random::RandomSource;
use std::sync::Wait;
use std::test::Fail;
use std::thread::Threads;
use test_helpers::{TWO_SENDERS, same_text};
use window_workers::{Cut, SyncKind};

/// Runs with windows of any length, and with windows of at most 1, 2 and 3 moments.
const LENGTHS: [Case<'static>; 5] = [
    (STARTS, 2, &[0, 1], 0),
    (STARTS, 2, &[0, 1], 1),
    (STARTS, 2, &[0, 1], 2),
    (STARTS, 2, &[0, 1], 3),
    (STARTS, 3, &[2, 0], 2),
];

/// A run of 16 workers, three of which have a mote, in windows of one moment.
const SPARSE: Case<'static> = (STARTS, 16, &[0, 5, 10], 1);

/// Runs with various partitions, and the observations in them. All counts are hexadecimal numbers.
static RUNS: [Trials<'static>; 11] = [
    // Each of these partitions leads to the same report as one thread: blocks, stripes, workers without a mote, and
    // motes in reverse order. With fork-join each worker is started in each of two windows, and with null messages
    // once.
    Trials {
        scenario: TWO_SENDERS,
        over_inboxes: false,
        cases: &[
            (STARTS, 1, &[0, 0, 0], 0),
            (STARTS, 2, &[0, 0, 1], 0),
            (STARTS, 2, &[0, 1, 0], 0),
            (STARTS, 2, &[1, 1, 0], 0),
            (STARTS, 3, &[0, 1, 2], 0),
            (STARTS, 3, &[2, 1, 0], 0),
            (STARTS, 4, &[0, 1, 2], 1),
            (STARTS, 16, &[0, 5, 10], 0),
        ],
        joins: "Same(0) 2 4|Same(0) 4 4|Same(0) 4 4|Same(0) 4 4|Same(0) 6 4|Same(0) 6 4|Same(0) 8 4|Same(0) 20 4|",
        marks: "Same(0) 1 4|Same(0) 2 4|Same(0) 2 4|Same(0) 2 4|Same(0) 3 4|Same(0) 3 4|Same(0) 4 4|Same(0) 10 4|",
    },
    // Partitions of three motes. Only the last one is accepted. If a partition has several errors, the first is
    // reported: the order is that of the first three runs here. No worker is started.
    Trials {
        scenario: BUSY_TRIO,
        over_inboxes: false,
        cases: &[
            (STARTS, 0, &[0, 0, 0], 0),
            (STARTS, 2, &[0, 1], 0),
            (STARTS, 16, &[0, 16, 0], 0),
            (STARTS, 17, &[0, 0, 0], 0),
            (STARTS, 2, &[0, 1, 0, 1], 0),
            (STARTS, 17, &[0, 17], 0),
            (STARTS, 2, &[0, 2], 0),
            (STARTS, 16, &[0, 15, 0], 0),
        ],
        joins: REFUSED_CUTS,
        marks: REFUSED_CUTS,
    },
    // If a worker isn't allowed to start, the error is reported, and the start of no later worker is requested. With
    // null messages the workers that were started before wait for that worker, but they end.
    Trials {
        scenario: TWO_SENDERS,
        over_inboxes: false,
        cases: &[
            (Watch::Starts(Some(0)), 1, &[0, 0, 0], 0),
            (Watch::Starts(Some(0)), 2, &[0, 0, 1], 0),
            (Watch::Starts(Some(1)), 2, &[0, 0, 1], 0),
            (Watch::Starts(Some(1)), 3, &[0, 1, 2], 0),
            (Watch::Starts(Some(2)), 3, &[0, 1, 2], 0),
        ],
        joins: REFUSED_STARTS,
        marks: REFUSED_STARTS,
    },
    // The same test with 16 workers. The three workers that have a mote were started. Each of them has run the first
    // window: the only window, or the first of three.
    Trials {
        scenario: BUSY_TRIO,
        over_inboxes: false,
        cases: &[
            (Watch::Starts(Some(12)), 16, &[0, 5, 10], 0),
            (Watch::Starts(Some(12)), 16, &[0, 5, 10], 1),
            (Watch::Starts(Some(15)), 16, &[0, 5, 10], 1),
        ],
        joins: REFUSED_OF_SIXTEEN,
        marks: REFUSED_OF_SIXTEEN,
    },
    // With fork-join all workers are started in each window. Turns at 0, 2 and 5 are in two windows of three moments,
    // or in three shorter windows. With null messages each worker is started once.
    Trials {
        scenario: PACKET_AFTER_TIMER,
        over_inboxes: false,
        cases: &LENGTHS,
        joins: "Same(0) 4 4|Same(0) 6 4|Same(0) 6 4|Same(0) 4 4|Same(0) 9 4|",
        marks: "Same(0) 2 4|Same(0) 2 4|Same(0) 2 4|Same(0) 2 4|Same(0) 3 4|",
    },
    // The same motes, but the run ends before the packet's arrival, so the packet is left. Turns at 0 and 2 are in one
    // window, or in two.
    Trials {
        scenario: COPY_PAST_THE_END,
        over_inboxes: false,
        cases: &LENGTHS,
        joins: "Same(1) 2 3|Same(1) 4 3|Same(1) 4 3|Same(1) 2 3|Same(1) 6 3|",
        marks: "Same(1) 2 3|Same(1) 2 3|Same(1) 2 3|Same(1) 2 3|Same(1) 3 3|",
    },
    // Each of 16 workers is started, also the 13 that have no mote. With fork-join it is started in each of three
    // windows of one moment, or in the only window; with null messages it is started once.
    Trials {
        scenario: BUSY_TRIO,
        over_inboxes: false,
        cases: &[SPARSE, (STARTS, 16, &[0, 5, 10], 0)],
        joins: "Same(0) 30 9|Same(0) 10 9|",
        marks: "Same(0) 10 9|Same(0) 10 9|",
    },
    // The first of these two runs, ten times: with null messages no worker stops because another one has ended.
    Trials {
        scenario: BUSY_TRIO,
        over_inboxes: false,
        cases: &[SPARSE; 10],
        joins: "Same(0) 30 9|Same(0) 30 9|Same(0) 30 9|Same(0) 30 9|Same(0) 30 9|Same(0) 30 9|Same(0) 30 9|\
                Same(0) 30 9|Same(0) 30 9|Same(0) 30 9|",
        marks: "Same(0) 10 9|Same(0) 10 9|Same(0) 10 9|Same(0) 10 9|Same(0) 10 9|Same(0) 10 9|Same(0) 10 9|\
                Same(0) 10 9|Same(0) 10 9|Same(0) 10 9|",
    },
    // A run in windows of one moment. The motes don't hear one another, so a single window would be enough.
    Trials {
        scenario: BUSY_PAIR,
        over_inboxes: false,
        cases: &[(Watch::Ahead, 2, &[0, 1], 1)],
        joins: "Same(0) 1 0|",
        marks: "Same(0) 1 0|",
    },
    // The copy would arrive after the end. With fork-join it is in the inbox of its receiver's worker at the end; with
    // null messages that worker has already taken it.
    Trials {
        scenario: COPY_PAST_THE_END,
        over_inboxes: true,
        cases: &[(STARTS, 2, &[0, 1], 0)],
        joins: "Same(1)|0 []|1 [RadioCopy { at: 5, to: 1, sender: 0, number: 0, value: 9 }]| 2 3|",
        marks: "Same(1)|0 []|0 []| 2 3|",
    },
    // Each worker of a partition must have an inbox. Of these partitions of three motes only the last one is accepted.
    Trials {
        scenario: BUSY_TRIO,
        over_inboxes: true,
        cases: &[
            (STARTS, 0, &[0, 0, 1], 0),
            (STARTS, 17, &[0, 0, 1], 0),
            (STARTS, 1, &[0, 0, 1], 0),
            (STARTS, 2, &[0, 0], 0),
            (STARTS, 2, &[0, 0, 1], 0),
        ],
        joins: REFUSED_INBOXES,
        marks: REFUSED_INBOXES,
    },
];

const REFUSED_CUTS: &str =
    "Fault(Workers) 0 0|Fault(CutLength) 0 0|Fault(CutWorker) 0 0|Fault(Workers) 0 0|\
    Fault(CutLength) 0 0|Fault(Workers) 0 0|Fault(CutLength) 0 0|Same(0) 10 9|";

const REFUSED_STARTS: &str =
    "Fault(Thread) 1 0|Fault(Thread) 1 0|Fault(Thread) 2 2|Fault(Thread) 2 1|Fault(Thread) 3 2|";

const REFUSED_OF_SIXTEEN: &str = "Fault(Thread) d 9|Fault(Thread) d 3|Fault(Thread) 10 3|";

const REFUSED_INBOXES: &str =
    "Fault(Workers)| 0 0|Fault(Workers)| 0 0|Fault(CutWorker)| 0 0|Fault(CutLength)| 0 0|\
    Same(0)|0 []|0 []| 2 9|";

/// The results of runs, the number of starts of threads, the workers that take the turns, and the contents of the
/// inboxes.
#[test]
fn runs_by_any_cut(rt: HostRuntime) -> Result<(), Fail> {
    all_tell(&rt, RUNS.as_slice())
}

/// In each of three windows, two workers meet, or three workers. Each worker has one mote.
static MEETINGS: [Trials<'static>; 4] = [
    Trials {
        scenario: BUSY_PAIR,
        over_inboxes: false,
        cases: &[(Watch::Meetings, 2, &[0, 1], 1)],
        joins: "Same(0) 20202 20202|",
        marks: "Same(0) 20202 20202|",
    },
    Trials {
        scenario: BUSY_PAIR,
        over_inboxes: true,
        cases: &[(Watch::Meetings, 2, &[0, 1], 1)],
        joins: "Same(0)|0 []|0 []| 20202 20202|",
        marks: "Same(0)|0 []|0 []| 20202 20202|",
    },
    Trials {
        scenario: BUSY_TRIO,
        over_inboxes: false,
        cases: &[(Watch::Meetings, 3, &[0, 1, 2], 1)],
        joins: "Same(0) 30303 30303|",
        marks: "Same(0) 30303 30303|",
    },
    Trials {
        scenario: BUSY_TRIO,
        over_inboxes: true,
        cases: &[(Watch::Meetings, 3, &[0, 1, 2], 1)],
        joins: "Same(0)|0 []|0 []|0 []| 30303 30303|",
        marks: "Same(0)|0 []|0 []|0 []| 30303 30303|",
    },
];

/// The turns of workers overlap in time: inside their turns, all workers meet.
#[test]
fn turns_of_workers_overlap(rt: HostRuntime) -> Result<(), Fail> {
    all_tell(&rt, MEETINGS.as_slice())
}

const FAILED: &str =
    "Fault(Thread) 0 0|Fault(Thread) 0 0|Fault(Thread) 0 0|Fault(Thread) 0 0|Same(0) 0 0|";

/// Runs with two workers in three windows. The executors fail after 0, 1, 3, 5 or 6 calls of the source of random
/// bytes.
static FAILING: [Trials<'static>; 1] = [Trials {
    scenario: BUSY_PAIR,
    over_inboxes: false,
    cases: &[
        (Watch::Fails(0), 2, &[0, 1], 1),
        (Watch::Fails(1), 2, &[0, 1], 1),
        (Watch::Fails(3), 2, &[0, 1], 1),
        (Watch::Fails(5), 2, &[0, 1], 1),
        (Watch::Fails(6), 2, &[0, 1], 1),
    ],
    joins: FAILED,
    marks: FAILED,
}];

/// If an executor fails, the error is `Thread`, in whichever window it fails. With null messages the other worker
/// doesn't wait for ever.
#[test]
fn executors_that_fail(rt: HostRuntime) -> Result<(), Fail> {
    all_tell(&rt, FAILING.as_slice())
}

/// Fails if the reported error is neither the refused start of worker 1 nor a failed allocation.
fn lowest_error<R>(rt: &R, net: &Net, sync: SyncKind) -> Result<(), Fail>
where
    R: Threads + Wait + Sync + RandomSource + AllocGlobal,
{
    let mut text = String::new(rt.alloc());
    // The report is compared with nothing, because there is none.
    let scene = Scene {
        net,
        one: "",
        sync,
        over_inboxes: false,
    };
    write_case(
        rt,
        scene,
        &(Watch::Starts(Some(1)), 2, &[0, 1], 0),
        &mut text,
    )?;
    if text.as_str().starts_with("Fault(Memory)") {
        return Ok(());
    }
    same_text(text.as_str(), "Fault(Thread) 2 3|")
}

/// The reported error is that of the worker with the lowest number: the error of worker 0, or, if worker 0 has taken
/// its three turns, the refused start of worker 1. With enough memory the refused start is reported. If an allocation
/// of worker 0 fails (`rt try --test --fail-alloc N`), the error may also be that worker 0 is out of memory.
#[test]
fn the_lowest_workers_error(rt: HostRuntime) -> Result<(), Fail> {
    let net = read_scenario(rt.alloc(), BUSY_PAIR)?;
    lowest_error(&rt, &net, SyncKind::Joins)?;
    lowest_error(&rt, &net, SyncKind::Marks)
}

/// Writes down the worker of each mote, and the greatest length of a window.
fn write_cut(text: &mut String, cut: Cut) -> Result<(), AllocError> {
    write!(text, "{:?} {}|", cut.of, cut.longest)
}

/// Writes down both partitions of five motes among two workers, and one partition of three motes among 16 workers,
/// most of which have no mote.
fn write_cuts(alloc: Global, text: &mut String) -> Result<(), AllocError> {
    write_cut(text, Cut::block(alloc, 5, 2)?)?;
    write_cut(text, Cut::stripe(alloc, 5, 2)?)?;
    write_cut(text, Cut::block(alloc, 3, 16)?)
}

#[test]
fn cuts_of_few_motes(rt: HostRuntime) -> Result<(), Fail> {
    let mut text = String::new(rt.alloc());
    write_cuts(rt.alloc(), &mut text)?;
    same_text(
        text.as_str(),
        "[0, 0, 0, 1, 1] 0|[0, 1, 0, 1, 0] 0|[0, 5, 10] 0|",
    )
}
