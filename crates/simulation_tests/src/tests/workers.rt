//! Simulations with workers: the worker that takes each turn, the number of threads, and the result if one thread
//! isn't started.

use super::{CUTS, OnRecord, PRINTING, SENDING, SYNCS, Trial, Trials, all_tell};
use simulation::{CutKind, SyncKind};
use std::test::Fail;

/// Four motes that don't hear one another. Each has one turn.
const FOUR_MOTES: OnRecord = OnRecord {
    scenario: "\
        version = 1\n\
        end = 5\n\
        [medium]\n\
        range = 10\n\
        base = 1\n\
        per = 100\n\
        [programs]\n\
        p = \"process a; autostart a; code a { body { print 1; yield; print 2; } }\"\n\
        [[mote]]\n\
        x = 0\n\
        y = 0\n\
        program = \"p\"\n\
        [[mote]]\n\
        x = 20\n\
        y = 0\n\
        program = \"p\"\n\
        [[mote]]\n\
        x = 40\n\
        y = 0\n\
        program = \"p\"\n\
        [[mote]]\n\
        x = 60\n\
        y = 0\n\
        program = \"p\"\n",
    report: b"\
        mote 0 p\n0 start etimer\n0 start ctimer\n0 start radio\n0 start a\n0 print a 1\nmote 1 p\n\
        0 start etimer\n0 start ctimer\n0 start radio\n0 start a\n0 print a 1\nmote 2 p\n\
        0 start etimer\n0 start ctimer\n0 start radio\n0 start a\n0 print a 1\nmote 3 p\n\
        0 start etimer\n0 start ctimer\n0 start radio\n0 start a\n0 print a 1\nmedium\nleft 0\n",
};

/// Trials with workers, and the text that is written about each trial.
static TRIALS: [Trials<'static>; 21] = [
    // The worker of a mote takes its turns. There is one window, and two starts, one for each of two workers.
    Trials {
        trial: Trial {
            on_record: FOUR_MOTES,
            owners: &[0, 0, 1, 1],
            ..PRINTING
        },
        workers: &[Some(2)],
        cuts: &[CutKind::Block],
        syncs: SYNCS,
        want: "Ok(()) Some(314) 2 4 0|",
    },
    Trials {
        trial: Trial {
            on_record: FOUR_MOTES,
            owners: &[0, 1, 0, 1],
            ..PRINTING
        },
        workers: &[Some(2)],
        cuts: &[CutKind::Stripe],
        syncs: SYNCS,
        want: "Ok(()) Some(314) 2 4 0|",
    },
    // Without workers no start is requested, and the gate is called in no turn.
    Trials {
        trial: SENDING,
        workers: &[None],
        cuts: CUTS,
        syncs: SYNCS,
        want: "Ok(()) Some(405) 0 0 0|",
    },
    // With fork-join each worker is started in each window, and with null messages once. The first runs have one mote
    // with one turn, so they have one window. The later runs have two windows.
    Trials {
        trial: PRINTING,
        workers: &[Some(1)],
        cuts: CUTS,
        syncs: SYNCS,
        want: "Ok(()) Some(89) 1 1 0|",
    },
    Trials {
        trial: PRINTING,
        workers: &[Some(3)],
        cuts: CUTS,
        syncs: SYNCS,
        want: "Ok(()) Some(89) 3 1 0|",
    },
    Trials {
        trial: PRINTING,
        workers: &[Some(16)],
        cuts: CUTS,
        syncs: SYNCS,
        want: "Ok(()) Some(89) 16 1 0|",
    },
    Trials {
        trial: Trial {
            owners: &[0, 0, 1],
            ..SENDING
        },
        workers: &[Some(2)],
        cuts: &[CutKind::Block],
        syncs: &[SyncKind::Joins],
        want: "Ok(()) Some(405) 4 4 0|",
    },
    Trials {
        trial: Trial {
            owners: &[0, 1, 0],
            ..SENDING
        },
        workers: &[Some(2)],
        cuts: &[CutKind::Stripe],
        syncs: &[SyncKind::Joins],
        want: "Ok(()) Some(405) 4 4 0|",
    },
    Trials {
        trial: SENDING,
        workers: &[Some(3)],
        cuts: &[CutKind::Stripe],
        syncs: &[SyncKind::Joins],
        want: "Ok(()) Some(405) 6 4 0|",
    },
    Trials {
        trial: Trial {
            owners: &[0, 0, 1],
            ..SENDING
        },
        workers: &[Some(2)],
        cuts: &[CutKind::Block],
        syncs: &[SyncKind::Marks],
        want: "Ok(()) Some(405) 2 4 0|",
    },
    Trials {
        trial: Trial {
            owners: &[0, 1, 0],
            ..SENDING
        },
        workers: &[Some(2)],
        cuts: &[CutKind::Stripe],
        syncs: &[SyncKind::Marks],
        want: "Ok(()) Some(405) 2 4 0|",
    },
    Trials {
        trial: SENDING,
        workers: &[Some(3)],
        cuts: &[CutKind::Stripe],
        syncs: &[SyncKind::Marks],
        want: "Ok(()) Some(405) 3 4 0|",
    },
    // One worker isn't allowed to start, and no later start is requested. With null messages the workers that were
    // started wait for the worker that wasn't, but they end.
    Trials {
        trial: Trial {
            shut: Some(0),
            ..SENDING
        },
        workers: &[Some(2)],
        cuts: CUTS,
        syncs: SYNCS,
        want: "Err(Run(Thread)) Some(0) 1|",
    },
    Trials {
        trial: Trial {
            shut: Some(1),
            ..SENDING
        },
        workers: &[Some(2)],
        cuts: CUTS,
        syncs: SYNCS,
        want: "Err(Run(Thread)) Some(0) 2|",
    },
    Trials {
        trial: Trial {
            shut: Some(1),
            ..SENDING
        },
        workers: &[Some(3)],
        cuts: CUTS,
        syncs: SYNCS,
        want: "Err(Run(Thread)) Some(0) 2|",
    },
    Trials {
        trial: Trial {
            shut: Some(2),
            ..SENDING
        },
        workers: &[Some(3)],
        cuts: CUTS,
        syncs: SYNCS,
        want: "Err(Run(Thread)) Some(0) 3|",
    },
    // A number of workers that isn't allowed is refused. Errors in the scenario are reported first.
    Trials {
        trial: PRINTING,
        workers: &[Some(0), Some(17), Some(65535)],
        cuts: &[CutKind::Stripe],
        syncs: SYNCS,
        want: "Err(Run(Workers)) Some(0) 0|",
    },
    Trials {
        trial: Trial {
            instead: Some(b"end = \xff"),
            ..PRINTING
        },
        workers: &[Some(0), Some(17), Some(65535)],
        cuts: &[CutKind::Stripe],
        syncs: SYNCS,
        want: "Err(NotText) Some(0) 0|",
    },
    Trials {
        trial: Trial {
            instead: Some(b"end ="),
            ..PRINTING
        },
        workers: &[Some(0), Some(17), Some(65535)],
        cuts: &[CutKind::Stripe],
        syncs: SYNCS,
        want: "Err(Scenario(Toml)) Some(0) 0|",
    },
    // The error of a failing reader is reported before any worker is started, and the error of a failing writer after
    // the run.
    Trials {
        trial: Trial {
            reads: 3,
            ..PRINTING
        },
        workers: &[Some(2)],
        cuts: &[CutKind::Block],
        syncs: SYNCS,
        want: "Err(Read) Some(0) 0|",
    },
    Trials {
        trial: Trial {
            writes: 7,
            ..PRINTING
        },
        workers: &[Some(2)],
        cuts: &[CutKind::Block],
        syncs: SYNCS,
        want: "Err(Print(Write)) Some(7) 2|",
    },
];

/// The worker of a mote takes each of its turns, each thread is started, and each error is reported.
#[test]
fn trials_by_workers(rt: HostRuntime) -> Result<(), Fail> {
    all_tell(&rt, TRIALS.as_slice())
}
