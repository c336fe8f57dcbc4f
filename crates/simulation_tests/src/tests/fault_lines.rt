//! The output and the status of the program if a stream fails, for the errors of a run, and for help.

use super::{PRINT_THEN_YIELD, Sink, Source, front_of};
use simulation::{RunError, SimError, run_command, status_of};
use std::alloc::{AllocError, Global};
use std::random::RandomSource;
use std::rt::Files;
use std::sync::Wait;
use std::test::Fail;
use std::thread::Threads;
use test_helpers::same_text;

/// The errors of a run.
static FAULTS: [RunError; 6] = [
    RunError::Workers,
    RunError::CutLength,
    RunError::CutWorker,
    RunError::Memory,
    RunError::Thread,
    RunError::Stopped,
];

/// Writes down the program's status and error line for each of these errors.
fn write_faults(alloc: Global, text: &mut String) -> Result<(), AllocError> {
    for fault in FAULTS.as_slice() {
        let mut errors = Sink::new(alloc, usize::MAX, usize::MAX, true);
        let status = status_of(Err(SimError::Run(*fault)), &mut errors);
        write!(text, "{status} {}", errors.text)?;
    }
    Ok(())
}

/// The scenario; the number of calls after which the reader, the writer of the report and the writer of errors fail;
/// and whether the two writers return an error then, or take nothing.
#[derive(Clone, Copy)]
struct Streams<'a> {
    scenario: &'a str,
    reads: usize,
    writes: usize,
    lines: usize,
    fails: bool,
}

/// Writes down the status of the program, the number of bytes of the report that were written, and the text on
/// standard error.
fn write_command<T>(rt: &T, text: &mut String, streams: Streams) -> Result<(), AllocError>
where
    T: AllocGlobal + Files + Threads + Wait + RandomSource + Sync,
{
    let mut input = Source {
        rest: streams.scenario.as_bytes(),
        most: 16,
        calls: streams.reads,
    };
    let mut output = Sink::new(rt.alloc(), 1, streams.writes, streams.fails);
    let mut errors = Sink::new(rt.alloc(), 1, streams.lines, streams.fails);
    let status = run_command(rt, &["motesim"], &mut input, &mut output, &mut errors);
    let front = front_of(PRINT_THEN_YIELD.report, output.text.as_bytes());
    write!(text, "{status} {front:?} {}|", errors.text)
}

/// Streams that never fail.
const WHOLE: Streams<'static> = Streams {
    scenario: test_helpers::PRINT_THEN_YIELD,
    reads: usize::MAX,
    writes: usize::MAX,
    lines: usize::MAX,
    fails: true,
};

/// The same streams, but writers take nothing instead of failing.
const TAKES_NONE: Streams<'static> = Streams {
    fails: false,
    ..WHOLE
};

/// The same streams with an empty scenario.
const EMPTY: Streams<'static> = Streams {
    scenario: "",
    ..TAKES_NONE
};

/// First no stream fails. Then the input fails; the output fails, or takes nothing; and the line of an error can't be
/// written, or only its first bytes can be written.
static FAILING: [Streams<'static>; 6] = [
    WHOLE,
    Streams { reads: 3, ..WHOLE },
    Streams { writes: 7, ..WHOLE },
    Streams {
        writes: 7,
        ..TAKES_NONE
    },
    Streams { lines: 0, ..EMPTY },
    Streams { lines: 7, ..EMPTY },
];

#[test]
fn faults_and_failing_streams(rt: HostRuntime) -> Result<(), Fail> {
    let mut text = String::new(rt.alloc());
    write_faults(rt.alloc(), &mut text)?;
    for streams in FAILING.as_slice() {
        write_command(&rt, &mut text, *streams)?;
    }
    same_text(
        text.as_str(),
        "\
            1 motesim: run fault 1\n1 motesim: run fault 2\n1 motesim: run fault 3\n1 motesim: out of memory\n\
            1 motesim: run fault 5\n1 motesim: run fault 6\n\
            0 Some(89) |1 Some(0) motesim: read fault\n|1 Some(7) motesim: write fault\n\
            |1 Some(7) motesim: write fault\n|1 Some(0) |1 Some(0) motesim|",
    )
}

/// The exact help text.
const HELP: &str = "\
    Simulates a network of Contiki motes, and writes the traces of the motes and the log of the radio medium\n\n\
    Usage: motesim [OPTIONS] [FILE]\n\n\
    Arguments:\n  [FILE]  The scenario; without it, standard input is read\n\n\
    Options:\n      --workers <N>  Runs the motes on 1 to 16 workers, each with a thread of its own; \
    without this option, one thread runs all motes\n      --cut <CUT>    Divides the motes among the workers: \
    with block each worker gets motes with consecutive numbers, with stripe the motes go to the workers in turn, \
    one at a time [default: block] [possible values: block, stripe]\n      --sync <SYNC>  Selects how the workers \
    wait for one another: with joins each worker gets a new thread for each window, and all threads are joined \
    at its end; with marks each worker keeps one thread for the whole run, and waits for marks of the others \
    [default: joins] [possible values: joins, marks]\n  \
    -h, --help         Print help\n";

/// Writes down the status of the program with this argument, all of its output, and its text on standard error. After
/// `writes` calls, one call of the output takes nothing.
fn write_help<T>(rt: &T, text: &mut String, word: &str, writes: usize) -> Result<(), AllocError>
where
    T: AllocGlobal + Files + Threads + Wait + RandomSource + Sync,
{
    let mut input = Source {
        rest: b"",
        most: 16,
        calls: usize::MAX,
    };
    let mut output = Sink::new(rt.alloc(), usize::MAX, writes, false);
    let mut errors = Sink::new(rt.alloc(), usize::MAX, usize::MAX, true);
    let status = run_command(rt, &["motesim", word], &mut input, &mut output, &mut errors);
    write!(text, "{status} {}|{}|", output.text, errors.text)
}

/// The help text is written completely. If the output takes nothing, the status is still 0.
#[test]
fn help_in_full(rt: HostRuntime) -> Result<(), Fail> {
    let mut text = String::new(rt.alloc());
    write_help(&rt, &mut text, "--help", usize::MAX)?;
    write_help(&rt, &mut text, "-h", usize::MAX)?;
    write_help(&rt, &mut text, "--help", 0)?;
    let mut want = String::new(rt.alloc());
    write!(want, "0 {HELP}||0 {HELP}||0 ||")?;
    same_text(text.as_str(), want.as_str())
}
