//! Tests of properties that no scenario and no command line shows: streams that fail, gates, and calls with options
//! that no arguments can mean. Most tests write the results of some runs into a text, and a shared function compares
//! this text. All runs have the same type of reader, of writer and of gate, so the code that they call is compiled
//! only once.

mod fault_lines;
mod input;
mod many_lines;
mod streams;
mod words;
mod workers;

use simulation::{
    Asked, CutKind, Gate, Options, SimError, SyncKind, simulate, simulate_asked, simulate_serial,
};
use std::alloc::{AllocError, Global};
use std::io;
use std::io::{Read, Write};
use std::random::RandomSource;
use std::rt::Files;
use std::sync::Wait;
use std::sync::atomic::AtomicU64;
use std::sync::atomic::Ordering::SeqCst;
use std::test::Fail;
use std::thread::Threads;
use test_helpers::same_text;

/// A scenario and its expected report.
#[derive(Clone, Copy)]
struct OnRecord<'a> {
    scenario: &'a str,
    report: &'a [u8],
}

/// A process that prints, and then yields for ever.
const PRINT_THEN_YIELD: OnRecord = OnRecord {
    scenario: test_helpers::PRINT_THEN_YIELD,
    report: b"mote 0 p\n0 start etimer\n0 start ctimer\n0 start radio\n0 start a\n0 print a 1\nmedium\nleft 0\n",
};

/// A receiver between two senders.
const TWO_SENDERS: OnRecord = OnRecord {
    scenario: test_helpers::TWO_SENDERS,
    report: b"\
        mote 0 s\n0 start etimer\n0 start ctimer\n0 start radio\n0 start a\n0 send 0 5\n0 leave a\n\
        mote 1 r\n0 start etimer\n0 start ctimer\n0 start radio\n0 start r\n2 recv 0 0 5\n\
        2 recv 2 0 7\n2 post 0 r packet 5\n2 post 1 r packet 7\n2 take 0 r\n2 print r 0\n2 print r 5\n\
        2 take 1 r\n2 print r 2\n2 print r 7\nmote 2 s\n0 start etimer\n0 start ctimer\n0 start radio\n\
        0 start a\n0 send 0 7\n0 leave a\nmedium\n0 0 0 5 1@2\n0 2 0 7 1@2\nleft 0\n",
};

/// A reader that returns at most `most` bytes per call. After `calls` calls one call fails, and later calls succeed,
/// so a second try of the failed call would succeed.
#[derive(Drop)]
struct Source<'a> {
    rest: &'a [u8],
    most: usize,
    calls: usize,
}

impl Read for Source<'_> {
    fn read(&mut self, buf: &mut [u8]) -> io::Result<usize> {
        if self.calls == 0 {
            self.calls = usize::MAX;
            return Err(io::Error::from(io::ErrorKind::Interrupted));
        }
        self.calls -= 1;
        let n = buf.len().min(self.most).min(self.rest.len());
        buf[..n].copy_from_slice(&self.rest[..n]);
        self.rest = &self.rest[n..];
        Ok(n)
    }
}

/// A writer of ASCII that takes at most `most` bytes per call. After `calls` calls one call fails or takes nothing,
/// and later calls succeed.
#[derive(Drop)]
struct Sink {
    text: String,
    most: usize,
    calls: usize,
    fails: bool,
}

impl Sink {
    fn new(alloc: Global, most: usize, calls: usize, fails: bool) -> Sink {
        Sink {
            text: String::new(alloc),
            most,
            calls,
            fails,
        }
    }
}

impl Write for Sink {
    fn write(&mut self, buf: &[u8]) -> io::Result<usize> {
        if self.calls == 0 {
            self.calls = usize::MAX;
            return if self.fails {
                Err(io::Error::from(io::ErrorKind::Interrupted))
            } else {
                Ok(0)
            };
        }
        self.calls -= 1;
        let n = buf.len().min(self.most);
        for byte in &buf[..n] {
            self.text.push(char::from(*byte))?;
        }
        Ok(n)
    }

    fn flush(&mut self) -> io::Result<()> {
        Ok(())
    }
}

/// A gate that allows no start of one worker. It counts the starts that are requested, the turns that a mote's own
/// worker takes, and the turns that another worker takes.
#[derive(Drop)]
struct Watch<'a> {
    /// The worker of each mote.
    owners: &'a [u16],
    shut: Option<u16>,
    starts: AtomicU64,
    own: AtomicU64,
    others: AtomicU64,
}

impl Gate for Watch<'_> {
    fn inside(&self, worker: u16, _moment: u64, mote: u16) {
        if self.owners.get(usize::from(mote)) == Some(&worker) {
            self.own.fetch_add(1, SeqCst);
        } else {
            self.others.fetch_add(1, SeqCst);
        }
    }

    fn start(&self, worker: u16) -> bool {
        self.starts.fetch_add(1, SeqCst);
        self.shut != Some(worker)
    }
}

/// The function that simulates a scenario.
#[derive(Clone, Copy)]
enum Way<'a> {
    Serial,
    With(Options),
    Asked(&'a Asked<'a>),
}

/// Simulates the scenario from the reader with this function.
fn simulate_by<T>(
    rt: &T,
    way: Way,
    reader: &mut Source,
    writer: &mut Sink,
    gate: &Watch,
) -> Result<(), SimError>
where
    T: AllocGlobal + Files + Threads + Wait + RandomSource + Sync,
{
    match way {
        Way::Serial => simulate_serial(rt.alloc(), reader, writer),
        Way::With(options) => simulate(rt, rt.alloc(), reader, writer, &options, gate),
        Way::Asked(asked) => simulate_asked(rt, asked, reader, writer, gate),
    }
}

/// A simulation as a test case.
#[derive(Clone, Copy)]
struct Trial<'a> {
    on_record: OnRecord<'a>,
    /// The text that the reader returns instead of the scenario.
    instead: Option<&'a [u8]>,
    /// The worker of each mote.
    owners: &'a [u16],
    /// The worker that isn't allowed to start.
    shut: Option<u16>,
    /// The number of bytes that the reader returns per call, and the number of calls after which it fails.
    gives: usize,
    reads: usize,
    /// The number of bytes that the writer takes per call, and the number of calls after which it fails or takes
    /// nothing.
    takes: usize,
    writes: usize,
    fails: bool,
}

/// One mote with one turn. The reader returns 16 bytes per call, the writer takes one byte per call, and neither
/// fails.
const PRINTING: Trial<'static> = Trial {
    on_record: PRINT_THEN_YIELD,
    instead: None,
    owners: &[0],
    shut: None,
    gives: 16,
    reads: usize::MAX,
    takes: 1,
    writes: usize::MAX,
    fails: true,
};

/// The same streams with three motes, each of which has its own worker.
const SENDING: Trial<'static> = Trial {
    on_record: TWO_SENDERS,
    owners: &[0, 1, 2],
    ..PRINTING
};

/// The number of these bytes, or `None` if the report doesn't begin with them.
fn front_of(report: &[u8], bytes: &[u8]) -> Option<usize> {
    if report.starts_with(bytes) {
        Some(bytes.len())
    } else {
        None
    }
}

/// Writes down the result of a simulation, the number of bytes of the report that were written, and the number of
/// starts that were requested. If the result is `Ok`, also writes down how many turns the motes' own workers took, and
/// how many turns other workers took.
fn write_answer(
    text: &mut String,
    answer: &Result<(), SimError>,
    front: Option<usize>,
    gate: &Watch,
) -> Result<(), AllocError> {
    let starts = gate.starts.load(SeqCst);
    write!(text, "{answer:?} {front:?} {starts}")?;
    if answer.is_ok() {
        let own = gate.own.load(SeqCst);
        let others = gate.others.load(SeqCst);
        write!(text, " {own} {others}")?;
    }
    text.push('|')
}

/// Writes down the result of a trial with this function.
fn write_trial<T>(rt: &T, text: &mut String, trial: Trial, way: Way) -> Result<(), AllocError>
where
    T: AllocGlobal + Files + Threads + Wait + RandomSource + Sync,
{
    let mut reader = Source {
        rest: trial.instead.unwrap_or(trial.on_record.scenario.as_bytes()),
        most: trial.gives,
        calls: trial.reads,
    };
    let mut writer = Sink::new(rt.alloc(), trial.takes, trial.writes, trial.fails);
    let gate = Watch {
        owners: trial.owners,
        shut: trial.shut,
        starts: AtomicU64::new(0),
        own: AtomicU64::new(0),
        others: AtomicU64::new(0),
    };
    let answer = simulate_by(rt, way, &mut reader, &mut writer, &gate);
    let front = front_of(trial.on_record.report, writer.text.as_bytes());
    write_answer(text, &answer, front, &gate)
}

/// Fails unless the text that is written about a trial with this function is `want`.
fn tells<T>(rt: &T, trial: Trial, way: Way, want: &str) -> Result<(), Fail>
where
    T: AllocGlobal + Files + Threads + Wait + RandomSource + Sync,
{
    let mut text = String::new(rt.alloc());
    write_trial(rt, &mut text, trial, way)?;
    same_text(text.as_str(), want)
}

const CUTS: &[CutKind] = &[CutKind::Block, CutKind::Stripe];

const SYNCS: &[SyncKind] = &[SyncKind::Joins, SyncKind::Marks];

/// One trial with each of these numbers of workers, partitions and kinds of synchronisation, and the text that is
/// written about each run.
#[derive(Clone, Copy)]
struct Trials<'a> {
    trial: Trial<'a>,
    workers: &'a [Option<u16>],
    cuts: &'a [CutKind],
    syncs: &'a [SyncKind],
    want: &'a str,
}

/// Fails unless the text that is written about each run of a trial is the expected one.
fn each_tells<T>(rt: &T, trials: &Trials) -> Result<(), Fail>
where
    T: AllocGlobal + Files + Threads + Wait + RandomSource + Sync,
{
    for workers in trials.workers {
        for cut in trials.cuts {
            for sync in trials.syncs {
                let options = Options {
                    workers: *workers,
                    cut: *cut,
                    sync: *sync,
                };
                tells(rt, trials.trial, Way::With(options), trials.want)?;
            }
        }
    }
    Ok(())
}

/// Fails unless the texts that are written about all these trials are the expected ones. The tables of trials are
/// statics, because a function builds a constant again at each place that names it.
fn all_tell<T>(rt: &T, table: &[Trials]) -> Result<(), Fail>
where
    T: AllocGlobal + Files + Threads + Wait + RandomSource + Sync,
{
    for trials in table {
        each_tells(rt, trials)?;
    }
    Ok(())
}
