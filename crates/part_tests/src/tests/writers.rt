//! Writers that fail in the middle of a report of few lines or of many, written on one thread or with workers.

ghost use Rattle.std.specs.Prelude.{◌≡◌, ◌≤◌, IfOk, IfSome, length, vec_len};
ghost use Rattle.mote_net.specs.Meaning.{net_of};

use super::reports::{report_of, report_of_trace};
use mote_net::Report;
use net_scenario::{Net, read_scenario};
use process_kernel::{Line, What};
use program_tree::Proc;
use std::alloc::{AllocError, Global};
use std::io;
use std::io::Write;
use std::sync::Wait;
use std::test::Fail;
use std::thread::Threads;
use test_helpers::PRINT_THEN_YIELD;
use trace_printer::{PrintError, write_report, write_report_by};

/// The text of the report of `PRINT_THEN_YIELD`, without the starts of the system processes.
const OUTPUT: &str = "mote 0 p\n0 start a\n0 print a 1\nmedium\nleft 0\n";

/// The number of lines in the long trace: more than the workers print in one round.
const LINES: u64 = 66_000;

/// A writer that takes at most `most` bytes per call. Once it has taken `room` bytes, one call fails, and later calls
/// succeed, so a second try of the failed call would succeed.
struct Roomy {
    bytes: Vec<u8>,
    most: usize,
    room: usize,
}

impl Drop for Roomy {
    fn drop(self) {
        let Roomy {
            bytes: _,
            most: _,
            room: _,
        } = self;
    }
}

impl Write for Roomy {
    fn write(&mut self, buffer: &[u8]) -> io::Result<usize> {
        if self.room == 0 {
            self.room = usize::MAX;
            return Err(io::Error::from(io::ErrorKind::StorageFull));
        }
        let n = buffer.len().min(self.most).min(self.room);
        self.bytes.extend_from_slice(&buffer[..n])?;
        self.room -= n;
        Ok(n)
    }

    fn flush(&mut self) -> io::Result<()> {
        Ok(())
    }
}

/// Writes a report on one thread, or with this many workers.
fn write_by<R: Threads + Wait + AllocGlobal + Sync>(
    rt: &R,
    workers: Option<u16>,
    net: &Net,
    report: &Report,
    writer: &mut Roomy,
) -> Result<(), PrintError>
    requires positive { IfSome workers (λ n. 1 ≤ n) }
    requires traces { vec_len report.now.traces ≡ length (net_of net.now).motes }
{
    match workers {
        Some(workers) => write_report_by(rt, rt.alloc(), workers, net, report, writer),
        None => write_report(rt.alloc(), net, report, writer),
    }
}

/// Writes a report with this many workers, or on one thread if there is no number. The writer takes at most `most`
/// bytes per call, and fails once after `room` bytes. Tests whether the writer gets the first `room` bytes of the
/// wanted text. If these are all bytes of the text, the result must be `Ok`, and otherwise an error of the writer.
fn gets<R: Threads + Wait + AllocGlobal + Sync>(
    rt: &R,
    workers: Option<u16>,
    net: &Net,
    report: &Report,
    wanted: &[u8],
    most: usize,
    room: usize,
) -> bool
    requires positive { IfSome workers (λ n. 1 ≤ n) }
    requires traces { vec_len report.now.traces ≡ length (net_of net.now).motes }
{
    let mut writer = Roomy {
        bytes: Vec::new(rt.alloc()),
        most,
        room,
    };
    let actual = write_by(rt, workers, net, report, &mut writer);
    let bytes = writer.bytes.as_slice();
    let answer = if room == wanted.len() {
        Ok(())
    } else {
        Err(PrintError::Write)
    };
    actual == answer && bytes.len() == room && wanted.starts_with(bytes)
}

/// Makes this test with writers whose room is too small by each of these numbers of bytes.
fn gets_each<R: Threads + Wait + AllocGlobal + Sync>(
    rt: &R,
    workers: Option<u16>,
    net: &Net,
    report: &Report,
    wanted: &[u8],
    most: usize,
    lacks: &[usize],
) -> bool
    requires positive { IfSome workers (λ n. 1 ≤ n) }
    requires traces { vec_len report.now.traces ≡ length (net_of net.now).motes }
{
    for lack in lacks {
        if !gets(
            rt,
            workers,
            net,
            report,
            wanted,
            most,
            wanted.len().saturating_sub(*lack),
        ) {
            return false;
        }
    }
    true
}

/// Tests whether an error is reported if a writer takes nothing.
fn takes_nothing(alloc: Global, net: &Net, report: &Report) -> bool
    requires traces { vec_len report.now.traces ≡ length (net_of net.now).motes }
{
    let mut closed = Roomy {
        bytes: Vec::new(alloc),
        most: 0,
        room: 1,
    };
    write_report(alloc, net, report, &mut closed) == Err(PrintError::Write)
}

/// Tests whether a writer that takes one byte per call gets as much of the short report as it has room for.
fn gets_byte_by_byte<R: Threads + Wait + AllocGlobal + Sync>(
    rt: &R,
    net: &Net,
    report: &Report,
) -> bool
    requires traces { vec_len report.now.traces ≡ length (net_of net.now).motes }
{
    for room in 0..=OUTPUT.len() {
        if !gets(rt, None, net, report, OUTPUT.as_bytes(), 1, room) {
            return false;
        }
    }
    true
}

/// The trace of `PRINT_THEN_YIELD`, without the starts of the system processes.
const FEW: [(u64, What); 2] = [
    (0, What::Start(Proc::Own(0))),
    (0, What::Print(Proc::Own(0), 1)),
];

/// Makes both tests with the short report.
fn few_lines<R: Threads + Wait + AllocGlobal + Sync>(rt: &R, net: &Net) -> Result<bool, AllocError>
    requires one_mote { length (net_of net.now).motes ≡ 1 }
{
    let report = report_of(rt.alloc(), &FEW)?;
    Ok(gets_byte_by_byte(rt, net, &report) && takes_nothing(rt.alloc(), net, &report))
}

/// The report of one mote that sends `LINES` packets.
fn report_of_sends(alloc: Global) -> Result<Report, AllocError>
    ensures one_trace { IfOk result (λ r. vec_len r.traces ≡ 1) }
{
    let mut trace = Vec::new(alloc);
    for number in 0..LINES {
        trace.push(Line {
            at: number / 2,
            what: What::Send(number, 65535),
        })?;
    }
    report_of_trace(alloc, trace)
}

/// Writes the expected text of that report.
fn write_wanted(text: &mut String) {
    let _ = text.push_str("mote 0 p\n");
    for number in 0..LINES {
        let at = number / 2;
        let _ = write!(text, "{at} send {number} 65535\n");
    }
    let _ = text.push_str("medium\nleft 0\n");
}

/// Numbers of bytes by which the writer's room is too small for the long report. The writer fails in the last round of
/// the workers or in the first.
const LACKS: [usize; 6] = [0, 1, 2, 5_000, 65_536, 200_000];

/// Tests whether a writer that takes 1,000 bytes per call gets as much of the long report as it has room for, on one
/// thread, with two workers and with five.
fn gets_many<R: Threads + Wait + AllocGlobal + Sync>(
    rt: &R,
    net: &Net,
    report: &Report,
    wanted: &[u8],
) -> bool
    requires traces { vec_len report.now.traces ≡ length (net_of net.now).motes }
{
    gets_each(rt, None, net, report, wanted, 1_000, &LACKS)
        && gets_each(rt, Some(2), net, report, wanted, 1_000, &LACKS)
        && gets_each(rt, Some(5), net, report, wanted, 1_000, &LACKS)
}

/// Makes this test with the long report.
fn many_lines<R: Threads + Wait + AllocGlobal + Sync>(rt: &R, net: &Net) -> Result<bool, AllocError>
    requires one_mote { length (net_of net.now).motes ≡ 1 }
{
    let report = report_of_sends(rt.alloc())?;
    let mut wanted = String::new(rt.alloc());
    write_wanted(&mut wanted);
    Ok(gets_many(rt, net, &report, wanted.as_bytes()))
}

/// Tests whether a net has one mote, and whether writers get both reports correctly.
fn few_and_many<R: Threads + Wait + AllocGlobal + Sync>(
    rt: &R,
    net: &Net,
) -> Result<bool, AllocError> {
    Ok(net.motes() == 1 && few_lines(rt, net)? && many_lines(rt, net)?)
}

#[test]
fn writers_with_little_room(rt: HostRuntime) -> Result<(), Fail> {
    let numbers = [PrintError::Write.number(), PrintError::Memory.number()];
    let net = read_scenario(rt.alloc(), PRINT_THEN_YIELD)?;
    assert!(rt; numbers == [1, 2] && few_and_many(&rt, &net)?);
    Ok(())
}
