//! Writes a report with workers, round by round.
ghost use Rattle.std.specs.Prelude.{◌≡◌, ◌≤◌, ◌<◌, ◌+◌, ◌^◌, [], length, map, vec_len, IfSome};
ghost use Rattle.std.specs.List.{concat};
ghost use Rattle.mote_net.specs.Net.{NetModel};
ghost use Rattle.mote_net.specs.Meaning.{net_of};
ghost use Rattle.mote_net.specs.Report.{trace_lines_in, report_of};
ghost use Rattle.trace_printer.specs.Writes.{Writes};
ghost use Rattle.trace_printer.specs.Page.{Prints};
ghost use Rattle.trace_printer.specs.ReportText.{report_text};
ghost use Rattle.trace_printer.specs.TraceLines.{net_lines};

use crate::error::PrintError;
use crate::numbered::count_lines;
use crate::page::{Page, ROOM};
use crate::report::{write_end, write_report};
use crate::report_lines::{Numbered, ReportLines};
use crate::round::write_round;
use mote_net::{LogLine, Net, Report};
use std::alloc::Global;
use std::io::Write;
use std::thread::Threads;
use trace_lines::Line;

/// The number of lines of a worker's page in one round. Their text is some 200 kilobytes long.
const SIZE: usize = 8_192;

/// A report with more lines is written by one thread. No memory has room for so many lines.
const MOST: usize = usize::MAX / 2;

/// The smallest number of lines for which workers are started.
const MANY: usize = 16_384;

/// Writes all lines, round by round. There are `all` of them.
fn write_all<R: Threads + Sync, T: Numbered + Sync, W: Write>(
    rt: &R,
    alloc: Global,
    workers: u16,
    lines: &T,
    all: usize,
    writer: &mut W,
) -> Result<(), PrintError>
    requires positive { 1 ≤ workers }
    requires all { length (T.texts lines.now) ≡ all }
    requires bounded { all < 2 ^ 63 }
    ensures prints { let text = concat (T.texts lines.now)
        in Prints (W.contents writer.old) (W.contents writer.new) [] [] result text }
{
    let mut skip = 0;
    'rounds: while skip < all {
        write_round(rt, alloc, workers, lines, skip, SIZE, writer)?;
        skip += usize::from(workers) * SIZE;
    }
    Ok(())
}

/// Returns the number of lines of the traces, if workers are to format these lines and those of the medium. This
/// requires at least two workers and at least `MANY` lines in the traces.
fn many_lines(workers: u16, traces: &[Vec<Line>], log: &[LogLine]) -> Option<usize>
    ensures lines { (net : NetModel) → length traces.now ≡ length net.motes
        → IfSome result (λ count. length (net_lines net (map trace_lines_in traces.now)) ≡ count) }
    ensures all { IfSome result (λ count. count + length log.now + 1 < 2 ^ 63) }
{
    if workers < 2 {
        return None;
    }
    match count_lines(traces) {
        Some(lines) if lines >= MANY && lines < MOST.saturating_sub(log.len()) => Some(lines),
        _ => None,
    }
}

/// Writes a report with workers. The report's traces have `lines` lines. The page for the report's last line is made
/// first.
fn write_by<R: Threads + Sync, W: Write>(
    rt: &R,
    alloc: Global,
    workers: u16,
    net: &Net,
    report: &Report,
    lines: usize,
    writer: &mut W,
) -> Result<(), PrintError>
    requires positive { 1 ≤ workers }
    requires traces { vec_len report.now.traces ≡ length (net_of net.now).motes }
    requires lines { length (net_lines (net_of net.now) (report_of report.now).traces) ≡ lines }
    requires all { lines + vec_len report.now.medium + 1 < 2 ^ 63 }
    ensures writes { let text = report_text (net_of net.now) (report_of report.now)
        in Writes (W.contents writer.old) (W.contents writer.new) result text }
{
    let mut page = Page::new(alloc, ROOM)?;
    let all = lines + report.medium.len() + 1;
    let shown = ReportLines { net, report, lines };
    write_all(rt, alloc, workers, &shown, all, writer)?;
    write_end(writer, &mut page, report.left)
}

/// Writes the report of a net as text, the same text as `write_report`. If the traces have many lines, each worker
/// writes a part of them and of the log of the medium to a page, in a thread of its own. This thread writes the pages,
/// and then the last line.
///
/// This thread waits for the workers, so the contract holds only if the call returns.
///
/// # Errors
/// `Write` if the writer failed or took no byte; `Memory` if an allocation failed. A proper prefix of the text has
/// then been written.
pub fn write_report_by<R: Threads + Sync, W: Write>(
    rt: &R,
    alloc: Global,
    workers: u16,
    net: &Net,
    report: &Report,
    writer: &mut W,
) -> Result<(), PrintError>
    requires positive { 1 ≤ workers }
    // There is one trace for each mote.
    requires traces { vec_len report.now.traces ≡ length (net_of net.now).motes }
    ensures writes { let text = report_text (net_of net.now) (report_of report.now)
        in Writes (W.contents writer.old) (W.contents writer.new) result text }
{
    match many_lines(workers, &report.traces, &report.medium) {
        Some(lines) => write_by(rt, alloc, workers, net, report, lines, writer),
        None => write_report(alloc, net, report, writer),
    }
}
