//! A part of the text of the traces and the medium. Their lines are numbered from 0, from the first trace to the end
//! of the medium's log.
ghost use Rattle.std.specs.Prelude.{◌≡◌, [], ◌∷◌, ◌++◌, length, map, take, drop, codes, decimal, IfSome, OnOk};
ghost use Rattle.std.specs.List.{flat_map};
ghost use Rattle.program_tree.specs.Program.{tree_of};
ghost use Rattle.mote_net.specs.Net.{NetModel};
ghost use Rattle.mote_net.specs.Meaning.{net_of};
ghost use Rattle.mote_net.specs.Report.{trace_lines_in, line_model};
ghost use Rattle.trace_printer.specs.Parts.{HasTraces, texts_of_lines};
ghost use Rattle.trace_printer.specs.ReportText.{line_text, packet_text};
ghost use Rattle.trace_printer.specs.TraceLines.{part_text, net_lines, medium_lines};
ghost use Rattle.trace_printer.specs.Words.{line_of};

use crate::lines::{put_head, put_medium, put_packet, put_trace_line};
use crate::page::Page;
use mote_net::{LogLine, Net, Report};
use program_tree::Program;
use std::alloc::AllocError;
use trace_lines::Line;

/// Returns the number of lines that the motes with these traces show: the lines of each trace, and one line before
/// them. It is `None` if the count overflows.
pub fn count_lines(traces: &[Vec<Line>]) -> Option<usize>
    ensures count { (net : NetModel) → length traces.now ≡ length net.motes
        → IfSome result (λ count. length (net_lines net (map trace_lines_in traces.now)) ≡ count) }
{
    let mut count: usize = 0;
    for trace in traces {
        count = count.checked_add(trace.len() + 1)?;
    }
    Some(count)
}

/// Returns at most `count` lines of a trace or of the medium's log, after the first `skip`.
fn some_of<T>(lines: &[T], skip: usize, count: usize) -> &[T]
    ensures part { result.now ≡ take count (drop skip lines.now) }
{
    let rest = &lines[skip.min(lines.len())..];
    &rest[..count.min(rest.len())]
}

/// Appends lines of the trace of a mote with this program.
fn put_lines(page: &mut Page, program: &Program, lines: &[Line]) -> Result<(), AllocError>
    ensures appended { OnOk result (page.new ≡ page.old ++ flat_map (line_text (tree_of program.now)) lines.now) }
{
    for line in lines {
        put_trace_line(page, program, line)?;
    }
    Ok(())
}

/// Appends at most `count` of a mote's lines, after the first `skip`.
fn put_mote_part(
    page: &mut Page,
    mote: u16,
    name: &str,
    program: &Program,
    trace: &[Line],
    skip: usize,
    count: usize,
) -> Result<(), AllocError>
    ensures appended { let head = line_of (codes "mote") (decimal mote ∷ name.now ∷ [])
        in let lines = head ∷ map (line_text (tree_of program.now)) trace.now
        in OnOk result (page.new ≡ page.old ++ part_text lines skip count) }
{
    if skip > 0 {
        return put_lines(page, program, some_of(trace, skip - 1, count));
    }
    if count == 0 {
        return Ok(());
    }
    put_head(page, mote, name)?;
    put_lines(page, program, some_of(trace, 0, count - 1))
}

/// Appends at most `count` of the motes' lines, after the first `skip`.
///
/// # Errors
/// If an allocation failed.
pub fn put_part(
    page: &mut Page,
    net: &Net,
    traces: &[Vec<Line>],
    skip: usize,
    count: usize,
) -> Result<(), AllocError>
    requires traces { length traces.now ≡ length (net_of net.now).motes }
    ensures appended { let lines = net_lines (net_of net.now) (map trace_lines_in traces.now)
        in OnOk result (page.new ≡ page.old ++ part_text lines skip count) }
{
    let mut before = skip;
    let mut left = count;
    for mote in 0..net.motes() {
        let trace = &traces[usize::from(mote)];
        let program = net.program(mote);
        put_mote_part(
            page,
            mote,
            net.program_name(mote),
            program,
            trace,
            before,
            left,
        )?;
        let lines = trace.len() + 1;
        left = left.saturating_sub(lines.saturating_sub(before));
        before = before.saturating_sub(lines);
    }
    Ok(())
}

/// Appends lines of the medium's log.
fn put_packets(page: &mut Page, log: &[LogLine]) -> Result<(), AllocError>
    ensures appended { OnOk result (page.new ≡ page.old ++ flat_map packet_text (map line_model log.now)) }
{
    for line in log {
        put_packet(page, line)?;
    }
    Ok(())
}

/// Appends at most `count` of the medium's lines, after the first `skip`.
fn put_medium_part(
    page: &mut Page,
    log: &[LogLine],
    skip: usize,
    count: usize,
) -> Result<(), AllocError>
    ensures appended { OnOk result (page.new
        ≡ page.old ++ part_text (medium_lines (map line_model log.now)) skip count) }
{
    if skip > 0 {
        return put_packets(page, some_of(log, skip - 1, count));
    }
    if count == 0 {
        return Ok(());
    }
    put_medium(page)?;
    put_packets(page, some_of(log, 0, count - 1))
}

/// Appends at most `count` of all lines of a report, after the first `skip`. The lines of the motes are first; there
/// are `lines` of them. Those of the medium follow.
///
/// # Errors
/// If an allocation failed.
pub fn put_all_part(
    page: &mut Page,
    net: &Net,
    report: &Report,
    lines: usize,
    skip: usize,
    count: usize,
) -> Result<(), AllocError>
    requires has_traces { HasTraces (net_of net.now) report.now lines }
    ensures appended { let texts = texts_of_lines (net_of net.now) report.now
        in OnOk result (page.new ≡ page.old ++ part_text texts skip count) }
{
    put_part(page, net, &report.traces, skip, count)?;
    let left = count.saturating_sub(lines.saturating_sub(skip));
    let before = skip.saturating_sub(lines);
    put_medium_part(page, &report.medium, before, left)
}
