//! Writes a report through a page, a buffer of 64 KiB.
ghost use Rattle.std.specs.Prelude.{◌≡◌, ◌++◌, ◌∷◌, [], length, map, vec_len, codes, decimal};
ghost use Rattle.std.specs.List.{flat_map};
ghost use Rattle.program_tree.specs.Program.{tree_of};
ghost use Rattle.mote_net.specs.Meaning.{net_of};
ghost use Rattle.mote_net.specs.Report.{trace_lines_in, line_model, report_of};
ghost use Rattle.trace_printer.specs.Writes.{Writes};
ghost use Rattle.trace_printer.specs.Page.{Prints};
ghost use Rattle.trace_printer.specs.ReportText.{line_text, motes_text, packet_text, medium_text, left_text};
ghost use Rattle.trace_printer.specs.ReportText.{report_text};
ghost use Rattle.trace_printer.specs.Words.{line_of};

use crate::error::PrintError;
use crate::lines::{put_head, put_left, put_medium, put_packet, put_trace_line};
use crate::output::WriteFault;
use crate::page::{Page, ROOM};
use mote_net::{LogLine, Net, Report};
use program_tree::Program;
use std::alloc::Global;
use std::io::Write;
use trace_lines::Line;

/// Writes the page if it is full.
fn write_if_full<W: Write>(writer: &mut W, page: &mut Page) -> Result<(), WriteFault>
    ensures prints { Prints (W.contents writer.old) (W.contents writer.new) page.old page.new result [] }
{
    if page.is_full() {
        return page.write_to(writer);
    }
    Ok(())
}

fn print_head<W: Write>(
    writer: &mut W,
    page: &mut Page,
    mote: u16,
    name: &str,
) -> Result<(), PrintError>
    ensures prints { let text = line_of (codes "mote") (decimal mote ∷ name.now ∷ [])
        in Prints (W.contents writer.old) (W.contents writer.new) page.old page.new result text }
{
    put_head(page, mote, name)?;
    Ok(write_if_full(writer, page)?)
}

fn print_lines<W: Write>(
    writer: &mut W,
    page: &mut Page,
    program: &Program,
    trace: &[Line],
) -> Result<(), PrintError>
    ensures prints { let text = flat_map (line_text (tree_of program.now)) trace.now
        in Prints (W.contents writer.old) (W.contents writer.new) page.old page.new result text }
{
    for line in trace {
        put_trace_line(page, program, line)?;
        write_if_full(writer, page)?;
    }
    Ok(())
}

fn print_mote<W: Write>(
    writer: &mut W,
    page: &mut Page,
    mote: u16,
    name: &str,
    program: &Program,
    trace: &[Line],
) -> Result<(), PrintError>
    ensures prints { let head = line_of (codes "mote") (decimal mote ∷ name.now ∷ [])
        in let text = head ++ flat_map (line_text (tree_of program.now)) trace.now
        in Prints (W.contents writer.old) (W.contents writer.new) page.old page.new result text }
{
    print_head(writer, page, mote, name)?;
    print_lines(writer, page, program, trace)
}

fn print_motes<W: Write>(
    writer: &mut W,
    page: &mut Page,
    net: &Net,
    traces: &[Vec<Line>],
) -> Result<(), PrintError>
    requires traces { length traces.now ≡ length (net_of net.now).motes }
    ensures prints { let text = motes_text 0 (net_of net.now).motes (map trace_lines_in traces.now)
        in Prints (W.contents writer.old) (W.contents writer.new) page.old page.new result text }
{
    for mote in 0..net.motes() {
        let trace = &traces[usize::from(mote)];
        print_mote(
            writer,
            page,
            mote,
            net.program_name(mote),
            net.program(mote),
            trace,
        )?;
    }
    Ok(())
}

fn print_packets<W: Write>(
    writer: &mut W,
    page: &mut Page,
    log: &[LogLine],
) -> Result<(), PrintError>
    ensures prints { let text = flat_map packet_text (map line_model log.now)
        in Prints (W.contents writer.old) (W.contents writer.new) page.old page.new result text }
{
    for line in log {
        put_packet(page, line)?;
        write_if_full(writer, page)?;
    }
    Ok(())
}

fn print_medium<W: Write>(
    writer: &mut W,
    page: &mut Page,
    log: &[LogLine],
) -> Result<(), PrintError>
    ensures prints { let text = medium_text (map line_model log.now)
        in Prints (W.contents writer.old) (W.contents writer.new) page.old page.new result text }
{
    put_medium(page)?;
    print_packets(writer, page, log)
}

/// Appends the last line to the page, and writes the page.
///
/// # Errors
/// `Write` if the writer failed or took no byte; `Memory` if an allocation failed.
pub fn write_end<W: Write>(writer: &mut W, page: &mut Page, left: u64) -> Result<(), PrintError>
    ensures writes { Writes (W.contents writer.old) (W.contents writer.new) result (page.old ++ left_text left) }
{
    put_left(page, left)?;
    Ok(page.write_to(writer)?)
}

/// Writes the waiting text of the page and the part of a report after the traces: the log of the medium, and the
/// number of copies that are still on their way.
///
/// # Errors
/// `Write` if the writer failed or took no byte; `Memory` if an allocation failed.
pub fn write_medium<W: Write>(
    writer: &mut W,
    page: &mut Page,
    report: &Report,
) -> Result<(), PrintError>
    ensures writes { let model = report_of report.now
        in let text = page.old ++ (medium_text model.log ++ left_text model.left)
        in Writes (W.contents writer.old) (W.contents writer.new) result text }
{
    print_medium(writer, page, &report.medium)?;
    write_end(writer, page, report.left)
}

/// Writes the report of a net as text: the trace of each mote, the log of the medium, and the number of copies that
/// are still on their way. The text is gathered on a page of 64 KiB, which is made first.
///
/// # Errors
/// `Write` if the writer failed or took no byte; `Memory` if an allocation failed, for the page or for a line longer
/// than half of the page. A proper prefix of the text has then been written.
pub fn write_report<W: Write>(
    alloc: Global,
    net: &Net,
    report: &Report,
    writer: &mut W,
) -> Result<(), PrintError>
    // There is one trace for each mote.
    requires traces { vec_len report.now.traces ≡ length (net_of net.now).motes }
    ensures writes { let text = report_text (net_of net.now) (report_of report.now)
        in Writes (W.contents writer.old) (W.contents writer.new) result text }
{
    let mut page = Page::new(alloc, ROOM)?;
    print_motes(writer, &mut page, net, &report.traces)?;
    write_medium(writer, &mut page, report)
}
