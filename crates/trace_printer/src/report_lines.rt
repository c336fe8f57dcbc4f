//! The lines of a report, which several threads may write.
ghost use Rattle.std.specs.Prelude.{◌≡◌, ◌++◌, ℕ, List, OnOk};
ghost use Rattle.mote_net.specs.Meaning.{net_of};
ghost use Rattle.trace_printer.specs.Parts.{HasTraces};
ghost use Rattle.trace_printer.specs.TraceLines.{part_text};

use crate::numbered::put_all_part;
use crate::page::Page;
use mote_net::{Net, Report};
use std::alloc::AllocError;

/// Lines with numbers, from 0 on.
pub trait Numbered {
    /// The text of each line.
    ghost texts: { Self → List (List ℕ) };

    /// Appends at most `count` of the lines to a page, after the first `skip`.
    ///
    /// # Errors
    /// If an allocation failed.
    fn put(&self, page: &mut Page, skip: usize, count: usize) -> Result<(), AllocError>
        ensures appended { OnOk result (page.new ≡ page.old ++ part_text (texts self.now) skip count) };
}

/// The lines of a report without its last line. The motes show `lines` of them; those of the medium follow.
#[derive(Drop)]
pub struct ReportLines<'a> {
    pub net: &'a Net,
    pub report: &'a Report,
    pub lines: usize,
    ghost has_traces: { HasTraces (net_of net.now) report.now lines },
}

impl Numbered for ReportLines<'_> {
    ghost use Rattle.mote_net.specs.Meaning.{net_of};
    ghost use Rattle.trace_printer.specs.Parts.{texts_of_lines};

    ghost texts = { λ l. texts_of_lines (net_of l.net.now) l.report.now };

    fn put(&self, page: &mut Page, skip: usize, count: usize) -> Result<(), AllocError> {
        put_all_part(page, self.net, self.report, self.lines, skip, count)
    }
}
