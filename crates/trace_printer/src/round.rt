//! One round: each worker writes the next lines to a page of its own, in a thread of its own. Then this thread writes
//! the pages.
ghost use Rattle.std.specs.Prelude.{◌≡◌, ◌<◌, ◌+◌, ◌*◌, ◌^◌, ℕ, List, [], length, vec_len, IfOk};
ghost use Rattle.trace_printer.specs.Page.{Prints};
ghost use Rattle.trace_printer.specs.TraceLines.{part_text};
ghost use Rattle.trace_printer.specs.Parts.{ArePages};

use crate::error::PrintError;
use crate::page::Page;
use crate::report_lines::Numbered;
use std::alloc::{AllocError, Global};
use std::io::Write;
use std::thread;
use std::thread::Threads;

/// The number of bytes for which a worker's page has room at first, so that it seldom grows: new room is filled with 0,
/// byte by byte.
const ROOM: usize = 262_144;

/// Makes a page with at most `count` of the lines, after the first `skip`.
fn page_of<T: Numbered>(
    alloc: Global,
    lines: &T,
    skip: usize,
    count: usize,
) -> Result<Page, AllocError>
    ensures text { IfOk result (λ page. page ≡ part_text (T.texts lines.now) skip count) }
{
    let mut page = Page::new(alloc, ROOM)?;
    lines.put(&mut page, skip, count)?;
    Ok(page)
}

/// Makes a page for each worker, each with the next `size` lines after the first `skip`.
fn pages_of<R: Threads + Sync, T: Numbered + Sync>(
    rt: &R,
    alloc: Global,
    workers: u16,
    lines: &T,
    skip: usize,
    size: usize,
) -> Result<Vec<Result<Page, AllocError>>, AllocError>
    requires end_bounded { skip + workers * size < 2 ^ 64 }
    ensures pages { IfOk result (λ pages. ArePages (T.texts lines.now) skip size pages.items) }
    ensures len { IfOk result (λ pages. vec_len pages ≡ workers) }
{
    thread::map_indices(
        rt,
        alloc,
        usize::from(workers),
        &|worker: usize| -> Result<Page, AllocError>
            requires { (worker * size < 2 ^ 64) × (skip + worker * size < 2 ^ 64) }
            ensures { IfOk result (λ page. page
                ≡ part_text (T.texts lines.entry.now) (skip + worker * size) size) }
        { page_of(alloc, lines, skip + worker * size, size) },
    )
}

/// Writes the pages, one after another.
fn write_pages<W: Write>(
    writer: &mut W,
    pages: &[Result<Page, AllocError>],
) -> Result<(), PrintError>
    ensures prints { (lines : List (List ℕ)) (skip size : ℕ) → ArePages lines skip size pages.now
        → Prints (W.contents writer.old) (W.contents writer.new) [] [] result
        (part_text lines skip (length pages.now * size)) }
{
    for page in pages {
        match page {
            Ok(page) => page.write(writer)?,
            Err(_) => return Err(PrintError::Memory),
        }
    }
    Ok(())
}

/// Writes the lines after the first `skip`, as many as `workers` pages of `size` lines
/// have.
///
/// # Errors
/// `Write` if the writer failed or took no byte; `Memory` if an allocation failed.
pub fn write_round<R: Threads + Sync, T: Numbered + Sync, W: Write>(
    rt: &R,
    alloc: Global,
    workers: u16,
    lines: &T,
    skip: usize,
    size: usize,
    writer: &mut W,
) -> Result<(), PrintError>
    requires end_bounded { skip + workers * size < 2 ^ 64 }
    ensures prints { let text = part_text (T.texts lines.now) skip (workers * size)
        in Prints (W.contents writer.old) (W.contents writer.new) [] [] result text }
{
    let pages = pages_of(rt, alloc, workers, lines, skip, size)?;
    write_pages(writer, &pages)
}
