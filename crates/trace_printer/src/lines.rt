//! The lines of a report.
ghost use Rattle.std.specs.Prelude.{◌≡◌, [], ◌++◌, ◌∷◌, map, codes, decimal, OnOk};
ghost use Rattle.std.specs.List.{flat_map};
ghost use Rattle.program_tree.specs.Program.{tree_of};
ghost use Rattle.mote_net.specs.Report.{line_model};
ghost use Rattle.trace_printer.specs.ReportText.{left_text, line_text, packet_text};
ghost use Rattle.trace_printer.specs.Words.{fate_word, line_of};

use crate::names::{event_word, process_word, target_word};
use crate::page::{Page, make_room};
use crate::words::{put_arrival, put_byte, put_number, put_spaced, put_spaced_number, put_text};
use mote_net::LogLine;
use program_tree::Program;
use radio_packet::{Fate, Sent};
use std::alloc::AllocError;
use trace_lines::{Line, What};

/// The number of bytes for everything in a line except its keyword, its names and its fates.
const LINE: usize = 128;

/// Appends the line that begins the trace of a mote with this number and the name of its program.
///
/// # Errors
/// If an allocation failed.
pub fn put_head(page: &mut Page, mote: u16, name: &str) -> Result<(), AllocError>
    ensures appended { OnOk result (page.new ≡ page.old ++ line_of (codes "mote") (decimal mote ∷ name.now ∷ [])) }
{
    make_room(&mut page.bytes, page.len, LINE.saturating_add(name.len()))?;
    let room = page.bytes.as_mut_slice();
    let end = put_text(room, page.len, "mote");
    let end = put_spaced_number(room, end, u64::from(mote));
    let end = put_spaced(room, end, name);
    page.len = put_byte(room, end, b'\n');
    Ok(())
}

/// Appends the line that begins the log of the medium.
///
/// # Errors
/// If an allocation failed.
pub fn put_medium(page: &mut Page) -> Result<(), AllocError>
    ensures appended { OnOk result (page.new ≡ page.old ++ line_of (codes "medium") []) }
{
    make_room(&mut page.bytes, page.len, LINE)?;
    let room = page.bytes.as_mut_slice();
    let end = put_text(room, page.len, "medium");
    page.len = put_byte(room, end, b'\n');
    Ok(())
}

/// Appends `left N`, the number of copies that are still on their way.
///
/// # Errors
/// If an allocation failed.
pub fn put_left(page: &mut Page, left: u64) -> Result<(), AllocError>
    ensures appended { OnOk result (page.new ≡ page.old ++ left_text left) }
{
    make_room(&mut page.bytes, page.len, LINE)?;
    let room = page.bytes.as_mut_slice();
    let end = put_text(room, page.len, "left");
    let end = put_spaced_number(room, end, left);
    page.len = put_byte(room, end, b'\n');
    Ok(())
}

/// Appends a line with a keyword and a name.
#[inline(always)]
fn put_named(page: &mut Page, at: u64, keyword: &str, name: &str) -> Result<(), AllocError>
    ensures appended { OnOk result (page.new ≡ page.old ++ line_of (decimal at) (keyword.now ∷ name.now ∷ [])) }
{
    let names = keyword.len().saturating_add(name.len());
    make_room(&mut page.bytes, page.len, LINE.saturating_add(names))?;
    let room = page.bytes.as_mut_slice();
    let end = put_number(room, page.len, at);
    let end = put_spaced(room, end, keyword);
    let end = put_spaced(room, end, name);
    page.len = put_byte(room, end, b'\n');
    Ok(())
}

/// Appends a line with a keyword, an event's number and a name.
#[inline(always)]
fn put_event(
    page: &mut Page,
    at: u64,
    keyword: &str,
    serial: u64,
    name: &str,
) -> Result<(), AllocError>
    ensures appended { OnOk result (page.new
        ≡ page.old ++ line_of (decimal at) (keyword.now ∷ decimal serial ∷ name.now ∷ [])) }
{
    let names = keyword.len().saturating_add(name.len());
    make_room(&mut page.bytes, page.len, LINE.saturating_add(names))?;
    let room = page.bytes.as_mut_slice();
    let end = put_number(room, page.len, at);
    let end = put_spaced(room, end, keyword);
    let end = put_spaced_number(room, end, serial);
    let end = put_spaced(room, end, name);
    page.len = put_byte(room, end, b'\n');
    Ok(())
}

/// Appends a line with a keyword and two numbers.
#[inline(always)]
fn put_numbers(
    page: &mut Page,
    at: u64,
    keyword: &str,
    first: u64,
    second: u64,
) -> Result<(), AllocError>
    ensures appended { OnOk result (page.new ≡ page.old
        ++ line_of (decimal at) (keyword.now ∷ decimal first ∷ decimal second ∷ [])) }
{
    make_room(
        &mut page.bytes,
        page.len,
        LINE.saturating_add(keyword.len()),
    )?;
    let room = page.bytes.as_mut_slice();
    let end = put_number(room, page.len, at);
    let end = put_spaced(room, end, keyword);
    let end = put_spaced_number(room, end, first);
    let end = put_spaced_number(room, end, second);
    page.len = put_byte(room, end, b'\n');
    Ok(())
}

fn put_post(
    page: &mut Page,
    at: u64,
    serial: u64,
    target: &str,
    event: &str,
    word: u16,
) -> Result<(), AllocError>
    ensures appended { OnOk result (page.new ≡ page.old
        ++ line_of (decimal at) (codes "post" ∷ decimal serial ∷ target.now ∷ event.now ∷ decimal word ∷ [])) }
{
    let names = target.len().saturating_add(event.len());
    make_room(&mut page.bytes, page.len, LINE.saturating_add(names))?;
    let room = page.bytes.as_mut_slice();
    let end = put_number(room, page.len, at);
    let end = put_spaced(room, end, "post");
    let end = put_spaced_number(room, end, serial);
    let end = put_spaced(room, end, target);
    let end = put_spaced(room, end, event);
    let end = put_spaced_number(room, end, u64::from(word));
    page.len = put_byte(room, end, b'\n');
    Ok(())
}

fn put_full(
    page: &mut Page,
    at: u64,
    target: &str,
    event: &str,
    word: u16,
) -> Result<(), AllocError>
    ensures appended { OnOk result (page.new ≡ page.old
        ++ line_of (decimal at) (codes "full" ∷ target.now ∷ event.now ∷ decimal word ∷ [])) }
{
    let names = target.len().saturating_add(event.len());
    make_room(&mut page.bytes, page.len, LINE.saturating_add(names))?;
    let room = page.bytes.as_mut_slice();
    let end = put_number(room, page.len, at);
    let end = put_spaced(room, end, "full");
    let end = put_spaced(room, end, target);
    let end = put_spaced(room, end, event);
    let end = put_spaced_number(room, end, u64::from(word));
    page.len = put_byte(room, end, b'\n');
    Ok(())
}

fn put_print(page: &mut Page, at: u64, process: &str, value: u16) -> Result<(), AllocError>
    ensures appended { OnOk result (page.new ≡ page.old
        ++ line_of (decimal at) (codes "print" ∷ process.now ∷ decimal value ∷ [])) }
{
    make_room(
        &mut page.bytes,
        page.len,
        LINE.saturating_add(process.len()),
    )?;
    let room = page.bytes.as_mut_slice();
    let end = put_number(room, page.len, at);
    let end = put_spaced(room, end, "print");
    let end = put_spaced(room, end, process);
    let end = put_spaced_number(room, end, u64::from(value));
    page.len = put_byte(room, end, b'\n');
    Ok(())
}

/// Appends a line with a keyword alone.
fn put_keyword(page: &mut Page, at: u64, keyword: &str) -> Result<(), AllocError>
    ensures appended { OnOk result (page.new ≡ page.old ++ line_of (decimal at) (keyword.now ∷ [])) }
{
    make_room(
        &mut page.bytes,
        page.len,
        LINE.saturating_add(keyword.len()),
    )?;
    let room = page.bytes.as_mut_slice();
    let end = put_number(room, page.len, at);
    let end = put_spaced(room, end, keyword);
    page.len = put_byte(room, end, b'\n');
    Ok(())
}

fn put_recv(page: &mut Page, at: u64, from: u16, number: u64, value: u16) -> Result<(), AllocError>
    ensures appended { OnOk result (page.new ≡ page.old
        ++ line_of (decimal at) (codes "recv" ∷ decimal from ∷ decimal number ∷ decimal value ∷ [])) }
{
    make_room(&mut page.bytes, page.len, LINE)?;
    let room = page.bytes.as_mut_slice();
    let end = put_number(room, page.len, at);
    let end = put_spaced(room, end, "recv");
    let end = put_spaced_number(room, end, u64::from(from));
    let end = put_spaced_number(room, end, number);
    let end = put_spaced_number(room, end, u64::from(value));
    page.len = put_byte(room, end, b'\n');
    Ok(())
}

/// Appends a line of the trace of a mote with this program.
///
/// # Errors
/// If an allocation failed.
pub fn put_trace_line(page: &mut Page, program: &Program, line: &Line) -> Result<(), AllocError>
    ensures appended { OnOk result (page.new ≡ page.old ++ line_text (tree_of program.now) line.now) }
{
    let at = line.at;
    match line.what {
        What::Start(process) => put_named(page, at, "start", process_word(program, process)),
        What::Leave(process) => put_named(page, at, "leave", process_word(program, process)),
        What::Post(serial, target, event, word) => {
            let target = target_word(program, target);
            put_post(page, at, serial, target, event_word(program, event), word)
        }
        What::Full(target, event, word) => {
            let target = target_word(program, target);
            put_full(page, at, target, event_word(program, event), word)
        }
        What::Take(serial, process) => {
            put_event(page, at, "take", serial, process_word(program, process))
        }
        What::Drop(serial, process) => {
            put_event(page, at, "drop", serial, process_word(program, process))
        }
        What::Print(process, value) => {
            put_print(page, at, process_word(program, process), value)
        }
        What::Busy(process) => put_named(page, at, "busy", process_word(program, process)),
        What::Halt => put_keyword(page, at, "halt"),
        What::Send(number, value) => put_numbers(page, at, "send", number, u64::from(value)),
        What::Recv(from, number, value) => put_recv(page, at, from, number, value),
        What::Lost(from, number) => put_numbers(page, at, "lost", u64::from(from), number),
        What::Deaf(from, number) => put_numbers(page, at, "deaf", u64::from(from), number),
        What::Collide(from, number) => { put_numbers(page, at, "collide", u64::from(from), number) }
        What::Boots => put_keyword(page, at, "boots"),
    }
}

/// Appends a space, the receiver of a copy, and the moment at which the copy arrives.
fn put_fate(page: &mut Page, fate: Fate) -> Result<(), AllocError>
    ensures appended { OnOk result (page.new ≡ page.old ++ 32 ∷ fate_word fate) }
{
    make_room(&mut page.bytes, page.len, LINE)?;
    let room = page.bytes.as_mut_slice();
    let end = put_spaced_number(room, page.len, u64::from(fate.to));
    let end = put_byte(room, end, b'@');
    page.len = put_arrival(room, end, fate.at);
    Ok(())
}

fn put_fates(page: &mut Page, fates: &[Fate]) -> Result<(), AllocError>
    ensures appended { OnOk result (page.new ≡ page.old ++ flat_map (λ w. 32 ∷ w) (map fate_word fates.now)) }
{
    for fate in fates {
        put_fate(page, *fate)?;
    }
    Ok(())
}

/// Appends the words of a packet that come before the fates of its copies: its moment, its sender, its number and its
/// value.
fn put_sent(page: &mut Page, sent: Sent) -> Result<(), AllocError>
    ensures appended { OnOk result (page.new ≡ page.old ++ decimal sent.at
        ++ flat_map (λ w. 32 ∷ w) (decimal sent.sender ∷ decimal sent.number ∷ decimal sent.value ∷ [])) }
{
    make_room(&mut page.bytes, page.len, LINE)?;
    let room = page.bytes.as_mut_slice();
    let end = put_number(room, page.len, sent.at);
    let end = put_spaced_number(room, end, u64::from(sent.sender));
    let end = put_spaced_number(room, end, sent.number);
    page.len = put_spaced_number(room, end, u64::from(sent.value));
    Ok(())
}

fn put_line_feed(page: &mut Page) -> Result<(), AllocError>
    ensures appended { OnOk result (page.new ≡ page.old ++ 10 ∷ []) }
{
    make_room(&mut page.bytes, page.len, LINE)?;
    page.len = put_byte(page.bytes.as_mut_slice(), page.len, b'\n');
    Ok(())
}

/// Appends a line of the medium's log.
///
/// # Errors
/// If an allocation failed.
pub fn put_packet(page: &mut Page, line: &LogLine) -> Result<(), AllocError>
    ensures appended { OnOk result (page.new ≡ page.old ++ packet_text (line_model line.now)) }
{
    put_sent(page, line.sent)?;
    put_fates(page, &line.fates)?;
    put_line_feed(page)
}
