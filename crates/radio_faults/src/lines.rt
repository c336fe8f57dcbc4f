//! Reads a text of faults, line by line.
ghost use Rattle.std.specs.Prelude.{◌≡◌, ◌≤◌, ◌↔◌, IsTrue, length, map, IfErr, IfOk, OnOk};
ghost use Rattle.radio_faults.specs.FaultLines.{AddsLine, IsRead, ReadsLine, Refuses, RefusesLine, is_fault_line, lines_of, shared};

use crate::Fault;
use crate::error::FaultsError;
use crate::text::FaultText;
use crate::words::{nearest, words_of};
use std::alloc::{AllocError, Global};

fn lines_of(alloc: Global, text: &[u8]) -> Result<Vec<&[u8]>, AllocError>
    ensures lines { IfOk result (λ lines. map (λ line. line.now) lines.items ≡ lines_of text.now) }
{
    text.split(|byte| *byte == b'\n').collect(alloc)
}

fn is_fault_line(line: &[u8]) -> bool
    ensures value { result ≡ is_fault_line line.now }
{
    match line {
        [] => false,
        [first, ..] => *first != b'#',
    }
}

/// The number of bytes at which two texts begin alike.
fn shared(a: &[u8], b: &[u8]) -> usize
    ensures value { result ≡ shared a.now b.now }
    ensures within { result ≤ length b.now }
{
    a.iter().zip(b).take_while(|(a, b)| a == b).count()
}

/// Returns whether a line is this text.
fn is_text(text: &str, line: &[u8]) -> bool
    ensures same { IsTrue result ↔ text.now ≡ line.now }
{
    text.as_bytes() == line
}

/// Reads the line with this number.
///
/// # Errors
/// `NotAFault` if the line isn't the text of a fault; `Memory` if an allocation fails.
fn read_line(alloc: Global, line: &[u8], number: usize) -> Result<Fault, FaultsError>
    ensures reads { ReadsLine number line.now result }
{
    let words = words_of(alloc, line)?;
    let Some(fault) = nearest(words.as_slice()) else {
        return Err(FaultsError::NotAFault {
            line: number,
            column: 1,
        });
    };
    let shown = FaultText(fault);
    let text = format!(in alloc; "{shown}")?;
    if is_text(text.as_str(), line) {
        return Ok(fault);
    }
    let column = shared(text.as_bytes(), line) + 1;
    Err(FaultsError::NotAFault {
        line: number,
        column,
    })
}

fn add_line(
    alloc: Global,
    faults: &mut Vec<Fault>,
    line: &[u8],
    number: usize,
) -> Result<(), FaultsError>
    ensures added { OnOk result (AddsLine line.now faults.old.items faults.new.items) }
    ensures refused { IfErr result (RefusesLine number line.now) }
{
    if is_fault_line(line) {
        let fault = read_line(alloc, line, number)?;
        faults.push(fault)?;
    }
    Ok(())
}

/// Reads faults, one a line. Empty lines, and lines that begin with `#`, are skipped. The texts of the faults are the
/// other lines.
///
/// # Errors
/// `NotAFault` at the first line that isn't the text of a fault; `Memory` if an allocation fails.
pub fn read_faults(alloc: Global, text: &[u8]) -> Result<Vec<Fault>, FaultsError>
    ensures read { IfOk result (λ faults. IsRead text.now faults.items) }
    ensures refused { IfErr result (Refuses text.now) }
{
    let mut faults = Vec::new(alloc);
    let lines = lines_of(alloc, text)?;
    for (index, line) in lines.iter().enumerate() {
        let number = index + 1;
        add_line(alloc, &mut faults, line, number)?;
    }
    Ok(faults)
}
