//! Writes the line that reports an error, without allocating anything.
ghost use Rattle.std.specs.Prelude.{IfSome};
ghost use Rattle.simulation.specs.FaultLines.{WritesLine};
ghost use Rattle.claim_check.specs.FaultLines.{written_line};

use crate::error::CheckError;
use crate::output::write_bytes;
use std::fmt::{Display, InlineText, Write as _};
use std::io::Write;
use trace_printer::WriteFault;

/// Writes a text of at most 4096 bytes. After an error, a prefix of it has been written.
///
/// # Errors
/// If the text is longer, or if the writer failed.
fn write_short<E: Write, D: Display + Drop>(errors: &mut E, text: D) -> Result<(), WriteFault>
    ensures part { IfSome (D.output text)
        (λ bytes. WritesLine (E.contents errors.old) (E.contents errors.new) result bytes) }
{
    let mut short = InlineText::<4096>::new();
    match short.write_fmt(text) {
        Ok(()) => write_bytes(errors, short.as_str().as_bytes()),
        Err(_) => Err(WriteFault),
    }
}

/// Writes the line that reports an error: the program's name, and then the error's text. After an error of this call, a
/// prefix of the line has been written.
///
/// # Errors
/// If the writer failed or took no byte. (No text is too long: names of programs are short.)
pub fn report_fault<E: Write>(fault: &CheckError, errors: &mut E) -> Result<(), WriteFault>
    ensures writes { WritesLine (E.contents errors.old) (E.contents errors.new) result (written_line fault.now) }
{
    write_short(errors, format_args!("motecheck: {fault}\n"))
}
