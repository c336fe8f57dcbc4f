//! Writes the line that reports an error, without allocating anything.

ghost use Rattle.std.specs.Prelude.{IfSome};
ghost use Rattle.trace_printer.specs.Writes.{Writes};
ghost use Rattle.net_scenario.specs.declared.error.ScenarioError.TheVariants as scenario;
ghost use Rattle.simulation.specs.FaultLines.{WritesLine, written_line};
ghost use Rattle.simulation.specs.declared.error.SimError.TheVariants as fault;

use crate::error::SimError;
use mote_net::ProgramName;
use net_scenario::ScenarioError;
use program_tree::ReadError;
use std::fmt::{Display, InlineText, Write as _};
use std::io::Write;

/// The writer failed or took no byte, or a text was too long.
#[derive(Clone, Copy, Debug, PartialEq, Eq)]
pub struct LineFault;

/// Writes all of the bytes. After an error, a proper prefix of them has been written.
///
/// # Errors
/// If the writer failed or took no byte.
fn write_bytes<E: Write>(errors: &mut E, bytes: &[u8]) -> Result<(), LineFault>
    ensures writes { Writes (E.contents errors.old) (E.contents errors.new) result bytes.now }
{
    let mut rest = bytes;
    while !rest.is_empty() {
        match errors.write(rest) {
            Ok(0) => return Err(LineFault),
            Ok(n) => rest = &rest[n..],
            Err(_) => return Err(LineFault),
        }
    }
    Ok(())
}

/// Writes a text of at most 64 bytes. After an error, a prefix of it has been written.
///
/// # Errors
/// If the text is longer, or if the writer failed.
fn write_short<E: Write, D: Display + Drop>(errors: &mut E, text: D) -> Result<(), LineFault>
    ensures part { IfSome (D.output text)
        (λ bytes. WritesLine (E.contents errors.old) (E.contents errors.new) result bytes) }
{
    let mut short = InlineText::<64>::new();
    match short.write_fmt(text) {
        Ok(()) => write_bytes(errors, short.as_str().as_bytes()),
        Err(_) => Err(LineFault),
    }
}

/// Writes the line that reports an error in a program. The name can be long, so it is written by itself.
///
/// # Errors
/// As [`report_fault`].
fn report_program<E: Write>(
    name: &ProgramName,
    error: &ReadError,
    errors: &mut E,
) -> Result<(), LineFault>
    ensures writes { WritesLine (E.contents errors.old) (E.contents errors.new) result
        (written_line (fault.Scenario (scenario.Program name.now error.now))) }
{
    let kind = error.kind.number();
    let line = error.line;
    write_bytes(errors, b"motesim: program ")?;
    write_bytes(errors, name.as_str().as_bytes())?;
    write_short(errors, format_args!(" fault {kind} line {line}\n"))
}

/// Writes the line that reports an error: the name of motesim, and then the error's text. After an error of this call,
/// a prefix of the line has been written.
///
/// # Errors
/// If the writer failed or took no byte. (Tests show that no text is too long.)
pub fn report_fault<E: Write>(fault: &SimError, errors: &mut E) -> Result<(), LineFault>
    ensures writes { WritesLine (E.contents errors.old) (E.contents errors.new) result (written_line fault.now) }
{
    match fault {
        SimError::Scenario(ScenarioError::Program(name, error)) => {
            report_program(name, error, errors)
        }
        _ => write_short(errors, format_args!("motesim: {fault}\n")),
    }
}
