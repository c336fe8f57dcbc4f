//! The command with an input in place of arguments and files.
ghost use Rattle.std.specs.Prelude.{◌≡◌, ◌==◌, ◌≤◌, length, IfErr, IfOk, IfSome};
ghost use Rattle.std.specs.List.{after_first, before_first};
ghost use Rattle.std.specs.Str.Lines.{lines};
ghost use Rattle.clap.specs.Words.{kind_of};
ghost use Rattle.simulation.specs.Input.{IsText};
ghost use Rattle.simulation.specs.Words.{texts_of};
ghost use Rattle.claim_check.specs.Command.{ends};
ghost use Rattle.claim_check.specs.Input.{ServesInput, ServesText};
ghost use Rattle.claim_check.specs.Words.{AsksOptions, FaultOf, options_app};

use crate::command::{serve_options, status_of, status_of_words};
use crate::command_line::{Options, options_by};
use crate::error::CheckError;
use simulation::read_text;
use std::alloc::{AllocError, Global};
use std::io::{Read, Write};

/// Returns the parts of a text before and behind its first zero byte. Without a zero byte, nothing is behind it.
fn parts(text: &str) -> (&str, &str)
    ensures before { result.0.now ≡ before_first (λ byte. byte == 0) text.now }
    ensures behind { result.1.now ≡ after_first (λ byte. byte == 0) text.now }
    ensures shorter { length result.1.now ≤ length text.now }
{
    match text.split_once('\0') {
        Some(parts) => parts,
        None => (text, ""),
    }
}

/// Returns the lines of a text.
fn lines_of(alloc: Global, text: &str) -> Result<Vec<&str>, AllocError>
    ensures lines { IfOk result (λ all. texts_of all.items ≡ lines text.now) }
{
    text.lines().collect(alloc)
}

/// Reads the options in the lines of a text, of which the first is the program's name.
///
/// # Errors
/// Those of `options_by`.
fn options_in(alloc: Global, text: &str) -> Result<Options, clap::Error>
    ensures asks { IfOk result (AsksOptions (lines text.now)) }
    ensures refuses { IfErr result (λ e. FaultOf options_app (lines text.now) (kind_of e)) }
{
    let words = lines_of(alloc, text)?;
    options_by(alloc, words.as_slice())
}

/// Serves a text of three parts, as `run_input` does.
fn run_text<W: Write, E: Write>(alloc: Global, text: &str, output: &mut W, errors: &mut E) -> u8
    requires is_text { IsText text.now }
    ensures serves { let old = ends (W.contents output.old) (E.contents errors.old)
        in let new = ends (W.contents output.new) (E.contents errors.new)
        in ServesText text.now old new result }
{
    let (words, rest) = parts(text);
    let (claims, scenario) = parts(rest);
    match options_in(alloc, words) {
        Ok(options) => serve_options(alloc, &options, scenario, claims, output, errors),
        Err(error) => status_of_words(&error, output, errors),
    }
}

/// Reads an input, writes what its arguments ask for to `output`, on one thread, and returns the exit status, as
/// `run_command` does. The input has three parts, with a zero byte after the first and after the second: the arguments,
/// one a line, of which the first is the program's name, and which name no files; the claims; and the scenario. An error
/// of reading is one of the claims.
pub fn run_input<R: Read, W: Write, E: Write>(
    alloc: Global,
    input: &mut R,
    output: &mut W,
    errors: &mut E,
) -> u8
    // If the contents of the input are known, they are served.
    ensures serves { let old = ends (W.contents output.old) (E.contents errors.old)
        in let new = ends (W.contents output.new) (E.contents errors.new)
        in IfSome (R.remaining input.old) (λ bytes. ServesInput bytes old new result) }
{
    match read_text(alloc, input) {
        Ok(text) => run_text(alloc, text.as_str(), output, errors),
        Err(error) => status_of(Err(CheckError::Input(error)), errors),
    }
}
