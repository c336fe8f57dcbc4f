//! The command, with the arguments of the process.
ghost use Rattle.std.specs.Prelude.{◌≡◌, MatchResult};
ghost use Rattle.simulation.specs.Command.{ReturnsSome, RunsSome, streams};

use crate::command::{run_command, status_of};
use crate::error::SimError;
use std::alloc::{AllocError, Global};
use std::io::{Read, Write};
use std::random::RandomSource;
use std::rt::{Env, Files};
use std::sync::Wait;
use std::thread::Threads;
use std::{env, io};

fn borrow_words(alloc: Global, words: &[String]) -> Result<Vec<&str>, AllocError> {
    words.iter().map(|word| word.as_str()).collect(alloc)
}

/// Returns the arguments of the process.
fn words_of<T: AllocGlobal + Env>(rt: &T) -> io::Result<Vec<String>> {
    let words = env::args(rt)?.collect(rt.alloc())?;
    Ok(words)
}

/// Runs the command with these arguments.
fn run_words<T, R, W, E>(
    rt: &T,
    words: &[String],
    input: &mut R,
    output: &mut W,
    errors: &mut E,
) -> Result<u8, AllocError>
where
    T: AllocGlobal + Files + Threads + Wait + RandomSource + Sync,
    R: Read,
    W: Write,
    E: Write,
    ensures runs { let old = streams (R.remaining input.old) (W.contents output.old) (E.contents errors.old)
        in let new = streams (R.remaining input.new) (W.contents output.new) (E.contents errors.new)
        in MatchResult result (RunsSome old new) (λ _. new ≡ old) }
{
    let words = borrow_words(rt.alloc(), words)?;
    Ok(run_command(rt, &words, input, output, errors))
}

/// Runs the command with the arguments of the process.
fn run<T, R, W, E>(rt: &T, input: &mut R, output: &mut W, errors: &mut E) -> io::Result<u8>
where
    T: AllocGlobal + Env + Files + Threads + Wait + RandomSource + Sync,
    R: Read,
    W: Write,
    E: Write,
    ensures runs { let old = streams (R.remaining input.old) (W.contents output.old) (E.contents errors.old)
        in let new = streams (R.remaining input.new) (W.contents output.new) (E.contents errors.new)
        in MatchResult result (RunsSome old new) (λ _. new ≡ old) }
{
    let words = words_of(rt)?;
    Ok(run_words(rt, &words, input, output, errors)?)
}

/// Runs `run_command` with the arguments of the process, and returns the exit status of the command. If an argument
/// isn't UTF-8, the status isn't 0; a test shows that it is 2, and that a line in `errors` reports this.
///
/// This function isn't next to the program's `main`: a check of `main` would then load again everything on which the
/// contract of `run_command` depends.
pub fn run_process<T, R, W, E>(rt: &T, input: &mut R, output: &mut W, errors: &mut E) -> u8
where
    T: AllocGlobal + Env + Files + Threads + Wait + RandomSource + Sync,
    R: Read,
    W: Write,
    E: Write,
    ensures returns_some { let old = streams (R.remaining input.old) (W.contents output.old) (E.contents errors.old)
        in let new = streams (R.remaining input.new) (W.contents output.new) (E.contents errors.new)
        in ReturnsSome old new result }
{
    match run(rt, input, output, errors) {
        Ok(status) => status,
        Err(error) if error.kind() == io::ErrorKind::InvalidData => {
            let _ = writeln!(
                errors,
                "error: invalid UTF-8 was detected in one or more arguments"
            );
            2
        }
        Err(_) => status_of(Err(SimError::Memory), errors),
    }
}
