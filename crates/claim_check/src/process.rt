//! The command, with the arguments of the process.
ghost use Rattle.std.specs.Prelude.{◌≡◌, IfOk, List, ℕ, MatchResult, map, string_bytes};
ghost use Rattle.simulation.specs.Words.{texts_of};
ghost use Rattle.claim_check.specs.Command.{Commands, ReturnsSome, ends};

use crate::command::{run_command, status_of};
use crate::error::CheckError;
use simulation::SimError;
use std::alloc::{AllocError, Global};
use std::io::{Eprint, Write};
use std::random::RandomSource;
use std::rt::{Env, Files};
use std::sync::Wait;
use std::thread::Threads;
use std::{env, io};

/// Returns the texts of words.
fn borrow_words(alloc: Global, words: &[String]) -> Result<Vec<&str>, AllocError>
    ensures texts { IfOk result (λ all. texts_of all.items ≡ map string_bytes words.now) }
{
    let mut texts = Vec::new(alloc);
    for word in words {
        texts.push(word.as_str())?;
    }
    Ok(texts)
}

/// Returns the arguments of the process.
fn words_of<T: AllocGlobal + Env>(rt: &T) -> io::Result<Vec<String>> {
    let words = env::args(rt)?.collect(rt.alloc())?;
    Ok(words)
}

/// Runs the command with these arguments.
fn run_words<T, W, E>(
    rt: &T,
    words: &[String],
    output: &mut W,
    errors: &mut E,
) -> Result<u8, AllocError>
where
    T: AllocGlobal + Eprint + Files + Threads + Wait + RandomSource + Sync,
    W: Write,
    E: Write,
    ensures runs { let old = ends (W.contents output.old) (E.contents errors.old)
        in let new = ends (W.contents output.new) (E.contents errors.new)
        in MatchResult result (Commands (map string_bytes words.now) old new) (λ _. new ≡ old) }
{
    let words = borrow_words(rt.alloc(), words)?;
    Ok(run_command(rt, &words, output, errors))
}

/// Runs the command with the arguments of the process.
fn run<T, W, E>(rt: &T, output: &mut W, errors: &mut E) -> io::Result<u8>
where
    T: AllocGlobal + Env + Eprint + Files + Threads + Wait + RandomSource + Sync,
    W: Write,
    E: Write,
    ensures runs { let old = ends (W.contents output.old) (E.contents errors.old)
        in let new = ends (W.contents output.new) (E.contents errors.new)
        in MatchResult result (λ status. (words : List (List ℕ)) × Commands words old new status) (λ _. new ≡ old) }
{
    let words = words_of(rt)?;
    Ok(run_words(rt, &words, output, errors)?)
}

/// Runs `run_command` with the arguments of the process, and returns the exit status of the command. If it can't read
/// the arguments, for example because one isn't UTF-8, it writes nothing to `output`, and the status isn't 0. The clause
/// doesn't say which arguments the process has.
pub fn run_process<T, W, E>(rt: &T, output: &mut W, errors: &mut E) -> u8
where
    T: AllocGlobal + Env + Eprint + Files + Threads + Wait + RandomSource + Sync,
    W: Write,
    E: Write,
    ensures returns_some { let old = ends (W.contents output.old) (E.contents errors.old)
        in let new = ends (W.contents output.new) (E.contents errors.new)
        in ReturnsSome old new result }
{
    match run(rt, output, errors) {
        Ok(status) => status,
        Err(error) if error.kind() == io::ErrorKind::InvalidData => {
            let _ = writeln!(
                errors,
                "error: invalid UTF-8 was detected in one or more arguments"
            );
            2
        }
        Err(_) => status_of(Err(CheckError::Simulation(SimError::Memory)), errors),
    }
}
