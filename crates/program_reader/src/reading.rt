//! The reading of a whole text.
ghost use Rattle.std.specs.Prelude.{◌≡◌, IfOk};
ghost use Rattle.program_tree.specs.Code.{Tree};
ghost use Rattle.program_tree.specs.Program.{tree_of};
ghost use Rattle.program_tree.specs.Reading.{IsTreeOf, IsErrorOf};

use crate::codes::program;
use crate::fault::ReadFailure;
use crate::lexer::lex;
use program_tree::error::{ReadError, ReadErrorKind};
use program_tree::program::Program;
use std::alloc::Global;

/// Returns the program of a text, or its reported error: the error at the earliest token or, if there are several at
/// this token, the error with the least number. The time is linear in the length of the text, except for the look-up
/// of names.
///
/// A program has at most 64 processes, 117 events, 64 semaphores and 64 timers, and each process has at most 64
/// variables and 7 threads. All blocks together have at most 4,096 statements, counted by their first tokens. Blocks
/// and expressions are nested at most 32 levels deep, and the body is the first level.
///
/// # Errors
///
/// The reported error, with the line of its token or of the end of the text; or `Memory`, with line 0, if an allocation
/// failed.
pub fn read(alloc: Global, text: &str) -> Result<Program, ReadError>
    ensures ok { IfOk result (λ p. IsTreeOf text.now (tree_of p)) }
    ensures matches { (e : ReadError) → result ≡ Err e → (e.kind ≡ ReadErrorKind.Memory → ⊥)
        → IsErrorOf text.now e.kind e.line }
    ensures memory { (e : ReadError) → result ≡ Err e → e.kind ≡ ReadErrorKind.Memory → e.line ≡ 0 }
    ensures only { (t : Tree) → IsTreeOf text.now t → IfOk result (λ p. tree_of p ≡ t) }
    ensures accepts { (t : Tree) → IsTreeOf text.now t → (e : ReadError) → result ≡ Err e
        → e.kind ≡ ReadErrorKind.Memory }
{
    let lexed = lex(alloc, text)?;
    match program(alloc, &lexed.tokens) {
        Ok(program) => Ok(program),
        Err(ReadFailure::Memory) => Err(ReadError {
            kind: ReadErrorKind::Memory,
            line: 0,
        }),
        Err(ReadFailure::Fault(fault)) => Err(ReadError {
            kind: fault.kind,
            line: lexed.lines[lexed.tokens.len() - fault.left],
        }),
    }
}
